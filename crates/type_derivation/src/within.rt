ghost use Rattle.std.specs.Prelude.{◌≡◌, ◌↔◌, ◌⊎◌, ◌++◌, IsTrue, Contains, length, slice_index_or, true, false, IfOk, OnOk};
ghost use Rattle.component_references.specs.Heights.{IsType};
ghost use Rattle.component_references.specs.Ranked.{IsRanked};
ghost use Rattle.type_derivation.specs.Derives.{members_of};
ghost use Rattle.type_derivation.specs.Within as spec;

use crate::steps::members_of;
use std::alloc::{AllocError, Global};
use std::marker::Model;
use xs_codes::Builtin;
use xs_components::{Components, TypeId};

/// The simple types within a type: itself, and where it is a union, what is within its members (Structures 3.14.6).
#[derive(Drop)]
pub struct Within {
    pub(crate) base: TypeId,
    // by the numbers of the simple types
    simples: Vec<bool>,
    // each once
    builtins: Vec<Builtin>,
}

impl Model for Within {
    ghost use Rattle.type_derivation.specs.Within.{Marks};

    ghost Value = { Marks };

    ghost view = { λ w. record { base = w.base; simples = w.simples.items; builtins = w.builtins.items } };
}

// Puts types behind those that wait.
fn push_all(members: &[TypeId], todo: &mut Vec<TypeId>) -> Result<(), AllocError>
    ensures { OnOk result (todo.new.items ≡ todo.old.items ++ members.now) }
{
    for member in members {
        todo.push(*member)?;
    }
    Ok(())
}

// Whether a built-in type is among others.
fn has_builtin(builtins: &[Builtin], one: Builtin) -> bool
    ensures { IsTrue result ↔ Contains builtins.now one }
{
    builtins.contains(&one)
}

// Puts a built-in type to others, if it is not there.
fn put_builtin(builtins: &mut Vec<Builtin>, one: Builtin) -> Result<(), AllocError>
    ensures { OnOk result (spec.IsPut builtins.old.items one builtins.new.items) }
{
    if has_builtin(builtins.as_slice(), one) {
        return Ok(());
    }
    builtins.push(one)?;
    Ok(())
}

// Whether a number is marked.
fn mark_at(marks: &[bool], number: u32) -> bool
    ensures { IsTrue result ↔ (slice_index_or marks.now number false ≡ true) }
{
    if (number as usize) < marks.len() {
        marks[number as usize]
    } else {
        false
    }
}

impl Within {
    // No type is known to be within the base.
    fn nothing(alloc: Global, parts: &Components, base: TypeId) -> Result<Within, AllocError>
        ensures { IfOk result (spec.IsNothing (length parts.now.simples.parts) base) }
    {
        Ok(Within {
            base,
            simples: Vec::from_elem(alloc, false, parts.simples().len())?,
            builtins: Vec::new(alloc),
        })
    }

    /// Whether a type is among them.
    pub(crate) fn has(&self, of: &TypeId) -> bool
        ensures { IsTrue result ↔ spec.IsMarked self.now of.now }
    {
        match of {
            TypeId::AnyType => false,
            TypeId::Complex(_) => false,
            TypeId::Builtin(builtin) => has_builtin(self.builtins.as_slice(), *builtin),
            TypeId::Simple(id) => mark_at(self.simples.as_slice(), id.number()),
        }
    }

    // Puts a type to them, and its members to what waits, if it was not there.
    fn spread(
        &mut self,
        parts: &Components,
        of: TypeId,
        todo: &mut Vec<TypeId>,
    ) -> Result<(), AllocError>
        requires ranked { IsRanked parts.now }
        requires there { IsType parts.now of }
        requires len { length self.old.simples ≡ length parts.now.simples.parts }
        ensures base { self.new.base ≡ self.old.base }
        ensures simples { OnOk result (self.new.simples ≡ spec.simples_with self.old.simples of) }
        ensures builtins { OnOk result (spec.BuiltinsWith self.old.builtins of self.new.builtins) }
        ensures todo { OnOk result (todo.new.items ≡ todo.old.items ++ spec.fresh_members parts.now self.old.simples of) }
    {
        match of {
            TypeId::AnyType => Ok(()),
            TypeId::Complex(_) => Ok(()),
            TypeId::Builtin(builtin) => put_builtin(&mut self.builtins, builtin),
            TypeId::Simple(id) => {
                let at = id.number() as usize;
                if !self.simples[at] {
                    push_all(members_of(parts, of), todo)?;
                }
                self.simples[at] = true;
                Ok(())
            }
        }
    }

    /// Finds the simple types within a type.
    ///
    /// # Errors
    ///
    /// `AllocError` is want of memory.
    pub fn of(alloc: Global, parts: &Components, base: TypeId) -> Result<Within, AllocError>
        requires ranked { IsRanked parts.now }
        requires there { IsType parts.now base }
        ensures within { IfOk result (spec.AreWithin parts.now) }
        ensures base { IfOk result (λ within. within.base ≡ base) }
    {
        let mut within = Within::nothing(alloc, parts, base)?;
        let mut todo = Vec::new(alloc);
        todo.push(within.base)?;
        while let Some(of) = todo.pop() {
            within.spread(parts, of, &mut todo)?;
        }
        Ok(within)
    }
}
