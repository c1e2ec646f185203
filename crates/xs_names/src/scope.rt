ghost use Rattle.std.specs.Prelude.{◌≡◌, ◌∷◌, ℕ, List, None, Some, map, find, reverse, bytes_eq, IfOk, OnOk, OnErr, MatchResult};
ghost use Rattle.std.specs.Option.{option_map, option_copied};
ghost use Rattle.xs_names.specs.Scope.{prefix_and_space, first_scope, binding_of, resolved};

use crate::{NsId, Text};
use std::alloc::{AllocError, Global};
use std::marker::Model;

/// The prefix has no binding.
#[derive(Clone, Copy)]
pub struct Unbound;

/// A prefix with the number of its namespace. The empty prefix is the default namespace; under the absent namespace it is
/// undeclared.
pub struct ScopeBinding {
    pub prefix: Text,
    pub ns: NsId,
}

// The last binding of the prefix.
fn latest_binding<'a>(bindings: &'a [ScopeBinding], prefix: &str) -> Option<&'a ScopeBinding>
    ensures { option_copied result ≡ find (λ b. bytes_eq b.prefix prefix.now) (reverse bindings.now) }
{
    bindings
        .iter()
        .rev()
        .find(|binding| binding.prefix.as_str() == prefix)
}

// The namespace that a prefix has outside of all elements.
fn first_binding(prefix: &str) -> Option<NsId>
    ensures { result ≡ binding_of first_scope prefix.now }
{
    if prefix == "xml" {
        Some(NsId::XML)
    } else {
        None
    }
}

impl ScopeBinding {
    /// The same binding once more. The characters of the prefix are shared.
    fn try_clone(&self) -> Result<Self, AllocError>
        ensures { IfOk result (λ copy. copy ≡ self.now) }
    {
        Ok(ScopeBinding {
            prefix: self.prefix.try_clone()?,
            ns: self.ns,
        })
    }
}

/// The prefixes in scope. Contracts see the bindings, each a prefix with the number of its namespace, the latest first.
///
/// The empty prefix stands for the default namespace.
pub struct Scope {
    /// The bindings behind that of the prefix `xml`, in the order of their coming.
    bindings: Vec<ScopeBinding>,
}

impl Model for Scope {
    ghost use Rattle.std.specs.Prelude.{List, ℕ, ◌++◌, map, reverse};
    ghost use Rattle.xs_names.specs.Scope.{first_scope, prefix_and_space};

    ghost Value = { List (List ℕ × ℕ) };

    ghost view = { λ s. reverse (map prefix_and_space s.bindings.items) ++ first_scope };
}

impl Scope {
    /// The scope outside of all elements, which binds the prefix `xml` alone.
    pub fn new(alloc: Global) -> Result<Self, AllocError>
        ensures { IfOk result (λ scope. scope ≡ first_scope) }
    {
        Ok(Scope {
            bindings: Vec::new(alloc),
        })
    }

    /// Binds a prefix, whose characters are shared, or the default namespace where the prefix is empty. Earlier bindings of it are hidden.
    pub fn bind(&mut self, prefix: &Text, ns: NsId) -> Result<(), AllocError>
        ensures ok { OnOk result (self.new ≡ (prefix.now, ns) ∷ self.old) }
        ensures err { OnErr result (self.new ≡ self.old) }
    {
        let prefix = prefix.try_clone()?;
        self.bindings.push(ScopeBinding { prefix, ns })?;
        Ok(())
    }

    /// The namespace of the latest binding of the prefix. Without a prefix it is the default namespace, else the absent one.
    pub fn resolve(&self, prefix: Option<&str>) -> Result<NsId, Unbound>
        ensures { MatchResult result
            (λ ns. resolved self.now (option_map (λ p. p.now) prefix.entry) ≡ Some ns)
            (λ _. resolved self.now (option_map (λ p. p.now) prefix.entry) ≡ None) }
    {
        match prefix {
            None => match self.binding("") {
                None => Ok(NsId::ABSENT),
                Some(ns) => Ok(ns),
            },
            Some(prefix) => match self.binding(prefix) {
                None => Err(Unbound),
                Some(ns) => Ok(ns),
            },
        }
    }

    // The latest binding of the prefix.
    fn binding(&self, prefix: &str) -> Option<NsId>
        ensures { result ≡ binding_of self.now prefix.now }
    {
        match latest_binding(&self.bindings, prefix) {
            None => first_binding(prefix),
            Some(latest) => Some(latest.ns),
        }
    }

    /// A copy with memory of its own.
    pub fn try_clone(&self) -> Result<Self, AllocError>
        ensures { IfOk result (λ scope. scope ≡ self.now) }
    {
        let alloc = *self.bindings.allocator();
        let held = self.bindings.as_slice();
        let mut bindings = Vec::with_capacity(alloc, held.len())?;
        for binding in held {
            bindings.push(binding.try_clone()?)?;
        }
        Ok(Scope { bindings })
    }

    /// The bindings in the order of their coming, that of the prefix `xml` the first.
    pub fn to_bindings(&self) -> Result<Vec<ScopeBinding>, AllocError>
        ensures { IfOk result (λ all. map prefix_and_space all.items ≡ reverse self.now) }
    {
        let alloc = *self.bindings.allocator();
        let held = self.bindings.as_slice();
        let mut all = Vec::new(alloc);
        all.push(ScopeBinding {
            prefix: Text::new(alloc, "xml")?,
            ns: NsId::XML,
        })?;
        for binding in held {
            all.push(binding.try_clone()?)?;
        }
        Ok(all)
    }
}

impl Drop for Scope {
    fn drop(self) {
        let Scope { bindings } = self;
        drop(bindings);
    }
}

impl Drop for ScopeBinding {
    fn drop(self) {
        let ScopeBinding { prefix, ns: _ } = self;
        drop(prefix);
    }
}
