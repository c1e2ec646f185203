//! The numbers of lists, and the top of each list's tree.

ghost use Rattle.std.specs.Prelude.{◌≡◌, ◌≢◌, ℕ, Option, Some, None, [], IfOk, OnErr};

use std::alloc::{AllocError, Global};
use std::marker::Model;

/// What a number stands for.
#[derive(Clone, Copy)]
pub enum Slot {
    /// A list, with the top of its tree, or none where it is empty.
    Taken(Option<u32>),
    /// No list. It names the number that came free before it.
    Free(Option<u32>),
}

/// The lists by number. A number that came free is given out again.
#[derive(Drop)]
pub struct Tops {
    slots: Vec<Slot>,
    /// The number that came free last.
    free: Option<u32>,
}

impl Model for Tops {
    ghost use Rattle.std.specs.Prelude.{List, Option, ℕ, map};

    ghost Value = { List (Option (Option ℕ)) };

    ghost use Rattle.child_trees.specs.Tops.{top_of, AreLinked};

    ghost view = { λ s. map top_of s.slots.items };

    ghost invariant = { λ s. AreLinked s.slots.items s.free };
}

impl Tops {
    ghost use Rattle.child_trees.specs.Tops.{top_at, IsTaken, Writes};

    /// No lists.
    pub fn new(alloc: Global) -> Tops
        ensures { result ≡ [] }
    {
        Tops {
            slots: Vec::new(alloc),
            free: None,
        }
    }

    /// An empty list, and its number.
    pub fn add(&mut self) -> Result<u32, AllocError>
        ensures fresh { IfOk result (λ q. top_at self.old q ≡ None) }
        ensures ok { IfOk result (λ q. Writes self.old self.new q (Some None)) }
        ensures err { OnErr result (self.new ≡ self.old) }
    {
        match self.free {
            Some(number) => {
                self.free = next_free(self.slots[number as usize]);
                self.slots[number as usize] = Slot::Taken(None);
                Ok(number)
            }
            None => self.grow(),
        }
    }

    /// The top of a list's tree.
    pub fn top(&self, number: u32) -> Option<u32>
        requires { IsTaken self.now number }
        ensures { top_at self.now number ≡ Some result }
    {
        match self.slots[number as usize] {
            Slot::Taken(top) => top,
            Slot::Free(_) => unreachable!(),
        }
    }

    /// Writes the top of a list's tree.
    pub fn set(&mut self, number: u32, top: Option<u32>)
        requires { IsTaken self.old number }
        ensures { Writes self.old self.new number (Some top) }
    {
        self.slots[number as usize] = Slot::Taken(top);
    }

    /// Gives a list's number back.
    pub fn give(&mut self, number: u32)
        requires { IsTaken self.old number }
        ensures { Writes self.old self.new number None }
    {
        self.slots[number as usize] = Slot::Free(self.free);
        self.free = Some(number);
    }

    /// An empty list of a number that was never given out.
    fn grow(&mut self) -> Result<u32, AllocError>
        ensures fresh { IfOk result (λ q. top_at self.old q ≡ None) }
        ensures ok { IfOk result (λ q. Writes self.old self.new q (Some None)) }
        ensures err { OnErr result (self.new ≡ self.old) }
    {
        if self.slots.len() >= u32::MAX as usize {
            return Err(AllocError);
        }
        let number = self.slots.len() as u32;
        self.slots.push(Slot::Taken(None))?;
        Ok(number)
    }
}

/// The number that a free one names.
fn next_free(slot: Slot) -> Option<u32>
    requires { (next : Option ℕ) × (slot ≡ Slot.Free next) }
    ensures { slot ≡ Slot.Free result }
{
    match slot {
        Slot::Free(next) => next,
        Slot::Taken(_) => unreachable!(),
    }
}
