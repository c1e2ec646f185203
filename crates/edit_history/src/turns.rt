ghost use Rattle.std.specs.Prelude.{◌≡◌, ℕ, ◌+◌, ◌≤◌, List, [], ◌∷◌, ◌++◌, IfOk, OnOk};
ghost use Rattle.edit_history.specs.Turns.{Turn, turn, stale};
ghost use Rattle.edit_history.specs.Table.{StandFor, AreUpTo, IsTouched, latest_by_others};

use crate::Touched;
use crate::touch::{Key, Touch};
use indexmap::IndexMap;
use std::alloc::{AllocError, Global};
use std::marker::Model;

/// Who touched what last. Contracts see what is kept of each thing that was touched, and how many more things fit without taking
/// memory, and say of which log of turns that is.
#[derive(Drop)]
pub struct Turns {
    touches: IndexMap<Key, Touch>,
}

impl Model for Turns {
    ghost use Rattle.indexmap.specs.IndexMap.{spare};
    ghost use Rattle.edit_history.specs.Table.{Table};

    ghost Value = { Table };

    ghost view = { λ turns. record { touches = turns.touches.entries; spare = spare turns.touches } };
}

impl Turns {
    /// Of no turns.
    pub fn new(alloc: Global) -> Result<Self, AllocError>
        ensures log { IfOk result (λ turns. StandFor turns.touches []) }
        ensures later { IfOk result (λ turns. (revision : ℕ) → AreUpTo turns.touches revision) }
    {
        Ok(Turns {
            touches: IndexMap::new(alloc),
        })
    }

    /// The revision of the latest turn after `seen` by another author that touched one of the keys. `None` where there is none, so
    /// that what the author saw of them at `seen` is what is there now, but for turns of its own.
    pub fn stale(&self, author: u32, seen: u64, keys: &Touched) -> Option<u64>
        ensures { (log : List Turn) → StandFor self.now.touches log → result ≡ stale log author seen keys.now }
    {
        let of_node = self.by_others(author, keys.node.map(Key::Node));
        let of_list = self.by_others(author, keys.list.map(Key::List));
        let latest = of_node.max(of_list)?;
        (seen < latest).then_some(latest)
    }

    /// Makes room for what one turn can touch.
    pub fn reserve(&mut self) -> Result<(), AllocError>
        ensures kept { self.new.touches ≡ self.old.touches }
        ensures room { OnOk result (2 ≤ self.new.spare) }
    {
        self.touches.reserve(2)
    }

    /// Notes a turn, after all that were noted. It takes no memory.
    pub fn note(&mut self, author: u32, revision: u64, keys: &Touched)
        requires room { 2 ≤ self.old.spare }
        requires later { AreUpTo self.old.touches revision }
        ensures log { (log : List Turn) → StandFor self.old.touches log → StandFor self.new.touches (log ++ turn revision author keys.now ∷ []) }
        ensures later { (later : ℕ) → revision ≤ later → AreUpTo self.new.touches later }
    {
        if let Some(node) = keys.node {
            self.touch(Key::Node(node), author, revision);
        }
        if let Some(list) = keys.list {
            self.touch(Key::List(list), author, revision);
        }
    }

    // The revision of the latest turn by another author that touched the thing.
    fn by_others(&self, author: u32, key: Option<Key>) -> Option<u64>
        ensures { result ≡ latest_by_others self.now.touches author key }
    {
        let touch = self.touches.get(&key?)?;
        if touch.author == author {
            touch.other
        } else {
            Some(touch.revision)
        }
    }

    // Notes that a turn touched one thing.
    fn touch(&mut self, key: Key, author: u32, revision: u64)
        requires { 1 ≤ self.old.spare }
        ensures touches { IsTouched self.old.touches self.new.touches key author revision }
        ensures room { self.old.spare ≤ self.new.spare + 1 }
    {
        if let Some(touch) = self.touches.get_mut(&key) {
            touch.again(author, revision);
            return;
        }
        let touch = Touch {
            revision,
            author,
            other: None,
        };
        self.touches.insert(key, touch).ok();
    }
}
