//! Keys of values.
ghost use Rattle.std.specs.Prelude.{◌≡◌, ◌↔◌, ◌++◌, ◌∷◌, [], IsTrue, OnOk, OnErr};

use crate::Atom;
use std::alloc::{AllocError, Global};
use std::hash::{Hash, Hasher};
use std::marker::Model;
use xs_lists::Listed;

/// What a value is, whatever type accepted it. Two values are the same exactly where their keys are equal, and a key may
/// be one of a hashed map.
#[derive(PartialEq, Eq, Hash)]
pub enum Key {
    /// That of an atom.
    Atom(Atom),
    /// That of a list.
    List(KeyItems),
}

/// A clone is the same key.
impl Clone for Key {
    ghost is_clone = { λ key made. made ≡ key };

    fn clone(&self) -> Result<Self, AllocError> {
        match self {
            Key::Atom(atom) => Ok(Key::Atom(atom.clone()?)),
            Key::List(items) => Ok(Key::List(items.clone()?)),
        }
    }
}

/// Whether two keys are one, which is what `==` answers.
pub fn same_key(a: &Key, b: &Key) -> bool
    ensures compared { result ≡ ⟦<Key as PartialEq>⟧.eq a.now b.now }
    ensures equal { IsTrue result ↔ (a.now ≡ b.now) }
{
    a == b
}

/// The items of a list's key.
pub struct KeyItems {
    inner: Listed<Atom>,
}

impl Model for KeyItems {
    ghost use Rattle.std.specs.Prelude.{List};
    ghost use Rattle.simple_values.specs.declared.atom.Atom.{Atom};

    ghost Value = { List Atom };

    ghost view = { λ s. s.inner };
}

impl KeyItems {
    /// No items.
    pub fn new(alloc: Global) -> Self
        ensures { result ≡ [] }
    {
        KeyItems {
            inner: Listed::new(alloc),
        }
    }

    /// Puts an item at the end. Where memory is wanting, the list stays.
    pub fn push(&mut self, item: Atom) -> Result<(), AllocError>
        ensures ok { OnOk result (self.new ≡ self.old ++ item ∷ []) }
        ensures err { OnErr result (self.new ≡ self.old) }
    {
        self.inner.push(item)?;
        Ok(())
    }
}

/// A clone has the same items.
impl Clone for KeyItems {
    ghost is_clone = { λ items made. made ≡ items };

    fn clone(&self) -> Result<Self, AllocError> {
        Ok(KeyItems {
            inner: self.inner.clone()?,
        })
    }
}

impl PartialEq for KeyItems {
    ghost use Rattle.std.specs.Cmp.Lexicographic.{pointwise, lists_per};
    ghost use Rattle.simple_values.specs.contracts.atom.AtomPartialEq.TheImpl.Laws.{laws-law};

    ghost eq = { pointwise (⟦<Atom as PartialEq>⟧.eq) };

    ghost laws = { lists_per laws-law };

    fn eq(&self, other: &KeyItems) -> bool {
        self.inner.as_slice() == other.inner.as_slice()
    }
}

impl Eq for KeyItems {
    ghost use Rattle.std.specs.Cmp.Lexicographic.{lists_equiv};
    ghost use Rattle.simple_values.specs.contracts.atom.AtomEq.TheImpl.Laws.{laws-law};

    ghost laws = { lists_equiv laws-law };
}

impl Hash for KeyItems {
    ghost use Rattle.std.specs.Hash as fed;
    ghost use Rattle.std.specs.Hash.{items_Alike};
    ghost use Rattle.simple_values.specs.contracts.atom.AtomHash.TheImpl.Laws.{respects_eq-law};

    ghost hash_input = { fed.slice (⟦<Atom as Hash>⟧.hash_input) };

    ghost respects_eq = { (items_Alike (record { fed = respects_eq-law })).fed };

    fn hash<H: Hasher>(&self, state: &mut H) {
        self.inner.as_slice().hash(state);
    }
}

impl Drop for Key {
    fn drop(self) {
        match self {
            Key::Atom(atom) => drop(atom),
            Key::List(list) => drop(list),
        }
    }
}

impl Drop for KeyItems {
    fn drop(self) {
        let KeyItems { inner } = self;
        drop(inner);
    }
}
