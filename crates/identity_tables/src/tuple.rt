ghost use Rattle.std.specs.Prelude.{◌≡◌, ◌==◌, ◌∷◌, ◌++◌, [], length, slice_get, OnOk, OnErr};
ghost use Rattle.std.specs.Option.{option_copied};

use simple_values::{Atom, Key};
use smallvec::SmallVec;
use std::alloc::{AllocError, Global};
use std::default::MadeWith;
use std::hash::{Hash, Hasher};
use std::marker::Model;

// A key in its place of a tuple. Contracts see the key.
#[derive(Drop)]
struct Field {
    key: Key,
}

impl Model for Field {
    ghost use Rattle.simple_values.specs.declared.key.Key.{Key};

    ghost Value = { Key };

    ghost view = { λ field. field.key };
}

// What stands in an inline place that holds no key.
impl MadeWith<Global> for Field {
    fn made_with(_alloc: Global) -> Self {
        Field {
            key: Key::Atom(Atom::Boolean(false)),
        }
    }
}

impl Clone for Field {
    ghost is_clone = { λ field made. made ≡ field };

    fn clone(&self) -> Result<Self, AllocError> {
        Ok(Field {
            key: self.key.clone()?,
        })
    }
}

impl PartialEq for Field {
    ghost use Rattle.simple_values.specs.contracts.key.KeyPartialEq.TheImpl.Laws.{laws-law};

    ghost eq = { ⟦<Key as PartialEq>⟧.eq };

    ghost laws = { laws-law };

    fn eq(&self, other: &Field) -> bool {
        self.key == other.key
    }
}

impl Eq for Field {
    ghost use Rattle.simple_values.specs.contracts.key.KeyEq.TheImpl.Laws.{laws-law};

    ghost laws = { laws-law };
}

impl Hash for Field {
    ghost use Rattle.simple_values.specs.contracts.key.KeyHash.TheImpl.Laws.{respects_eq-law};

    ghost hash_input = { ⟦<Key as Hash>⟧.hash_input };

    ghost respects_eq = { respects_eq-law };

    fn hash<H: Hasher>(&self, state: &mut H) {
        self.key.hash(state);
    }
}

/// The keys of a target's fields, in the order of the fields (Structures 3.11.4). Contracts see the list of them.
///
/// Tuples of one and two keys take no memory of their own.
pub struct Tuple {
    fields: SmallVec<Field, 2>,
}

impl Model for Tuple {
    ghost use Rattle.std.specs.Prelude.{List};
    ghost use Rattle.simple_values.specs.declared.key.Key.{Key};

    ghost Value = { List Key };

    ghost view = { λ tuple. tuple.fields.items };
}

impl Tuple {
    /// No keys.
    pub fn new(alloc: Global) -> Self
        ensures { result ≡ [] }
    {
        Tuple {
            fields: SmallVec::new(alloc),
        }
    }

    /// Puts a key at the end. Where memory is wanting, the tuple stays.
    pub fn push(&mut self, key: Key) -> Result<(), AllocError>
        ensures ok { OnOk result (self.new ≡ self.old ++ key ∷ []) }
        ensures err { OnErr result (self.new ≡ self.old) }
    {
        self.fields.push(Field { key })?;
        Ok(())
    }

    /// The number of keys.
    pub fn len(&self) -> usize
        ensures { result ≡ length self.now }
    {
        self.fields.len()
    }

    /// Whether there are no keys.
    pub fn is_empty(&self) -> bool
        ensures { result ≡ (length self.now == 0) }
    {
        self.fields.is_empty()
    }

    /// The key of a field, counted from 0; `None` past the last.
    pub fn get(&self, field: usize) -> Option<&Key>
        ensures { option_copied result ≡ slice_get self.now field }
    {
        let field = self.fields.as_slice().get(field)?;
        Some(&field.key)
    }
}

/// A clone has the same keys.
impl Clone for Tuple {
    ghost is_clone = { λ tuple made. made ≡ tuple };

    fn clone(&self) -> Result<Self, AllocError> {
        Ok(Tuple {
            fields: self.fields.clone()?,
        })
    }
}

impl PartialEq for Tuple {
    ghost use Rattle.std.specs.Cmp.Lexicographic.{lists_per};
    ghost use Rattle.identity_tables.specs.Tuple.{same_tuple};
    ghost use Rattle.simple_values.specs.contracts.key.KeyPartialEq.TheImpl.Laws.{laws-law};

    ghost eq = { same_tuple };

    ghost laws = { lists_per laws-law };

    fn eq(&self, other: &Tuple) -> bool {
        self.fields == other.fields
    }
}

impl Eq for Tuple {
    ghost use Rattle.std.specs.Cmp.Lexicographic.{lists_equiv};
    ghost use Rattle.simple_values.specs.contracts.key.KeyEq.TheImpl.Laws.{laws-law};

    ghost laws = { lists_equiv laws-law };
}

impl Hash for Tuple {
    ghost use Rattle.std.specs.Hash as fed;
    ghost use Rattle.std.specs.Hash.{items_Alike};
    ghost use Rattle.simple_values.specs.contracts.key.KeyHash.TheImpl.Laws.{respects_eq-law};

    ghost hash_input = { fed.slice (⟦<Key as Hash>⟧.hash_input) };

    ghost respects_eq = { (items_Alike (record { fed = respects_eq-law })).fed };

    fn hash<H: Hasher>(&self, state: &mut H) {
        self.fields.hash(state);
    }
}

impl Drop for Tuple {
    fn drop(self) {
        let Tuple { fields } = self;
        drop(fields);
    }
}
