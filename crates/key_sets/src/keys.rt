//! Sets of keys that are copied.

ghost use Rattle.std.specs.Prelude.{◌≡◌, ◌+◌, ◌<◌, [], length, position, not, if◌then◌else◌, IfSome, IfOk, OnOk, OnErr};
ghost use Rattle.std.specs.List.{list_any};
ghost use Rattle.key_sets.specs.Keys.{with_key};

use std::alloc::{AllocError, Global};
use std::collections::HashMap;
use std::hash::Hash;
use std::marker::Model;

/// Keys, each once, that are numbered in the order of coming. Contracts see the list of them.
pub struct KeySet<T: Copy + Eq + Hash> {
    keys: Vec<T>,
    places: HashMap<T, usize>,
}

impl<T: Copy + Eq + Hash> Model for KeySet<T> {
    ghost use Rattle.std.specs.Prelude.{List};
    ghost use Rattle.std.specs.Coded.{coded_list};
    ghost use Rattle.key_sets.specs.Keys.{ArePlaces};

    ghost Value = { List T };

    ghost coded = { coded_list T.code };

    ghost view = { λ s. s.keys.items };

    ghost invariant = { λ s. ArePlaces T.eq s.keys.items s.places.entries };
}

impl<T: Copy + Eq + Hash> KeySet<T> {
    /// No keys.
    pub fn new(alloc: Global) -> Self
        ensures empty { result ≡ [] }
    {
        KeySet {
            keys: Vec::new(alloc),
            places: HashMap::new(alloc),
        }
    }

    /// How many keys there are.
    pub fn len(&self) -> usize
        ensures len { result ≡ length self.now }
    {
        self.keys.len()
    }

    /// The keys, in the order of their numbers.
    pub fn as_slice(&self) -> &[T]
        ensures keys { result.now ≡ self.now }
    {
        self.keys.as_slice()
    }

    /// The number of a key; `None` where it is not there.
    pub fn get_index_of(&self, key: &T) -> Option<usize>
        ensures index { result ≡ position (T.eq key.now) self.now }
        ensures within { IfSome result (λ n. n < length self.now) }
    {
        self.places.get(key).copied()
    }

    /// Puts a key in, which has the next number where it was not there, and says whether it is new.
    pub fn insert(&mut self, key: T) -> Result<bool, AllocError>
        ensures added { IfOk result (λ added. added ≡ not (list_any (T.eq key) self.old)) }
        ensures keys { OnOk result (self.new ≡ with_key T.eq self.old key) }
        ensures len { IfOk result (λ added. length self.new ≡ length self.old + (if added then 1 else 0)) }
        ensures err { OnErr result (self.new ≡ self.old) }
    {
        if let Some(_) = self.get_index_of(&key) {
            return Ok(false);
        }
        let place = self.keys.len();
        self.keys.push(key)?;
        match self.places.insert(key, place) {
            Ok(_) => Ok(true),
            Err(_) => {
                self.keys.pop();
                Err(AllocError)
            }
        }
    }
}

// By hand, so that it is proved here alone, and not in each crate that lets a set go.
impl<T: Copy + Eq + Hash> Drop for KeySet<T> {
    fn drop(self) {
        let Self { keys, places } = self;
        drop(keys);
        drop(places);
    }
}
