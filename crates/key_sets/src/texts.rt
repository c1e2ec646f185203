//! Sets of texts.

ghost use Rattle.std.specs.Prelude.{◌≡◌, ◌+◌, ◌<◌, [], Some, length, position, not, bytes_eq, slice_get, if◌then◌else◌, IfSome, IfOk, OnOk, OnErr};
ghost use Rattle.std.specs.List.{list_any};
ghost use Rattle.key_sets.specs.Keys.{with_key};

use std::alloc::{AllocError, Global};
use std::collections::HashMap;
use std::marker::Model;
use std::rc::RcStr;

/// Texts, each once, that are numbered in the order of coming. Contracts see the list of their bytes in UTF-8.
pub struct TextSet {
    texts: Vec<RcStr>,
    places: HashMap<RcStr, usize>,
}

impl Model for TextSet {
    ghost use Rattle.std.specs.Prelude.{ℕ, List, map};
    ghost use Rattle.std.specs.Rc.{rc_str_bytes};
    ghost use Rattle.key_sets.specs.Keys.{AreTextPlaces};

    ghost Value = { List (List ℕ) };

    ghost view = { λ s. map rc_str_bytes s.texts.items };

    ghost invariant = { λ s. AreTextPlaces rc_str_bytes (map rc_str_bytes s.texts.items) s.places.entries };
}

impl TextSet {
    /// No texts.
    pub fn new(alloc: Global) -> Self
        ensures empty { result ≡ [] }
    {
        TextSet {
            texts: Vec::new(alloc),
            places: HashMap::new(alloc),
        }
    }

    /// How many texts there are.
    pub fn len(&self) -> usize
        ensures len { result ≡ length self.now }
    {
        self.texts.len()
    }

    /// The text of this number.
    pub fn get(&self, number: usize) -> &str
        requires { number < length self.now }
        ensures { slice_get self.now number ≡ Some result.now }
    {
        self.texts[number].as_str()
    }

    /// The number of a text; `None` where it is not there.
    pub fn get_index_of(&self, text: &str) -> Option<usize>
        ensures index { result ≡ position (bytes_eq text.now) self.now }
        ensures within { IfSome result (λ n. n < length self.now) }
    {
        self.places.get(text).copied()
    }

    /// Puts a text in, which has the next number where it was not there, and says whether it is new.
    pub fn insert(&mut self, text: &str) -> Result<bool, AllocError>
        ensures added { IfOk result (λ added. added ≡ not (list_any (bytes_eq text.now) self.old)) }
        ensures keys { OnOk result (self.new ≡ with_key bytes_eq self.old text.now) }
        ensures len { IfOk result (λ added. length self.new ≡ length self.old + (if added then 1 else 0)) }
        ensures err { OnErr result (self.new ≡ self.old) }
    {
        if let Some(_) = self.get_index_of(text) {
            return Ok(false);
        }
        let place = self.texts.len();
        let key = RcStr::from_str(*self.texts.allocator(), text)?;
        self.texts.push(key.clone()?)?;
        match self.places.insert(key, place) {
            Ok(_) => Ok(true),
            Err(_) => {
                self.texts.pop();
                Err(AllocError)
            }
        }
    }
}

// By hand, so that it is proved here alone, and not in each crate that lets a set go.
impl Drop for TextSet {
    fn drop(self) {
        let Self { texts, places } = self;
        drop(texts);
        drop(places);
    }
}
