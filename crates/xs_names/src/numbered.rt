ghost use Rattle.std.specs.Prelude.{◌≡◌, ◌<◌, ◌≤◌, ◌^◌, [], Some, length, slice_get, bytes_eq, IfOk, OnOk, OnErr};
ghost use Rattle.xs_names.specs.Numbering.{number_of, with_item, same_pair, HasNoRepeats};

use key_sets::{KeySet, TextSet};
use std::alloc::{AllocError, Global};
use std::marker::Model;

/// Texts that are numbered in the order of coming. Contracts see the list of them, without repeats.
#[derive(Drop)]
pub(crate) struct NumberedTexts {
    inner: TextSet,
}

impl Model for NumberedTexts {
    ghost use Rattle.std.specs.Prelude.{ℕ, ◌≤◌, ◌^◌, List, length};

    ghost Value = { List (List ℕ) };

    ghost view = { λ s. s.inner };

    ghost invariant = { λ s. length s.inner ≤ 2 ^ 32 };
}

impl NumberedTexts {
    /// No texts.
    pub(crate) fn new(alloc: Global) -> Self
        ensures { result ≡ [] }
    {
        NumberedTexts {
            inner: TextSet::new(alloc),
        }
    }

    /// The number of a text that is there.
    pub(crate) fn find(&self, text: &str) -> Option<u32>
        ensures { result ≡ number_of bytes_eq self.now text.now }
    {
        match self.inner.get_index_of(text) {
            None => None,
            Some(index) => Some(index as u32),
        }
    }

    /// The number of a text, which is the next number where the text was not there.
    pub(crate) fn insert(&mut self, text: &str) -> Result<u32, AllocError>
        ensures number { IfOk result (λ n. number_of bytes_eq self.new text.now ≡ Some n) }
        ensures list { OnOk result (self.new ≡ with_item bytes_eq self.old text.now) }
        ensures err { OnErr result (self.new ≡ self.old) }
    {
        if let Some(number) = self.find(text) {
            return Ok(number);
        }
        let next = self.inner.len();
        if next == 1 << 32 {
            return Err(AllocError);
        }
        self.inner.insert(text)?;
        Ok(next as u32)
    }

    /// The text of a number.
    pub(crate) fn get(&self, number: u32) -> &str
        requires { number < length self.now }
        ensures { slice_get self.now number ≡ Some result.now }
    {
        self.inner.get(number as usize)
    }
}

/// A name by numbers: its namespace, and its local part.
#[derive(Clone, Copy, PartialEq, Eq, Hash)]
pub(crate) struct Pair {
    pub(crate) space: u32,
    pub(crate) local: u32,
}

/// Pairs that are numbered in the order of coming. Contracts see the list of them, without repeats.
#[derive(Drop)]
pub(crate) struct NumberedPairs {
    inner: KeySet<Pair>,
}

impl Model for NumberedPairs {
    ghost use Rattle.std.specs.Prelude.{ℕ, ◌≤◌, ◌^◌, List, map, length};
    ghost use Rattle.xs_names.specs.Pairs.{numbers};

    ghost Value = { List (ℕ × ℕ) };

    ghost view = { λ s. map numbers s.inner };

    ghost invariant = { λ s. length s.inner ≤ 2 ^ 32 };
}

impl NumberedPairs {
    /// No pairs.
    pub(crate) fn new(alloc: Global) -> Self
        ensures { result ≡ [] }
    {
        NumberedPairs {
            inner: KeySet::new(alloc),
        }
    }

    /// The number of a pair that is there.
    pub(crate) fn find(&self, pair: Pair) -> Option<u32>
        ensures { result ≡ number_of same_pair self.now (pair.space, pair.local) }
    {
        match self.inner.get_index_of(&pair) {
            None => None,
            Some(index) => Some(index as u32),
        }
    }

    /// The number of a pair, which is the next number where the pair was not there.
    pub(crate) fn insert(&mut self, pair: Pair) -> Result<u32, AllocError>
        ensures number { IfOk result (λ n. number_of same_pair self.new (pair.space, pair.local) ≡ Some n) }
        ensures list { OnOk result (self.new ≡ with_item same_pair self.old (pair.space, pair.local)) }
        ensures err { OnErr result (self.new ≡ self.old) }
    {
        if let Some(number) = self.find(pair) {
            return Ok(number);
        }
        let next = self.inner.len();
        if next == 1 << 32 {
            return Err(AllocError);
        }
        self.inner.insert(pair)?;
        Ok(next as u32)
    }

    /// The pair of a number.
    pub(crate) fn get(&self, number: u32) -> Pair
        requires { number < length self.now }
        ensures { slice_get self.now number ≡ Some (result.space, result.local) }
    {
        self.inner.as_slice()[number as usize]
    }
}
