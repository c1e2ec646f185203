ghost use Rattle.std.specs.Prelude.{◌≡◌, ℕ, ◌<◌, ◌≤◌, ◌==◌, ◌↔◌, false, [], length, nat_lt, IsTrue, OnOk, OnErr};
ghost use Rattle.identity_tables.specs.Counts.{count_of, AreCounts, IsOneMore, HasRepeated, HasSeveral};

use std::alloc::{AllocError, Global};
use std::collections::HashMap;
use std::hash::Hash;
use std::marker::Model;

// How often each key was added and not dropped, at most 4,294,967,295 in all.
#[derive(Drop)]
pub(crate) struct Counts<K: Eq + Hash + Drop> {
    counts: HashMap<K, u32>,
    total: u32,
}

impl<K: Eq + Hash + Drop> Model for Counts<K> {
    ghost use Rattle.std.specs.Prelude.{ℕ, List};
    ghost use Rattle.identity_tables.specs.Counts.{IsTallied};

    ghost Value = { List (K × ℕ) };

    ghost view = { λ c. c.counts.entries };

    ghost invariant = { λ c. IsTallied K.eq c.counts.entries c.total };
}

// The count of a key in a map of counts.
fn count_in<K: Eq + Hash>(counts: &HashMap<K, u32>, key: &K) -> u32
    ensures { result ≡ count_of K.eq counts.now.entries key.now }
{
    counts.get(key).copied().unwrap_or(0)
}

impl<K: Eq + Hash + Drop> Counts<K> {
    // Nothing.
    pub(crate) fn new(alloc: Global) -> Self
        ensures none { result ≡ [] }
        ensures sound { AreCounts K.eq result }
    {
        Counts {
            counts: HashMap::new(alloc),
            total: 0,
        }
    }

    // The count of a key.
    pub(crate) fn count(&self, key: &K) -> u32
        ensures { result ≡ count_of K.eq self.now key.now }
    {
        count_in(&self.counts, key)
    }

    // Adds a key once more.
    pub(crate) fn add(&mut self, key: K) -> Result<(), AllocError>
        ensures ok { OnOk result (IsOneMore K.eq self.old self.new key) }
        ensures err { OnErr result (self.new ≡ self.old) }
        ensures sound { OnOk result (AreCounts K.eq self.new) }
    {
        if self.total == u32::MAX {
            return Err(AllocError);
        }
        let before = count_in(&self.counts, &key);
        self.counts.insert(key, before + 1)?;
        self.total += 1;
        Ok(())
    }

    // Drops a key once. It takes no memory.
    pub(crate) fn drop_one(&mut self, key: &K)
        requires { 1 ≤ count_of K.eq self.old key.now }
        ensures one_less { IsOneMore K.eq self.new self.old key.now }
        ensures sound { AreCounts K.eq self.new }
    {
        self.total -= 1;
        if count_in(&self.counts, key) == 1 {
            self.counts.remove(key);
        } else if let Some(count) = self.counts.get_mut(key) {
            *count -= 1;
        }
    }

    // Whether no key is there.
    pub(crate) fn is_empty(&self) -> bool
        ensures none { result ≡ (length self.now == 0) }
        ensures some { result ≡ false → (key : K) × (1 ≤ count_of K.eq self.now key) }
    {
        self.total == 0
    }

    // Whether some key is there more than once.
    pub(crate) fn has_repeated(&self) -> bool
        ensures { IsTrue result ↔ HasRepeated K.eq self.now }
    {
        self.counts.len() < self.total as usize
    }

    // Whether two different keys are there.
    pub(crate) fn has_several(&self) -> bool
        ensures several { IsTrue result ↔ HasSeveral K.eq self.now }
        ensures length { result ≡ nat_lt 1 (length self.now) }
    {
        1 < self.counts.len()
    }
}
