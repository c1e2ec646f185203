ghost use Rattle.std.specs.Prelude.{◌≡◌, ◌<◌, ◌^◌, Some, length, slice_get, slice_index_or, IfOk, OnOk, OnErr};
ghost use Rattle.std.specs.Borrow.{sem};
ghost use Rattle.xs_components.specs.Table.{no_parts, with_part, with_rank, with_other};

use std::alloc::{AllocError, Global};
use std::marker::Model;

// Parts of one kind by number, counted from 0 in the order of adding, each with a rank, which is 0 at first.
#[derive(Drop)]
pub(crate) struct Table<T: Drop> {
    parts: Vec<T>,
    ranks: Vec<u32>,
}

impl<T: Drop> Model for Table<T> {
    ghost use Rattle.std.specs.Prelude.{length};
    ghost use Rattle.xs_components.specs.Table.{TableOf, IsKept};

    ghost Value = { TableOf T };

    ghost view = { λ t. record { parts = t.parts.items; ranks = t.ranks.items } };

    ghost invariant = { λ t. IsKept (length t.parts.items) (length t.ranks.items) };
}

impl<T: Drop> Table<T> {
    ghost use Rattle.xs_components.specs.Lends.{lends_part};

    // No parts.
    pub(crate) fn new(alloc: Global) -> Self
        ensures { result ≡ no_parts }
    {
        Table {
            parts: Vec::new(alloc),
            ranks: Vec::new(alloc),
        }
    }

    // Adds a part, of rank 0, and answers its number.
    pub(crate) fn add(&mut self, part: T) -> Result<u32, AllocError>
        ensures number { IfOk result (λ n. n ≡ length self.old.parts) }
        ensures table { OnOk result (self.new ≡ with_part self.old part) }
        ensures err { OnErr result (self.new ≡ self.old) }
    {
        let number = self.parts.len();
        if number == u32::MAX as usize {
            return Err(AllocError);
        }
        self.ranks.push(0)?;
        if self.parts.push(part).is_err() {
            self.ranks.pop();
            return Err(AllocError);
        }
        Ok(number as u32)
    }

    // The number of parts.
    pub(crate) fn len(&self) -> usize
        ensures len { result ≡ length self.now.parts }
        ensures few { length self.now.parts < 2 ^ 32 }
    {
        self.parts.len()
    }

    // All parts, in the order of adding.
    pub(crate) fn as_slice(&self) -> &[T]
        ensures parts { result.now ≡ self.now.parts }
        ensures few { length self.now.parts < 2 ^ 32 }
    {
        self.parts.as_slice()
    }

    // The ranks of all parts, in the order of adding.
    pub(crate) fn ranks(&self) -> &[u32]
        ensures ranks { result.now ≡ self.now.ranks }
        ensures alike { length self.now.ranks ≡ length self.now.parts }
        ensures few { length self.now.parts < 2 ^ 32 }
    {
        self.ranks.as_slice()
    }

    // The part of a number.
    pub(crate) fn part(&self, number: u32) -> &T
        requires { number < length self.now.parts }
        ensures part { slice_get self.now.parts number ≡ Some result.now }
    {
        &self.parts[number as usize]
    }

    // The part of a number for writing.
    pub(crate) fn part_mut(&mut self, number: u32) -> &mut T
        requires { number < length self.old.parts }
        ensures* writes_back { sem 𝓛 (lends_part T.row self.entry number result) }
        ensures part { slice_get self.old.parts number ≡ Some result.now }
    {
        &mut self.parts[number as usize]
    }

    // Writes a rank, and nothing else.
    pub(crate) fn set_rank(&mut self, number: u32, rank: u32)
        requires { number < length self.old.parts }
        ensures { self.new ≡ with_rank self.old number rank }
    {
        self.ranks[number as usize] = rank;
    }

    // Puts a part in another's place, and changes nothing else.
    pub(crate) fn set(&mut self, number: u32, part: T)
        requires { number < length self.old.parts }
        ensures { self.new ≡ with_other self.old number part }
    {
        self.parts[number as usize] = part;
    }
}
