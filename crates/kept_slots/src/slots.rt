//! The table.

ghost use Rattle.std.specs.Prelude.{◌≡◌, ◌<◌, [], length, Some, None, OnOk};
ghost use Rattle.std.specs.Option.{option_copied, option_map};
ghost use Rattle.kept_slots.specs.Slots.{at, Writes, Keeps};

use std::alloc::{AllocError, Global};
use std::marker::Model;
use std::mem;

/// What is kept under numbers, one value at most under each. Contracts see the list of what is kept under the numbers from 0, with
/// none where nothing is; past its end nothing is kept.
#[derive(Drop)]
pub struct Slots<T> {
    slots: Vec<Option<Box<T>>>,
}

impl<T> Model for Slots<T> {
    ghost use Rattle.std.specs.Prelude.{List, Option, map};
    ghost use Rattle.std.specs.Option.{option_map};
    ghost use Rattle.std.specs.Coded.{coded_list, coded_option};

    ghost Value = { List (Option T) };

    ghost coded = { coded_list (coded_option T.code) };

    ghost view = { λ s. map (option_map (λ kept. kept.value)) s.slots.items };
}

impl<T> Slots<T> {
    /// Nothing is kept.
    pub fn new(alloc: Global) -> Slots<T>
        ensures { result ≡ [] }
    {
        Slots {
            slots: Vec::new(alloc),
        }
    }

    /// What is kept under a number.
    pub fn get(&self, number: u32) -> Option<&T>
        ensures { option_copied result ≡ at self.now number }
    {
        match self.slots.get(number as usize) {
            Some(Some(kept)) => Some(&**kept),
            _ => None,
        }
    }
}

impl<T: Drop> Slots<T> {
    /// Makes a place for a number, where there is none. All that is kept stays, also where memory is wanting.
    pub fn reach(&mut self, number: u32) -> Result<(), AllocError>
        ensures within { OnOk result (number < length self.new) }
        ensures same { Keeps self.old self.new }
    {
        while self.slots.len() <= number as usize {
            self.slots.push(None)?;
        }
        Ok(())
    }

    /// Keeps a value under a number that has a place, and answers what was kept there.
    pub fn put(&mut self, number: u32, kept: Box<T>) -> Option<Box<T>>
        requires { number < length self.old }
        ensures was { option_map (λ was. was.value) result ≡ at self.old number }
        ensures change { Writes self.old self.new number (Some kept.value) }
        ensures size { length self.new ≡ length self.old }
    {
        mem::replace(&mut self.slots[number as usize], Some(kept))
    }

    /// Takes out what is kept under a number. A number keeps its place.
    pub fn take(&mut self, number: u32) -> Option<Box<T>>
        ensures was { option_map (λ was. was.value) result ≡ at self.old number }
        ensures change { Writes self.old self.new number None }
        ensures size { length self.new ≡ length self.old }
    {
        if number as usize >= self.slots.len() {
            return None;
        }
        mem::replace(&mut self.slots[number as usize], None)
    }
}
