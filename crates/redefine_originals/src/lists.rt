ghost use Rattle.std.specs.Prelude.{◌≡◌, ◌==◌, ◌++◌, ◌∷◌, [], ℕ, if◌then◌else◌, IfOk, OnOk};
ghost use Rattle.redefine_originals.specs.inside.Lists.{listed};

use std::alloc::{AllocError, Global};
use std::collections::HashMap;

/// Lists by numbers, of which most have none.
#[derive(Drop)]
pub struct NumberedLists<T: Drop> {
    alloc: Global,
    inner: HashMap<u32, Vec<T>>,
}

impl<T: Drop> NumberedLists<T> {
    /// No lists.
    pub fn new(alloc: Global) -> Self
        ensures { (q : ℕ) → listed result q ≡ [] }
    {
        NumberedLists {
            alloc,
            inner: HashMap::new(alloc),
        }
    }

    /// The list of a number.
    pub fn get(&self, number: u32) -> &[T]
        ensures { result.now ≡ listed self.now number }
    {
        match self.inner.get(&number) {
            None => &[],
            Some(list) => list.as_slice(),
        }
    }

    /// Puts an item behind the list of a number.
    ///
    /// # Errors
    ///
    /// `AllocError` is want of memory.
    pub fn push(&mut self, number: u32, item: T) -> Result<(), AllocError>
        ensures { OnOk result ((q : ℕ) → listed self.new q ≡ listed self.old q ++ (if number == q then item ∷ [] else [])) }
    {
        match self.inner.get_mut(&number) {
            Some(list) => {
                list.push(item)?;
                Ok(())
            },
            None => {
                let mut list = Vec::new(self.alloc);
                list.push(item)?;
                self.inner.insert(number, list)?;
                Ok(())
            },
        }
    }
}
