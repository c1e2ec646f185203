ghost use Rattle.std.specs.Prelude.{◌≡◌, ℕ, ◌==◌, Some, None, if◌then◌else◌, OnOk, IfOk};
ghost use Rattle.set_representations.specs.inside.Building.{found};

use std::alloc::{AllocError, Global};
use std::collections::HashMap;

/// Places by the numbers of elements. Of several for one number the last that was put counts.
#[derive(Drop)]
pub(crate) struct ItemPlaces {
    inner: HashMap<u32, u32>,
}

impl ItemPlaces {
    /// No places.
    pub(crate) fn new(alloc: Global) -> Self
        ensures { (item : ℕ) → found result item ≡ None }
    {
        ItemPlaces {
            inner: HashMap::new(alloc),
        }
    }

    /// The place of a number.
    pub(crate) fn find(&self, item: u32) -> Option<u32>
        ensures { result ≡ found self.now item }
    {
        match self.inner.get(&item) {
            None => None,
            Some(place) => Some(*place),
        }
    }

    /// Puts the place of a number.
    pub(crate) fn put(&mut self, item: u32, place: u32) -> Result<(), AllocError>
        ensures { OnOk result ((other : ℕ) → found self.new other ≡ (if item == other then Some place else found self.old other)) }
    {
        self.inner.insert(item, place)?;
        Ok(())
    }
}
