//! Which rows are live, for contracts alone.

ghost use Rattle.std.specs.Prelude.{◌≡◌, ℕ, List, [], Bool};
ghost use base.Fml.{ftrue};
ghost use Rattle.map_rows.specs.Marks.{marked};

use std::marker::Model;

/// A mark for each row that was ever taken, whether it is live. Only contracts see it, and it takes no bytes.
pub struct Live {
    ghost marks: { List Bool },
}

impl Model for Live {
    ghost also_owns = { λ _. ftrue };
}

impl Live {
    /// No row is live.
    pub fn new() -> Live
        ensures { result.marks ≡ [] }
    {
        Live {}
    }

    /// Says of a row whether it is live from now on.
    pub fn set(&mut self, row: u32, live: bool)
        ensures { self.new.marks ≡ marked self.old.marks row live }
    {}
}

impl Drop for Live {
    fn drop(self) {
        let Self {} = self;
    }
}
