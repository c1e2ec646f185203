ghost use Rattle.std.specs.Prelude.{◌≡◌, ◌∷◌, ◌++◌, [], length, OnOk, OnErr};
ghost use Rattle.xs_components.specs.Heads.{names_of};

use crate::{ElementId, NameIdList};
use std::alloc::{AllocError, Global};
use std::marker::Model;
use xs_lists::Listed;
use xs_names::NameId;

/// The names of the members of each element's substitution group, itself first (Structures 3.3.6). Contracts see a list of
/// lists of names, in which an element's number is the place of its group.
#[derive(Drop)]
pub struct Members {
    groups: Listed<NameIdList>,
}

impl Model for Members {
    ghost use Rattle.std.specs.Prelude.{ℕ, List};

    ghost Value = { List (List ℕ) };

    ghost view = { λ m. m.groups };
}

impl Members {
    /// No groups.
    pub fn new(alloc: Global) -> Self
        ensures none { result ≡ [] }
    {
        Members {
            groups: Listed::new(alloc),
        }
    }

    /// Adds the group of the next element.
    ///
    /// # Errors
    ///
    /// When memory is wanting; the groups are then as they were.
    pub fn push(&mut self, names: NameIdList) -> Result<(), AllocError>
        ensures ok { OnOk result (self.new ≡ self.old ++ names ∷ []) }
        ensures err { OnErr result (self.new ≡ self.old) }
    {
        self.groups.push(names)
    }

    /// The number of elements that have a group.
    pub fn len(&self) -> usize
        ensures count { result ≡ length self.now }
    {
        self.groups.len()
    }

    /// The names of the members of the group that the element heads; none where it has no group.
    pub fn names_of(&self, head: ElementId) -> &[NameId]
        ensures names { result.now ≡ names_of self.now head }
    {
        match self.groups.get(head.number() as usize) {
            Some(names) => names.as_slice(),
            None => &[],
        }
    }
}
