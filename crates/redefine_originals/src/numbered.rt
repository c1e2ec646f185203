ghost use Rattle.std.specs.Prelude.{◌≡◌, ◌==◌, ℕ, None, Some, map, if◌then◌else◌, IfOk, OnOk};
ghost use Rattle.std.specs.List.{find};
ghost use Rattle.std.specs.Option.{option_map, option_or};
ghost use Rattle.redefine_originals.specs.inside.Entries.{child_entry};
ghost use Rattle.redefine_originals.specs.inside.Numbered.{child_found};

use crate::Child;
use std::alloc::{AllocError, Global};
use std::collections::HashMap;

/// What stands in redefines, by the numbers of elements. Of several of one number the first that was noted counts.
#[derive(Drop)]
pub(crate) struct NumberedChildren<'a> {
    inner: HashMap<u32, Child<'a>>,
}

impl<'a> NumberedChildren<'a> {
    /// None.
    pub(crate) fn new(alloc: Global) -> Self
        ensures { (item : ℕ) → child_found result item ≡ None }
    {
        NumberedChildren {
            inner: HashMap::new(alloc),
        }
    }

    /// The one whose element has this number.
    pub(crate) fn find(&self, item: u32) -> Option<Child<'a>>
        ensures { option_map child_entry result ≡ child_found self.now item }
    {
        match self.inner.get(&item) {
            None => None,
            Some(child) => Some(*child),
        }
    }

    /// Notes one, unless its element has the number of another.
    pub(crate) fn note(&mut self, child: Child<'a>) -> Result<(), AllocError>
        ensures { OnOk result ((item : ℕ) → child_found self.new item
            ≡ option_or (child_found self.old item) (if child.entry.shape.now.item == item then Some (child_entry child.entry) else None)) }
    {
        match self.find(child.shape.item) {
            Some(_) => Ok(()),
            None => {
                self.inner.insert(child.shape.item, child)?;
                Ok(())
            },
        }
    }
}

/// What stands in redefines, by the numbers of elements. Of several of one number the first counts.
pub(crate) fn numbered_children<'a>(
    alloc: Global,
    children: &[Child<'a>],
) -> Result<NumberedChildren<'a>, AllocError>
    ensures { IfOk result (λ numbered. (item : ℕ) → child_found numbered item ≡ find (λ c. c.shape.item == item) (map child_entry children.now)) }
{
    let mut numbered = NumberedChildren::new(alloc);
    for child in children {
        numbered.note(*child)?;
    }
    Ok(numbered)
}
