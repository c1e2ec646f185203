//! The places of elements in document order, and those of their parents.

ghost use Rattle.std.specs.Prelude.{◌≡◌, ◌++◌, ◌<◌, ◌^◌, length, None, IfOk, OnOk};
ghost use Rattle.forest_keys.specs.inside.Places.{parents_along};

use path_walk::KeySiblings;
use std::alloc::{AllocError, Global};

// Puts the parents of siblings with this parent, and of all below them, behind others. The place of an element is the number of
// those before it.
fn add_parents<T: KeySiblings>(
    siblings: T,
    parent: Option<u32>,
    parents: &mut Vec<Option<u32>>,
) -> Result<(), AllocError>
    requires few { length parents.old.items < 2 ^ 32 }
    ensures few { OnOk result (length parents.new.items < 2 ^ 32) }
    ensures parents { OnOk result (parents.new.items ≡ parents.old.items ++ parents_along (length parents.old.items) parent (T.forest siblings)) }
{
    let mut left = siblings;
    'left: while let Some(_) = left.first() {
        let place = parents.len();
        if place >= u32::MAX as usize {
            return Err(AllocError);
        }
        parents.push(parent)?;
        add_parents(left.below(), Some(place as u32), parents)?;
        left = left.next();
    }
    Ok(())
}

/// The parents of siblings without one, and of all below them, by places. There are 4,294,967,295 elements at most.
pub(crate) fn parents_of<T: KeySiblings>(
    alloc: Global,
    siblings: T,
) -> Result<Vec<Option<u32>>, AllocError>
    ensures few { IfOk result (λ parents. length parents.items < 2 ^ 32) }
    ensures parents { IfOk result (λ parents. parents.items ≡ parents_along 0 None (T.forest siblings)) }
{
    let mut parents = Vec::new(alloc);
    add_parents(siblings, None, &mut parents)?;
    Ok(parents)
}
