ghost use Rattle.std.specs.Prelude.{◌≡◌, ◌==◌, ◌++◌, ◌||◌, ℕ, nat_eq, map, IfOk, OnOk};
ghost use Rattle.std.specs.HashSet.{contains};
ghost use Rattle.std.specs.List.{list_any};
ghost use Rattle.redefine_originals.specs.Versions as spec;

use schema_shape::Shape;
use std::alloc::{AllocError, Global};
use std::collections::HashSet;
use xs_lists::Listed;

// The numbers of the members of an element, as a set.
fn member_set(alloc: Global, members: &[u32]) -> Result<HashSet<u32>, AllocError>
    ensures { IfOk result (λ set. (item : ℕ) → contains nat_eq set item ≡ list_any (λ other. other == item) members.now) }
{
    let mut set = HashSet::new(alloc);
    for member in members {
        set.insert(*member)?;
    }
    Ok(set)
}

/// The elements that stand in an element of a document, in document order.
pub(crate) fn inside<'a>(
    alloc: Global,
    shapes: &'a [Shape],
    parent: &Shape,
) -> Result<Listed<&'a Shape>, AllocError>
    ensures { IfOk result (λ found. map (λ s. s.now) found ≡ spec.inside shapes.now parent.now) }
{
    let members = member_set(alloc, parent.members.as_slice())?;
    let mut found = Listed::new(alloc);
    for shape in shapes {
        if members.contains(&shape.item) {
            found.push(shape)?;
        }
    }
    Ok(found)
}
