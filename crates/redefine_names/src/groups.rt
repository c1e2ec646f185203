//! Both kinds of components that redefine others without a reference to themselves.

ghost use Rattle.std.specs.Prelude.{IfOk};
ghost use Rattle.representations.specs.Behind.{AreBehind};
ghost use Rattle.redefine_names.specs.Groups as spec;

use crate::finding::redefined_pairs;
use crate::{RedefinedPair, VersionKind};
use representations::Representation;
use std::alloc::{AllocError, Global};

/// The groups and the attribute groups of a schema set that redefine others without a reference to themselves (Structures 4.2.2),
/// with these.
#[derive(Drop)]
pub struct RedefinedGroups {
    pub groups: Vec<RedefinedPair>,
    pub attr_groups: Vec<RedefinedPair>,
}

/// The groups and the attribute groups that redefine others without a reference to themselves, as [`redefined_pairs`] answers
/// those of a kind.
///
/// # Errors
///
/// `AllocError` is want of memory, or of places.
pub fn redefined_groups(
    alloc: Global,
    reps: &[Representation],
    originals: &[Option<u32>],
) -> Result<RedefinedGroups, AllocError>
    requires behind { AreBehind reps.now }
    ensures redefined { IfOk result (spec.AreRedefined reps.now originals.now) }
{
    let groups = redefined_pairs(alloc, VersionKind::Group, reps, originals)?;
    let attr_groups = redefined_pairs(alloc, VersionKind::AttributeGroup, reps, originals)?;
    Ok(RedefinedGroups {
        groups,
        attr_groups,
    })
}
