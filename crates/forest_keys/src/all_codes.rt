//! The codes of all elements of a forest.

ghost use Rattle.std.specs.Prelude.{◌≡◌, ◌<◌, ◌^◌, None, IfOk};
ghost use Rattle.component_tables.specs.ContentTypes.{AreContentsOf};
ghost use Rattle.path_walk.specs.Sight.{AreNamed};
ghost use Rattle.path_walk.specs.inside.Walk.{size};
ghost use Rattle.forest_keys.specs.Codes.{all_codes};
ghost use Rattle.forest_keys.specs.inside.Keyrefs.{AreReferencesOf};
ghost use Rattle.forest_keys.specs.inside.Places.{parents_along};

use crate::keyrefs::references_of;
use crate::placing::parents_of;
use crate::putting::{Counting, put_all};
use crate::reading::read_all;
use key_records::{KeyRecords, KeyTree};
use path_walk::{KeySet, KeySiblings};
use std::alloc::AllocError;
use xs_codes::Found;
use xs_lists::Listed;

// The codes of siblings and of all below them, where these are their parents.
fn codes_by<T: KeySiblings>(
    by: &Counting<'_>,
    siblings: T,
) -> Result<Vec<Listed<Found>>, AllocError>
    requires contents { AreContentsOf by.now.set.parts.now by.now.set.contents.now }
    requires named { AreNamed by.now.set.names.now (T.forest siblings) }
    requires references { AreReferencesOf by.now.set.parts.now.constraints.parts by.now.tree.references.now }
    requires parents { by.now.tree.parents.now ≡ parents_along 0 None (T.forest siblings) }
    requires few { size (T.forest siblings) < 2 ^ 32 }
    ensures { IfOk result (λ codes. codes.items ≡ all_codes by.now.set.names.now by.now.set.parts.now by.now.set.identities.now (T.forest siblings)) }
{
    let mut records = KeyRecords::new(by.set.alloc)?;
    put_all(by, &mut records, 0, siblings)?;
    let mut codes = Vec::new(by.set.alloc);
    read_all(by, &records, siblings, &mut codes)?;
    Ok(codes)
}

/// The codes of siblings and of all elements below them, in document order: of each identity constraint of an element's declaration,
/// in order, the first that is broken of cvc-identity-constraint.3 to .4.3 (Structures 3.11.4). All targets are put into one set of
/// records.
///
/// # Errors
///
/// `AllocError` is want of memory, or there would be more than 4,294,967,295 elements, or so many targets of one constraint of an
/// element with a fault or with one key-sequence, or a constraint with a number of 2,147,483,648 or more.
pub fn forest_codes<T: KeySiblings>(
    set: &KeySet<'_>,
    siblings: T,
) -> Result<Vec<Listed<Found>>, AllocError>
    requires contents { AreContentsOf set.now.parts.now set.now.contents.now }
    requires named { AreNamed set.now.names.now (T.forest siblings) }
    ensures { IfOk result (λ codes. codes.items ≡ all_codes set.now.names.now set.now.parts.now set.now.identities.now (T.forest siblings)) }
{
    let parents = parents_of(set.alloc, siblings)?;
    let references = references_of(set.alloc, set.parts)?;
    let by = Counting {
        set: *set,
        tree: KeyTree {
            parents: parents.as_slice(),
            references: &references,
        },
    };
    let codes = codes_by(&by, siblings)?;
    Ok(codes)
}
