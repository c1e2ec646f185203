//! The codes of identity constraints, put to entries.

ghost use Rattle.std.specs.Prelude.{◌≡◌, ◌<◌, [], All, drop, length, map, OnOk};
ghost use Rattle.assessment.specs.Assessment.{Assessed};
ghost use Rattle.component_tables.specs.ContentTypes.{AreContentsOf};
ghost use Rattle.elem_codes.specs.Records as records;
ghost use Rattle.what_is_found.specs.Identity as spec;
ghost use Rattle.forest_keys.specs.inside.Parsed.{assessed_of, below_of, flat, sized_of};
ghost use Rattle.forest_keys.specs.inside.Coded.{IsEntryNamed, coded, coded_at, first_codes};

use crate::entry_siblings::{EntrySiblings, by_first};
use crate::forest_codes;
use assess_records::{ElementRecord, Validity};
use assessment::mark;
use path_walk::KeySet;
use std::alloc::AllocError;
use tree_assess::ElementEntry;
use xs_codes::Found;

// Whether this is the validity of an invalid element.
fn is_invalid(validity: Validity) -> bool
    ensures { result ≡ records.is_invalid validity }
{
    match validity {
        Validity::Invalid => true,
        Validity::Valid | Validity::NotKnown => false,
    }
}

// Whether one of some siblings is invalid.
fn has_invalid(siblings: &[ElementEntry]) -> bool
    ensures { result ≡ spec.has_invalid (assessed_of siblings.now) }
{
    let mut left = siblings;
    'left: while let Some(parts) = by_first(left) {
        if is_invalid(parts.own.element.validity) {
            return true;
        }
        left = parts.behind;
    }
    false
}

// Whether a child element of the entry of a place is invalid.
fn has_invalid_below(entries: &[ElementEntry], place: usize) -> bool
    requires { place < length entries.now }
    ensures { result ≡ spec.has_invalid (below_of (assessed_of (drop place entries.now))) }
{
    let (_, from) = entries.split_at(place);
    match by_first(from) {
        None => false,
        Some(parts) => has_invalid(parts.below),
    }
}

// The validity of an element without more codes, with invalid child elements or without (Structures 3.3.5).
fn validity_above(below: bool, validity: Validity) -> Validity
    ensures { result ≡ spec.validity_again [] below validity }
{
    match validity {
        Validity::Valid => {
            if below {
                Validity::Invalid
            } else {
                Validity::Valid
            }
        }
        Validity::Invalid => Validity::Invalid,
        Validity::NotKnown => Validity::NotKnown,
    }
}

// Puts codes behind those of a record, where child elements are invalid or none is.
fn add_codes(own: &mut ElementRecord, codes: &[Found], below: bool) -> Result<(), AllocError>
    ensures { OnOk result (own.new ≡ spec.with_more codes.now below own.old) }
{
    own.validity = validity_above(below, own.validity);
    mark(own, codes)?;
    Ok(())
}

// Puts codes to the entry of a place. They are those of its identity constraints, and those behind it have theirs.
fn join_at(
    set: &KeySet<'_>,
    codes: &[Found],
    entries: &mut [ElementEntry],
    place: usize,
) -> Result<(), AllocError>
    requires place { place < length entries.old }
    requires codes { codes.now ≡ first_codes set.now.names.now set.now.parts.now set.now.identities.now (spec.seen (assessed_of (drop place entries.old))) }
    ensures { OnOk result (entries.new ≡ coded_at set.now.names.now set.now.parts.now set.now.identities.now place entries.old) }
{
    let below = has_invalid_below(entries, place);
    add_codes(&mut entries[place].element, codes, below)?;
    Ok(())
}

/// Puts the codes of the identity constraints of each element behind the others of its record, from the last element to the first
/// (cvc-identity-constraint, Structures 3.11.4). The entries are those of a document's elements.
pub(crate) fn join_identity(
    set: &KeySet<'_>,
    entries: &mut [ElementEntry],
) -> Result<(), AllocError>
    requires contents { AreContentsOf set.now.parts.now set.now.contents.now }
    requires named { All (IsEntryNamed set.now.names.now) entries.old }
    requires whole { (found : Assessed) × (map sized_of entries.old ≡ flat found) }
    ensures { OnOk result (entries.new ≡ coded set.now.names.now set.now.parts.now set.now.identities.now entries.old) }
{
    let codes = forest_codes(set, EntrySiblings { entries })?;
    let mut place = entries.len();
    while place > 0 {
        place -= 1;
        join_at(set, codes[place].as_slice(), entries, place)?;
    }
    Ok(())
}
