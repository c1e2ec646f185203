//! The codes of identity constraints of elements, read off records.

ghost use Rattle.std.specs.Prelude.{◌≡◌, ◌++◌, ◌+◌, ◌<◌, ◌^◌, ℕ, Some, length, slice_get, IfOk, OnOk};
ghost use Rattle.xs_components.specs.declared.constraint.ConstraintKind.TheVariants.{Unique, Key, Keyref};
ghost use Rattle.xs_components.specs.declared.constraint.Constraint.{Constraint};
ghost use Rattle.identity_constraints.specs.Seen.{KeyElement, KeyForest};
ghost use Rattle.key_records.specs.References.{AreReferences, key_of};
ghost use Rattle.identity_constraints.specs.Targets.{outcomes};
ghost use Rattle.identity_constraints.specs.Satisfied as spec;
ghost use Rattle.path_walk.specs.Sight.{seen};
ghost use Rattle.path_walk.specs.inside.Walk.{size};
ghost use Rattle.forest_keys.specs.Codes.{all_codes};
ghost use Rattle.forest_keys.specs.inside.Keyrefs.{AreReferencesOf};
ghost use Rattle.forest_keys.specs.inside.Records.{AreFilled, AreFilledAt, found_of};

use crate::putting::Counting;
use key_records::KeyRecords;
use path_walk::{KeySiblings, KeySight, constraints_of};
use std::alloc::AllocError;
use xs_codes::{Code, Found};
use xs_components::{ConstraintId, ConstraintKind};
use xs_lists::Listed;

// So many constraints can have targets in the records.
const MOST: u32 = 1 << 31;

// What a key breaks by its targets.
fn key_code(by: &Counting<'_>, records: &KeyRecords, place: u32, key: u32) -> Option<Code>
    requires few { key < 2 ^ 31 }
    ensures { (own : KeyElement) (below : KeyForest) → AreFilledAt by.now.set.names.now by.now.set.parts.now by.now.set.identities.now by.now.tree records.now place own below
        → found_of result ≡ spec.first_broken (spec.checks_by by.now.set.names.now by.now.set.parts.now by.now.set.identities.now Key (outcomes by.now.set.names.now by.now.set.parts.now by.now.set.identities.now key own below) own below) }
{
    if records.has_lacking(place, key) {
        return Some(Code::CvcIdentityConstraint4_2_1);
    }
    if records.has_repeated(by.tree.references, place, key) {
        return Some(Code::CvcIdentityConstraint4_2_2);
    }
    if records.has_nillable(place, key) {
        return Some(Code::CvcIdentityConstraint4_2_3);
    }
    None
}

// What a unique breaks by its targets.
fn unique_code(by: &Counting<'_>, records: &KeyRecords, place: u32, unique: u32) -> Option<Code>
    requires few { unique < 2 ^ 31 }
    ensures { (own : KeyElement) (below : KeyForest) → AreFilledAt by.now.set.names.now by.now.set.parts.now by.now.set.identities.now by.now.tree records.now place own below
        → found_of result ≡ spec.first_broken (spec.checks_by by.now.set.names.now by.now.set.parts.now by.now.set.identities.now Unique (outcomes by.now.set.names.now by.now.set.parts.now by.now.set.identities.now unique own below) own below) }
{
    if records.has_repeated(by.tree.references, place, unique) {
        return Some(Code::CvcIdentityConstraint4_1);
    }
    None
}

// What a keyref breaks by its targets.
fn keyref_code(by: &Counting<'_>, records: &KeyRecords, place: u32, keyref: u32) -> Option<Code>
    requires few { keyref < 2 ^ 31 }
    requires sound { AreReferences by.now.tree.references.now }
    ensures { (key : ℕ) (own : KeyElement) (below : KeyForest) → key_of by.now.tree.references.now keyref ≡ Some key
        → AreFilledAt by.now.set.names.now by.now.set.parts.now by.now.set.identities.now by.now.tree records.now place own below
        → found_of result ≡ spec.first_broken (spec.checks_by by.now.set.names.now by.now.set.parts.now by.now.set.identities.now (Keyref key) (outcomes by.now.set.names.now by.now.set.parts.now by.now.set.identities.now keyref own below) own below) }
{
    if records.has_unmatched(place, keyref) {
        return Some(Code::CvcIdentityConstraint4_3);
    }
    None
}

// What a constraint of this kind breaks by its targets.
fn code_by(
    by: &Counting<'_>,
    records: &KeyRecords,
    place: u32,
    constraint: u32,
    kind: ConstraintKind,
) -> Option<Code>
    requires few { constraint < 2 ^ 31 }
    requires references { AreReferencesOf by.now.set.parts.now.constraints.parts by.now.tree.references.now }
    requires kind { (part : Constraint) × (slice_get by.now.set.parts.now.constraints.parts constraint ≡ Some part) × (part.kind ≡ kind) }
    ensures { (own : KeyElement) (below : KeyForest) → AreFilledAt by.now.set.names.now by.now.set.parts.now by.now.set.identities.now by.now.tree records.now place own below
        → found_of result ≡ spec.first_broken (spec.checks by.now.set.names.now by.now.set.parts.now by.now.set.identities.now kind (outcomes by.now.set.names.now by.now.set.parts.now by.now.set.identities.now constraint own below) own below) }
{
    if records.has_misused(place, constraint) {
        return Some(Code::CvcIdentityConstraint3);
    }
    match kind {
        ConstraintKind::Unique => unique_code(by, records, place, constraint),
        ConstraintKind::Key => key_code(by, records, place, constraint),
        ConstraintKind::Keyref(_) => keyref_code(by, records, place, constraint),
    }
}

// The first that is broken of a constraint.
fn code_of(
    by: &Counting<'_>,
    records: &KeyRecords,
    place: u32,
    constraint: ConstraintId,
) -> Result<Option<Code>, AllocError>
    requires references { AreReferencesOf by.now.set.parts.now.constraints.parts by.now.tree.references.now }
    ensures { IfOk result (λ code. (own : KeyElement) (below : KeyForest) → AreFilledAt by.now.set.names.now by.now.set.parts.now by.now.set.identities.now by.now.tree records.now place own below
        → found_of code ≡ spec.codes_by by.now.set.names.now by.now.set.parts.now by.now.set.identities.now constraint (slice_get by.now.set.parts.now.constraints.parts constraint) own below) }
{
    let number = constraint.number();
    if number >= MOST {
        return Err(AllocError);
    }
    let Some(part) = by.set.parts.constraints().get(number as usize) else {
        return Ok(None);
    };
    Ok(code_by(by, records, place, number, part.kind))
}

// Puts a code at the end, if there is one.
fn push_code(codes: &mut Listed<Found>, code: Option<Code>) -> Result<(), AllocError>
    ensures { OnOk result (codes.new ≡ codes.old ++ found_of code) }
{
    if let Some(code) = code {
        codes.push(Found { code, place: 0 })?;
    }
    Ok(())
}

/// The codes of an element, read off the records that have its targets and those of all elements below it: of each of its identity
/// constraints, in order, the first that is broken of cvc-identity-constraint.3 to .4.3 (Structures 3.11.4).
///
/// # Errors
///
/// `AllocError` is want of memory, or a constraint has a number of 2,147,483,648 or more.
pub fn element_codes(
    by: &Counting<'_>,
    records: &KeyRecords,
    place: u32,
    own: &KeySight<'_>,
) -> Result<Listed<Found>, AllocError>
    requires references { AreReferencesOf by.now.set.parts.now.constraints.parts by.now.tree.references.now }
    ensures { IfOk result (λ codes. (below : KeyForest) → AreFilledAt by.now.set.names.now by.now.set.parts.now by.now.set.identities.now by.now.tree records.now place (seen own.now) below
        → codes ≡ spec.identity_codes by.now.set.names.now by.now.set.parts.now by.now.set.identities.now (seen own.now) below) }
{
    let mut codes = Listed::new(by.set.alloc);
    let mut left = constraints_of(by.set.parts, own);
    'constraints: while let Some((constraint, rest)) = left.split_first() {
        let code = code_of(by, records, place, *constraint)?;
        push_code(&mut codes, code)?;
        left = rest;
    }
    Ok(codes)
}

/// Puts the codes of siblings and of all below them behind others. The place of an element is the number of those before it.
pub(crate) fn read_all<T: KeySiblings>(
    by: &Counting<'_>,
    records: &KeyRecords,
    siblings: T,
    codes: &mut Vec<Listed<Found>>,
) -> Result<(), AllocError>
    requires references { AreReferencesOf by.now.set.parts.now.constraints.parts by.now.tree.references.now }
    requires few { length codes.old.items + size (T.forest siblings) < 2 ^ 32 }
    ensures many { OnOk result (length codes.new.items ≡ length codes.old.items + size (T.forest siblings)) }
    ensures codes { OnOk result (AreFilled by.now.set.names.now by.now.set.parts.now by.now.set.identities.now by.now.tree records.now (length codes.old.items) (T.forest siblings)
        → codes.new.items ≡ codes.old.items ++ all_codes by.now.set.names.now by.now.set.parts.now by.now.set.identities.now (T.forest siblings)) }
{
    let mut left = siblings;
    'left: while let Some(own) = left.first() {
        let place = codes.len();
        let found = element_codes(by, records, place as u32, &own)?;
        codes.push(found)?;
        read_all(by, records, left.below(), codes)?;
        left = left.next();
    }
    Ok(())
}
