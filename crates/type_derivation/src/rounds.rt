ghost use Rattle.std.specs.Prelude.{◌≡◌, ◌<◌, ◌^◌, ◌↔◌, ℕ, true, false, Some, All, Contains, length, IfOk};
ghost use Rattle.xs_components.specs.declared.common.TypeId.{TypeId as TypeIdValue};
ghost use Rattle.component_tables.specs.declared.content_types.ContentType.{ContentType as Kind};
ghost use Rattle.type_derivation.specs.Contents.{HasContent};
ghost use Rattle.type_derivation.specs.inside.Kinds.{IsSound, LacksAt, unknown, kind_in};

use crate::kinds::kind_by;
use component_references::{levels, order_of};
use component_tables::ContentType;
use std::alloc::{AllocError, Global};
use xs_components::{ComplexType, Components, TypeId};
use xs_lists::Listed;

// Puts content types into the table that form and table tell. Answers whether there were some.
fn round(parts: &Components, order: &[u32], known: &mut [Option<ContentType>]) -> bool
    requires len { length known.old ≡ length parts.now.complexes.parts }
    requires order { All (λ x. x < length parts.now.complexes.parts) order.now }
    requires sound { IsSound parts.now known.old }
    ensures sound { IsSound parts.now known.new }
    ensures lacks { result ≡ false → All (LacksAt parts.now known.new) order.now }
    ensures fewer { result ≡ true → unknown known.new < unknown known.old }
    ensures len { length known.new ≡ length known.old }
{
    let mut found = false;
    for x in order {
        let number = *x as usize;
        if known[number].is_some() {
            continue;
        }
        let Some(kind) = kind_by(known, &parts.complexes()[number]) else {
            continue;
        };
        known[number] = Some(kind);
        found = true;
    }
    found
}

// Puts content types into the table until no more are told.
fn rounds(parts: &Components, order: &[u32], known: &mut [Option<ContentType>])
    requires len { length known.old ≡ length parts.now.complexes.parts }
    requires order { All (λ x. x < length parts.now.complexes.parts) order.now }
    requires sound { IsSound parts.now known.old }
    ensures sound { IsSound parts.now known.new }
    ensures lacks { All (LacksAt parts.now known.new) order.now }
    ensures len { length known.new ≡ length known.old }
{
    'round: loop {
        if !round(parts, order, known) {
            return;
        }
    }
}

// The number of a base that is a complex type.
fn base_row(alloc: Global, part: &ComplexType) -> Result<Listed<u32>, AllocError> {
    let mut row = Listed::new(alloc);
    if let TypeId::Complex(id) = part.base {
        row.push(id.number())?;
    }
    Ok(row)
}

// The complex types, as far as may be behind their bases.
fn bases_first(alloc: Global, parts: &Components) -> Result<Vec<u32>, AllocError>
    ensures there { IfOk result (λ order. All (λ x. x < length parts.now.complexes.parts) order.items) }
    ensures each { IfOk result (λ order. (x : ℕ) → x < length parts.now.complexes.parts → Contains order.items x) }
{
    let mut refs = Vec::new(alloc);
    for part in parts.complexes() {
        refs.push(base_row(alloc, part)?)?;
    }
    let levels = levels(alloc, refs.as_slice())?;
    let ranks = parts.complex_ranks();
    if levels.len() == ranks.len() {
        order_of(alloc, levels.as_slice())
    } else {
        order_of(alloc, ranks)
    }
}

/// The content types of all complex types, as far as they have one.
pub(crate) fn kinds(
    alloc: Global,
    parts: &Components,
) -> Result<Vec<Option<ContentType>>, AllocError>
    ensures exact { IfOk result (λ known. (of : TypeIdValue) (kind : Kind) → (kind_in known.items of ≡ Some kind) ↔ HasContent parts.now of kind) }
{
    let order = bases_first(alloc, parts)?;
    let mut known = Vec::from_elem(alloc, None, parts.complexes().len())?;
    rounds(parts, order.as_slice(), known.as_mut_slice());
    Ok(known)
}
