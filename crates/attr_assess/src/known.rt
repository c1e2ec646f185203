//! What attribute uses add to elements, found once for all documents.

ghost use Rattle.std.specs.Prelude.{◌≡◌, IfOk, IfSome};
ghost use Rattle.std.specs.Option.{option_copied};
ghost use Rattle.attr_assess.specs.Known as spec;
ghost use Rattle.attr_assess.specs.inside.Uses as inside;
ghost use Rattle.attr_assess.specs.Types.{IsTypeSet};

use crate::found::{FoundUse, written_use};
use crate::{AttrGoverning, AttrItem, JudgedAttr, judge};
use assess_records::ValueSource;
use attr_uses::{UseAt, UseHolder};
use simple_types::SimpleTypes;
use std::alloc::{AllocError, Global};
use xs_components::{Components, ValueConstraint};
use xs_lists::Listed;

// What the uses of one component add, place by place; `None` where a use adds nothing.
type KnownIn = Listed<Option<JudgedAttr>>;

/// What the attribute uses add that are written in complex types and in attribute groups, by the numbers of these.
#[derive(Drop)]
pub struct KnownUses {
    types: Listed<KnownIn>,
    groups: Listed<KnownIn>,
}

impl KnownUses {
    /// Judges what each use adds.
    ///
    /// # Errors
    ///
    /// `AllocError` is want of memory.
    pub fn of(
        alloc: Global,
        parts: &Components,
        types: &mut SimpleTypes,
    ) -> Result<KnownUses, AllocError>
        requires types { IsTypeSet parts.now types.old }
        ensures known { IfOk result (spec.AreKnownUses parts.now) }
        ensures same { types.new ≡ types.old }
    {
        let count = parts.complexes().len() as u32;
        let of_types = known_of(alloc, parts, types, true, count)?;
        let count = parts.attr_groups().len() as u32;
        let of_groups = known_of(alloc, parts, types, false, count)?;
        Ok(KnownUses {
            types: of_types,
            groups: of_groups,
        })
    }

    /// What is known of the use that is written in a place.
    pub(crate) fn at(&self, at: UseAt) -> Option<&JudgedAttr>
        ensures known { option_copied result ≡ spec.known_at self.now at }
    {
        match at.holder {
            UseHolder::Complex(number) => known_in(self.types.get(number as usize), at.place),
            UseHolder::AttrGroup(number) => known_in(self.groups.get(number as usize), at.place),
        }
    }
}

fn known_in(known: Option<&KnownIn>, place: usize) -> Option<&JudgedAttr>
    ensures { option_copied result ≡ spec.known_in (option_copied known.entry) place }
{
    match known {
        None => None,
        Some(known) => match known.get(place) {
            None => None,
            Some(known) => known.as_ref(),
        },
    }
}

fn holder_of(in_types: bool, number: u32) -> UseHolder
    ensures { result ≡ spec.holder_of in_types number }
{
    if in_types {
        UseHolder::Complex(number)
    } else {
        UseHolder::AttrGroup(number)
    }
}

// What the uses of the first so many complex types, or attribute groups, add.
fn known_of(
    alloc: Global,
    parts: &Components,
    types: &mut SimpleTypes,
    in_types: bool,
    count: u32,
) -> Result<Listed<KnownIn>, AllocError>
    requires types { IsTypeSet parts.now types.old }
    ensures known { IfOk result (spec.AreKnownOf parts.now in_types) }
    ensures same { types.new ≡ types.old }
{
    let mut known = Listed::new(alloc);
    for number in 0..count {
        let uses = known_by(alloc, parts, types, holder_of(in_types, number))?;
        known.push(uses)?;
    }
    Ok(known)
}

// What the uses that are written in a component add.
fn known_by(
    alloc: Global,
    parts: &Components,
    types: &mut SimpleTypes,
    holder: UseHolder,
) -> Result<KnownIn, AllocError>
    requires types { IsTypeSet parts.now types.old }
    ensures known { IfOk result (spec.AreKnownIn parts.now holder) }
    ensures same { types.new ≡ types.old }
{
    let mut known = Listed::new(alloc);
    'uses: while let Some(found) = written_use(
        parts,
        UseAt {
            holder,
            place: known.len(),
        },
    ) {
        let added = added_by(alloc, parts, types, &found)?;
        known.push(added)?;
    }
    Ok(known)
}

// What a use adds.
fn added_by(
    alloc: Global,
    parts: &Components,
    types: &mut SimpleTypes,
    found: &FoundUse<'_>,
) -> Result<Option<JudgedAttr>, AllocError>
    requires types { IsTypeSet parts.now types.old }
    requires written { inside.IsWritten parts.now found.now.at found.now }
    ensures added { IfOk result (λ added. IfSome added (spec.IsKnownUse parts.now found.now.at)) }
    ensures same { types.new ≡ types.old }
{
    match found.constraint() {
        None => Ok(None),
        Some(constraint) => {
            let judged = added_with(alloc, parts, types, found, constraint)?;
            Ok(Some(judged))
        }
    }
}

// The attribute of a use with the text of a constraint.
fn added_with(
    alloc: Global,
    parts: &Components,
    types: &mut SimpleTypes,
    found: &FoundUse<'_>,
    constraint: &ValueConstraint,
) -> Result<JudgedAttr, AllocError>
    requires types { IsTypeSet parts.now types.old }
    ensures judged { IfOk result (inside.IsJudgedWith parts.now found.now constraint.now) }
    ensures same { types.new ≡ types.old }
{
    let item = AttrItem {
        name: found.decl.name,
        source: ValueSource::Schema,
        scope: &constraint.scope,
        text: constraint.text.as_str(),
    };
    let governing = AttrGoverning::Declared {
        attribute: found.part.attribute,
        by: Some(found.at),
    };
    judge(alloc, parts, types, &item, governing)
}
