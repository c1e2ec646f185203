ghost use Rattle.std.specs.Prelude.{◌≡◌, ◌+◌, ◌<◌, ◌≤◌, ◌^◌, map, length, IfOk};
ghost use Rattle.component_references.specs.NumberedCircles.{IsWithin, NeverRise};
ghost use Rattle.xs_codes.specs.Least.{IsLeast};
ghost use Rattle.component_references.specs.Circles.{ComesBack};
ghost use Rattle.component_references.specs.inside.Parts.{AreTypesBack, IsOutcome};

use crate::first::first_circle;
use crate::placed::Placed;
use crate::{levels, ranks};
use std::alloc::{AllocError, Global};
use xs_codes::{Code, Fault, sooner};
use xs_components::{ComplexType, SimpleType};
use xs_lists::Listed;

// What comes of references.
#[derive(Drop)]
pub(crate) enum Ranking {
    // Ranks by which every reference goes lower.
    Falling(Vec<u32>),
    // Some part comes back to itself: the first fault.
    Circular(Option<Fault>),
}

// Ranks parts of one kind, which stand first among the references, or finds the first circle.
pub(crate) fn rank_parts<T: Placed>(
    alloc: Global,
    parts: &[T],
    refs: &[Listed<u32>],
    code: Code,
) -> Result<Ranking, AllocError>
    requires few { length refs.now < 2 ^ 32 }
    requires within { IsWithin refs.now }
    requires there { length parts.now ≤ length refs.now }
    ensures outcome { IfOk result (IsOutcome refs.now (ComesBack (map T.place_of parts.now) refs.now 0 code)) }
{
    match ranks(alloc, refs)? {
        Some(ranks) => Ok(Ranking::Falling(ranks)),
        None => {
            let levels = levels(alloc, refs)?;
            let found = first_circle(alloc, parts, refs, levels.as_slice(), 0, code)?;
            Ok(Ranking::Circular(found))
        },
    }
}

// The first type that comes back to itself.
fn first_type(
    alloc: Global,
    simples: &[SimpleType],
    complexes: &[ComplexType],
    refs: &[Listed<u32>],
    levels: &[u32],
) -> Result<Option<Fault>, AllocError>
    requires few { length refs.now < 2 ^ 32 }
    requires within { IsWithin refs.now }
    requires levels { NeverRise refs.now levels.now }
    requires there { length simples.now + length complexes.now ≤ length refs.now }
    ensures least { IfOk result (IsLeast (AreTypesBack simples.now complexes.now refs.now)) }
{
    let count = simples.len() as u32;
    let simple = first_circle(alloc, simples, refs, levels, 0, Code::StPropsCorrect2)?;
    let complex = first_circle(alloc, complexes, refs, levels, count, Code::CtPropsCorrect3)?;
    Ok(sooner(simple, complex))
}

// Ranks types, the simple ones first, or finds the first circle of them.
pub(crate) fn rank_all_types(
    alloc: Global,
    simples: &[SimpleType],
    complexes: &[ComplexType],
    refs: &[Listed<u32>],
) -> Result<Ranking, AllocError>
    requires few { length refs.now < 2 ^ 32 }
    requires within { IsWithin refs.now }
    requires there { length simples.now + length complexes.now ≤ length refs.now }
    ensures outcome { IfOk result (IsOutcome refs.now (AreTypesBack simples.now complexes.now refs.now)) }
{
    match ranks(alloc, refs)? {
        Some(ranks) => Ok(Ranking::Falling(ranks)),
        None => {
            let levels = levels(alloc, refs)?;
            let found = first_type(alloc, simples, complexes, refs, levels.as_slice())?;
            Ok(Ranking::Circular(found))
        },
    }
}
