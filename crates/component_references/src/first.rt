ghost use Rattle.std.specs.Prelude.{◌≡◌, ◌+◌, ◌≤◌, ◌<◌, ◌^◌, map, length, IfOk};
ghost use Rattle.component_references.specs.NumberedCircles.{IsWithin, NeverRise};
ghost use Rattle.xs_codes.specs.Least.{IsLeast};
ghost use Rattle.component_references.specs.Circles as spec;

use crate::comes_back;
use crate::placed::Placed;
use std::alloc::{AllocError, Global};
use xs_codes::{Code, Fault, comes_first};
use xs_components::Place;
use xs_lists::Listed;

// The phase of compiling that looks for circles.
const PHASE: u8 = 4;

// The fault of a code at a place.
fn circle_fault(at: Place, code: Code) -> Fault
    ensures { result ≡ spec.circle_fault at code }
{
    Fault {
        phase: PHASE,
        document: at.document,
        item: at.item,
        code,
    }
}

// The first of those parts that come back to themselves, where the first part has this number among the references.
pub(crate) fn first_circle<T: Placed>(
    alloc: Global,
    parts: &[T],
    refs: &[Listed<u32>],
    levels: &[u32],
    first: u32,
    code: Code,
) -> Result<Option<Fault>, AllocError>
    requires few { length refs.now < 2 ^ 32 }
    requires within { IsWithin refs.now }
    requires levels { NeverRise refs.now levels.now }
    requires there { first + length parts.now ≤ length refs.now }
    ensures least { IfOk result (IsLeast (spec.ComesBack (map T.place_of parts.now) refs.now first code)) }
{
    let mut best = None;
    for i in 0..parts.len() {
        let fault = circle_fault(parts[i].place(), code);
        if !comes_first(fault, best) {
            continue;
        }
        if !comes_back(alloc, refs, levels, first + i as u32)? {
            continue;
        }
        best = Some(fault);
    }
    Ok(best)
}
