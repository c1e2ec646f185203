ghost use Rattle.std.specs.Prelude.{◌≡◌};
ghost use Rattle.xs_codes.specs.Least as spec;

use crate::{Code, Fault, code_order};

// The phase of compiling that judges simple types.
const TYPES: u8 = 5;

// The place of a code among those of a phase: that in the list of all, but for the limit on values, which the phase of simple types tries
// behind that on patterns.
fn place_in(phase: u8, code: Code) -> u32
    ensures { result ≡ spec.place_in phase code }
{
    let order = code_order(code) as u32;
    if phase != TYPES {
        return order;
    }
    if order == code_order(Code::XLimitValue) as u32 {
        2 * (code_order(Code::XLimitPattern) as u32) + 1
    } else {
        2 * order
    }
}

/// Whether a fault comes before another: by document, then item, then the place of its code in the phase.
pub fn is_before(a: Fault, b: Fault) -> bool
    ensures before { result ≡ spec.is_before a b }
{
    if a.document != b.document {
        return a.document < b.document;
    }
    if a.item != b.item {
        return a.item < b.item;
    }
    place_in(a.phase, a.code) < place_in(b.phase, b.code)
}

/// Whether a fault comes before the first that is known, if one is.
pub fn comes_first(fault: Fault, best: Option<Fault>) -> bool
    ensures first { result ≡ spec.comes_first fault best }
{
    match best {
        None => true,
        Some(best) => is_before(fault, best),
    }
}

/// The first of two faults, as far as there are any.
pub fn sooner(a: Option<Fault>, b: Option<Fault>) -> Option<Fault>
    ensures sooner { result ≡ spec.sooner a b }
{
    match a {
        None => b,
        Some(first) => match b {
            None => a,
            Some(other) => { if is_before(other, first) { b } else { a } },
        },
    }
}
