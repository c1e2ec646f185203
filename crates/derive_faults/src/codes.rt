ghost use Rattle.std.specs.Prelude.{◌≡◌, ◌&&◌, not};
ghost use Rattle.std.specs.Option.{option_map};
ghost use Rattle.derive_faults.specs.TypeFaults as spec;

use xs_codes::{Code, Fault, code_order};
use xs_components::Place;

/// The code of a constraint, if it is broken.
pub fn when(is_broken: bool, code: Code) -> Option<Code>
    ensures { result ≡ spec.when is_broken code }
{
    if is_broken { Some(code) } else { None }
}

/// The code of a constraint, if something is so and another thing is not.
pub fn when_not(is_so: bool, is_other: bool, code: Code) -> Option<Code>
    ensures { result ≡ spec.when (is_so && not is_other) code }
{
    if is_so { when(!is_other, code) } else { None }
}

// Whether the second of two codes stands before the first in the list of all.
fn stands_before(first: Code, other: Code) -> bool
    ensures { result ≡ spec.stands_before other first }
{
    code_order(other) < code_order(first)
}

/// The one of two codes that stands first in the list of all, as far as there are any.
pub fn earlier(a: Option<Code>, b: Option<Code>) -> Option<Code>
    ensures { result ≡ spec.earlier a b }
{
    let Some(first) = a else {
        return b;
    };
    let Some(other) = b else {
        return a;
    };
    if stands_before(first, other) { b } else { a }
}

/// The fault of a code at a place, if there is one.
pub fn coded(phase: u8, at: Place, code: Option<Code>) -> Option<Fault>
    ensures { result ≡ option_map (spec.type_fault phase at) code }
{
    match code {
        None => None,
        Some(code) => Some(Fault {
            phase,
            document: at.document,
            item: at.item,
            code,
        }),
    }
}
