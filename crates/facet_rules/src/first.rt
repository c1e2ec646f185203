//! The first of the faults of a step.
ghost use Rattle.std.specs.Prelude.{◌≡◌};
ghost use Rattle.facet_rules.specs.First as spec;

use xs_codes::{Code, Fault, is_before};
use xs_components::Place;

// The phase of compiling that judges simple types.
const PHASE: u8 = 5;

/// The fault of a code at a place.
pub(crate) fn fault_at(at: Place, code: Code) -> Fault
    ensures { result ≡ spec.fault_at at code }
{
    Fault {
        phase: PHASE,
        document: at.document,
        item: at.item,
        code,
    }
}

/// The first of these faults.
pub fn sooner(best: Option<Fault>, fault: Fault) -> Option<Fault>
    ensures { result ≡ spec.sooner best fault }
{
    match best {
        Some(best) if !is_before(fault, best) => Some(best),
        _ => Some(fault),
    }
}

/// The first of these faults, where the rule of the second is broken.
pub fn noted(best: Option<Fault>, broken: bool, at: Place, code: Code) -> Option<Fault>
    ensures { result ≡ spec.noted best (record { broken = broken; at = at; code = code }) }
{
    if broken {
        sooner(best, fault_at(at, code))
    } else {
        best
    }
}
