//! The first fault among types that are judged.
ghost use Rattle.std.specs.Prelude.{◌≡◌};
ghost use Rattle.simple_types.specs.SimpleTypes as spec;

use crate::JudgedType;
use facet_rules::sooner;
use xs_codes::Fault;

/// The first of the faults of these types, and of one that is known.
pub(crate) fn first_of(best: Option<Fault>, types: &[JudgedType]) -> Option<Fault>
    ensures { result ≡ spec.first_of best types.now }
{
    let mut best = best;
    for judged in types {
        best = sooner_if(best, judged.fault);
    }
    best
}

fn sooner_if(best: Option<Fault>, fault: Option<Fault>) -> Option<Fault>
    ensures { result ≡ spec.sooner_if best fault }
{
    match fault {
        Some(fault) => sooner(best, fault),
        None => best,
    }
}
