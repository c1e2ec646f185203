//! Faults at the places of complex types.

ghost use Rattle.std.specs.Prelude.{◌≡◌, ◌<◌, length};
ghost use Rattle.schema_models.specs.SetModels.{type_fault, code_of, place_of};
ghost use Rattle.schema_models.specs.inside.Steps.{is_elsewhere};

use crate::ModelFault;
use xs_codes::{Code, Fault};
use xs_components::{ComplexId, Components, Place};

// The phase of compiling that looks at content models.
const PHASE: u8 = 8;

// The code of what is broken of a content model.
fn code_of(kind: ModelFault) -> Code
    ensures { result ≡ code_of kind }
{
    match kind {
        ModelFault::TooManyPositions => Code::XLimitPositions,
        ModelFault::TooManyStates => Code::XLimitStates,
        ModelFault::TableTooLarge => Code::XLimitTable,
        ModelFault::Inconsistent => Code::CosElementConsistent,
        ModelFault::Ambiguous => Code::CosNonambig,
    }
}

/// The fault of a complex type whose content model has something broken.
pub(crate) fn type_fault(parts: &Components, id: ComplexId, kind: ModelFault) -> Fault
    requires { id < length parts.now.complexes.parts }
    ensures { result ≡ type_fault parts.now id (code_of kind) }
{
    let at = parts.complex(id).at;
    Fault {
        phase: PHASE,
        document: at.document,
        item: at.item,
        code: code_of(kind),
    }
}

/// Whether there is a fault, and it stands at another place.
pub(crate) fn is_elsewhere(fault: Option<Fault>, at: Place) -> bool
    ensures { result ≡ is_elsewhere fault at }
{
    match fault {
        None => false,
        Some(fault) => fault.document != at.document || fault.item != at.item,
    }
}
