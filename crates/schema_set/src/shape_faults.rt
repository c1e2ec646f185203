ghost use Rattle.std.specs.Prelude.{◌≡◌, ◌-◌, ◌<◌, ℕ, List, All, Contains, slice_get};
ghost use Rattle.xs_codes.specs.Least.{IsLeast};
ghost use Rattle.schema_set.specs.Documents as spec;
ghost use Rattle.schema_set.specs.inside.Reads as inside;
ghost use Rattle.schema_set.specs.declared.inputs.SchemaInput.{SchemaInput as SchemaInputData};
ghost use Rattle.std.specs.List.{flat_map};

use crate::SetDocument;
use xs_codes::{Fault, sooner};

// The fault of the document of this number, if it has one.
fn fault_of(faults: &[Option<Fault>], number: u32) -> Option<Fault>
    requires number { 0 < number }
    ensures { result ≡ inside.fault_in faults.now number }
{
    match faults.get(number as usize - 1) {
        None => None,
        Some(fault) => *fault,
    }
}

// The first of the faults that documents have.
fn first_of(faults: &[Option<Fault>], set: &[SetDocument<'_>]) -> Option<Fault>
    requires numbers { All (λ d. 0 < d.number) set.now }
    ensures least { IsLeast (Contains (flat_map (inside.document_faults faults.now) set.now)) result }
{
    let mut first = None;
    for document in set {
        let found = fault_of(faults, document.number);
        first = sooner(first, found);
    }
    first
}

/// The first constraint on its shape that a document of a set breaks: by document, element and the order of the codes.
pub fn first_shape_fault(faults: &[Option<Fault>], set: &[SetDocument<'_>]) -> Option<Fault>
    requires numbers { All (λ d. 0 < d.number) set.now }
    ensures least { (inputs : List SchemaInputData) (start : ℕ) → faults.now ≡ spec.shape_faults inputs → spec.IsSet inputs start set.now → IsLeast (spec.IsShapeFault inputs start) result }
{
    first_of(faults, set)
}
