//! The content models of types.

ghost use Rattle.std.specs.Prelude.{◌≡◌, None, slice_index_or};
ghost use Rattle.std.specs.Option.{option_copied};
ghost use Rattle.kept_records.specs.Fit.{models_of};

use compiled_schema::Compiled;
use content_models::ContentAutomaton;
use xs_components::{ComplexId, TypeId};

// That of a complex type.
fn complex_model(compiled: &Compiled, id: ComplexId) -> Option<&ContentAutomaton>
    ensures { option_copied result ≡ slice_index_or compiled.now.models id None }
{
    compiled.models.automaton(id)
}

/// The automaton of the content model of a type, if it has one. The content of anyType, which admits all elements laxly, has none
/// (Structures 3.4.7).
pub fn model_of(compiled: &Compiled, of: Option<TypeId>) -> Option<&ContentAutomaton>
    ensures { option_copied result ≡ models_of compiled.now of }
{
    match &of {
        Some(TypeId::Complex(id)) => complex_model(compiled, *id),
        _ => None,
    }
}
