ghost use Rattle.std.specs.Prelude.{◌≡◌, ◌<◌, ◌≤◌, Some, length, slice_get};
ghost use Rattle.std.specs.Option.{option_copied, option_map};
ghost use Rattle.schema_set.specs.EffectiveSet.{own_target};
ghost use Rattle.schema_set.specs.Order as spec;

use crate::Available;
use schema_shape::{Form, ShapedSchema};
use xs_names::Text;

/// The target namespace that the schema element says.
pub fn own_target(shaped: &ShapedSchema) -> Option<&Text>
    ensures { option_copied result ≡ own_target shaped.now.shapes }
{
    match shaped.shapes.get(0) {
        None => None,
        Some(shape) => match &shape.form {
            Form::Schema(form) => form.target.as_ref(),
            _ => None,
        },
    }
}

/// Whether two target namespaces are the same.
pub fn is_same(a: Option<&Text>, b: Option<&Text>) -> bool
    ensures { result ≡ spec.same_target (option_copied a.entry) (option_copied b.entry) }
{
    match (a, b) {
        (None, None) => true,
        (None, Some(_)) => false,
        (Some(_), None) => false,
        (Some(a), Some(b)) => a.as_str() == b.as_str(),
    }
}

// How many documents stand before the first with this target namespace.
pub(crate) fn target_place(available: &[Available], target: Option<&Text>) -> usize
    ensures place { result ≡ spec.target_place available.now (option_copied target.entry) }
    ensures within { result ≤ length available.now }
{
    let mut place = 0;
    for document in available {
        if is_same(own_target(&document.shaped), target) {
            return place;
        }
        place += 1;
    }
    place
}

// What the document at a place declares.
pub(crate) fn shaped_at(available: &[Available], place: usize) -> &ShapedSchema
    requires { place < length available.now }
    ensures { option_map (λ a. a.shaped) (slice_get available.now place) ≡ Some result.now }
{
    &available[place].shaped
}
