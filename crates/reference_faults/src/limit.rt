ghost use Rattle.std.specs.Prelude.{◌≡◌, ◌+◌, ◌*◌, ◌^◌, ◌<◌, All, IfOk};
ghost use Rattle.reference_faults.specs.Limit as spec;
ghost use Rattle.reference_faults.specs.inside.Limits.{IsLimit};

use representations::{Representation, Represented};
use std::alloc::{AllocError, Global};
use xs_components::Place;

/// The number of components that a schema set may have.
pub const MAX_COMPONENTS: usize = 65_536;

// Whether a component is represented.
fn is_component(form: &Represented) -> bool
    ensures { result ≡ spec.is_component form.now }
{
    match form {
        Represented::Element(element) => element.name.is_some(),
        Represented::Attribute(attribute) => attribute.name.is_some(),
        Represented::SimpleType { .. } => true,
        Represented::ComplexType(_) => true,
        Represented::Group { .. } => true,
        Represented::AttributeGroup { .. } => true,
        Represented::Unique { .. } => true,
        Represented::Key { .. } => true,
        Represented::Keyref { .. } => true,
        _ => false,
    }
}

// A place as a number, by document, then item.
fn place_number(at: Place) -> u64
    ensures number { result ≡ at.document * 2 ^ 32 + at.item }
    ensures within { at.item < 2 ^ 32 }
{
    at.document as u64 * 4_294_967_296 + at.item as u64
}

// A place, the item of which is a number of 32 bits.
fn counted(at: Place) -> Place
    ensures same { result ≡ at }
    ensures within { at.item < 2 ^ 32 }
{
    at
}

// Where all components are represented.
fn component_places(alloc: Global, reps: &[Representation]) -> Result<Vec<Place>, AllocError>
    ensures places { IfOk result (λ places. places.items ≡ spec.component_places reps.now) }
    ensures within { IfOk result (λ places. All (λ at. at.item < 2 ^ 32) places.items) }
{
    let mut places = Vec::new(alloc);
    for rep in reps {
        if !is_component(&rep.form) {
            continue;
        }
        places.push(counted(rep.at))?;
    }
    Ok(places)
}

/// The place of the first component past the limit, by document and item.
pub(crate) fn past_limit(
    alloc: Global,
    reps: &[Representation],
) -> Result<Option<Place>, AllocError>
    ensures limit { IfOk result (IsLimit (spec.component_places reps.now)) }
{
    let mut places = component_places(alloc, reps)?;
    if places.len() <= MAX_COMPONENTS {
        return Ok(None);
    }
    places.sort_by_key(|at| place_number(*at))?;
    Ok(Some(places[MAX_COMPONENTS]))
}
