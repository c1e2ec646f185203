ghost use Rattle.std.specs.Prelude.{◌≡◌, ◌<◌, ℕ, Some, length, IfSome};
ghost use Rattle.xs_components.specs.Changes.{with_head};
ghost use Rattle.set_representations.specs.Numbers.{number_at};
ghost use Rattle.set_representations.specs.inside.Changes.{changed_at, changes};
ghost use Rattle.build_components.specs.Elements as spec;

use representations::{Representation, Represented, Source};
use set_representations::{number_at, number_named};
use xs_components::{Components, ElementId};

// The head that is named, if one is.
fn head_of(
    source: &Source,
    elements: &[Option<ElementId>],
    rep: &Representation,
) -> Option<ElementId>
    ensures { result ≡ spec.head_of source.now elements.now rep.now }
{
    match &rep.form {
        Represented::Element(element) => {
            number_named(elements, &source.spaces.elements, element.head?)
        }
        _ => None,
    }
}

// Writes the head of an element, if both are there.
fn set_head(parts: &mut Components, id: Option<ElementId>, head: Option<ElementId>)
    requires { IfSome id (λ id. id < length parts.old.elements.parts) }
    ensures { parts.new ≡ record parts.old { elements = record parts.old.elements { parts = changed_at with_head parts.old.elements.parts id head } } }
{
    if let Some(id) = id {
        if let Some(head) = head {
            parts.set_head(id, head);
        }
    }
}

/// Writes the heads of all elements.
pub(crate) fn set_heads(parts: &mut Components, source: &Source, elements: &[Option<ElementId>])
    requires there { (place n : ℕ) → number_at elements.now place ≡ Some n → n < length parts.old.elements.parts }
    ensures { parts.new ≡ record parts.old { elements = record parts.old.elements { parts = changes with_head (spec.head_of source.now elements.now) parts.old.elements.parts elements.now source.now.reps.now } } }
{
    for (place, rep) in source.reps.iter().enumerate() {
        set_head(
            parts,
            number_at(elements, place),
            head_of(source, elements, rep),
        );
    }
}
