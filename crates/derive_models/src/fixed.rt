//! The fixed value of an element declaration.

ghost use Rattle.std.specs.Prelude.{◌≡◌, ◌<◌, length, IfOk};
ghost use Rattle.element_declarations.specs.Values.{read_type};
ghost use Rattle.derive_models.specs.inside.Numbered as inside;

use crate::set::ElementSet;
use element_declarations::{read_by, text_key};
use simple_types::SimpleTypes;
use simple_values::Key;
use std::alloc::{AllocError, Global};
use xs_components::{ElementId, TypeId};

// The type by which the text of a constraint on an element is read.
fn text_type(set: &ElementSet<'_>, id: ElementId) -> TypeId
    requires found { inside.IsFound set.now }
    ensures { result ≡ read_type set.now.parts.now id }
{
    let of = set.declarations.type_of(id);
    let content = set.contents.content_of(of);
    read_by(&of, content)
}

/// The key of the fixed value of an element declaration, if it has one: its text is read in the scope of the schema element that
/// carries it, by the type of the element, or as a string where that is not simple and has no simple content.
pub(crate) fn fixed_key(
    alloc: Global,
    set: &ElementSet<'_>,
    types: &mut SimpleTypes,
    id: ElementId,
) -> Result<Option<Key>, AllocError>
    requires found { inside.IsFound set.now }
    requires read { inside.AreRead set.now.parts.now types.old }
    requires there { id < length set.now.parts.now.elements.parts }
    ensures key { IfOk result (inside.IsFixedKey set.now.parts.now id) }
    ensures same { types.new ≡ types.old }
{
    match &set.parts.element(id).value {
        None => Ok(None),
        Some(constraint) => {
            if constraint.fixed {
                let of = text_type(set, id);
                text_key(alloc, types, of, constraint)
            } else {
                Ok(None)
            }
        }
    }
}
