//! The declarations of elements, and what they say of identity constraints.

ghost use Rattle.std.specs.Prelude.{◌≡◌};
ghost use Rattle.std.specs.Option.{option_copied};
ghost use Rattle.xs_components.specs.Tables.{Tables};
ghost use Rattle.component_tables.specs.ContentTypes.{AreContentsOf};
ghost use Rattle.identity_constraints.specs.Targets as spec;
ghost use Rattle.path_walk.specs.Sight.{seen};

use crate::KeySight;
use component_tables::{ContentType, ContentTypes};
use xs_components::{Components, ConstraintId, ElementDecl, TypeId};

/// The declaration that governs an element, if one does.
pub fn declaration_of<'a>(parts: &'a Components, own: &KeySight<'_>) -> Option<&'a ElementDecl>
    ensures { option_copied result ≡ spec.declaration_of parts.now (seen own.now) }
{
    match own.declaration {
        None => None,
        Some(id) => parts.elements().get(id.number() as usize),
    }
}

/// The identity constraints of an element, in the order of its declaration.
pub fn constraints_of<'a>(parts: &'a Components, own: &KeySight<'_>) -> &'a [ConstraintId]
    ensures { result.now ≡ spec.constraints_of parts.now (seen own.now) }
{
    match declaration_of(parts, own) {
        None => &[],
        Some(decl) => decl.constraints.as_slice(),
    }
}

/// Whether the declaration of an element is nillable.
pub(crate) fn is_nillable(parts: &Components, own: &KeySight<'_>) -> bool
    ensures { result ≡ spec.declares_nillable parts.now (spec.declaration_of parts.now (seen own.now)) }
{
    match declaration_of(parts, own) {
        None => false,
        Some(decl) => decl.nillable,
    }
}

// Whether a type with this content is complex without simple content.
fn is_structured(content: ContentType) -> bool
    ensures { result ≡ spec.is_structured content }
{
    match content {
        ContentType::SimpleType | ContentType::SimpleContent => false,
        ContentType::Empty | ContentType::ElementOnly | ContentType::Mixed => true,
    }
}

/// Whether a complex type without simple content governs.
pub(crate) fn governs_structure(contents: &ContentTypes, of: Option<TypeId>) -> bool
    ensures { (t : Tables) → AreContentsOf t contents.now → result ≡ spec.governs_structure t of }
{
    match of {
        None => false,
        Some(of) => is_structured(contents.content_of(of)),
    }
}
