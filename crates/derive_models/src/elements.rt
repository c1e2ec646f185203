//! Element declarations, as the restriction of particles compares them.

ghost use Rattle.std.specs.Prelude.{◌≡◌, ◌<◌, ℕ, None, Some, length, slice_get, slice_index_or, IfOk};
ghost use Rattle.xs_components.specs.declared.element.ElementDecl.{ElementDecl as ElementValue};
ghost use Rattle.component_tables.specs.Types.{AreDeclarationsOf};
ghost use Rattle.derive_models.specs.Terms as spec;
ghost use Rattle.derive_models.specs.Terms.{AreElementsNamed};
ghost use Rattle.derive_models.specs.Steps.{AreElements};

use component_tables::Declarations;
use particle_restrict::{Declaration, Term};
use std::alloc::{AllocError, Global};
use xs_components::{Components, ElementId};
use xs_names::Names;

/// The terms of all element declarations, by their numbers.
pub(crate) fn elements_of(
    alloc: Global,
    names: &Names,
    parts: &Components,
    declarations: &Declarations,
    fixed: &[Option<u32>],
) -> Result<Vec<Term>, AllocError>
    requires named { AreElementsNamed parts.now names.now }
    requires declarations { AreDeclarationsOf parts.now declarations.now }
    ensures terms { IfOk result (λ terms. AreElements parts.now names.now fixed.now (length parts.now.elements.parts) terms.items) }
{
    let mut terms = Vec::new(alloc);
    let mut number = 0;
    while let Some(id) = parts.element_at(number) {
        let declaration = declaration_of(names, parts, declarations, fixed, id)?;
        terms.push(Term::Element(declaration))?;
        number += 1;
    }
    Ok(terms)
}

// What the restriction of particles looks at of an element declaration.
fn declaration_of(
    names: &Names,
    parts: &Components,
    declarations: &Declarations,
    fixed: &[Option<u32>],
    id: ElementId,
) -> Result<Declaration, AllocError>
    requires there { id < length parts.now.elements.parts }
    requires named { AreElementsNamed parts.now names.now }
    requires declarations { AreDeclarationsOf parts.now declarations.now }
    ensures { IfOk result (λ declaration. (part : ElementValue) → slice_get parts.now.elements.parts id ≡ Some part → declaration ≡ spec.declaration_of parts.now names.now fixed.now id part) }
{
    let part = parts.element(id);
    Ok(Declaration {
        name: part.name,
        space: names.ns(part.name),
        nillable: part.nillable,
        fixed: number_of(fixed, id),
        constraints: part.constraints.clone()?,
        blocks: part.blocks,
        of: declarations.type_of(id),
    })
}

// The number of an element's fixed value.
fn number_of(fixed: &[Option<u32>], id: ElementId) -> Option<u32>
    ensures { result ≡ slice_index_or fixed.now id None }
{
    match fixed.get(id.number() as usize) {
        Some(number) => *number,
        None => None,
    }
}
