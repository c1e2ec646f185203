//! What the attribute xsi:type of an element says.

ghost use Rattle.std.specs.Prelude.{◌≡◌, IfOk, slice_get};
ghost use Rattle.std.specs.Option.{option_map};
ghost use Rattle.component_references.specs.Heights.{IsType};
ghost use Rattle.component_tables.specs.Types.{type_of};
ghost use Rattle.elem_governing.specs.LocalType as spec;
ghost use Rattle.elem_governing.specs.View.{IsView, AreKnown};

use crate::SchemaView;
use crate::derivation::is_derived;
use std::alloc::{AllocError, Global};
use xs_components::{Components, ElementId, Methods, TypeId};
use xs_names::{Scope, Text, WhiteSpace, normalized, split_qname};

/// What the attribute xsi:type of an element says (Structures 2.6.1, 3.3.4).
#[derive(Clone, Copy)]
pub enum XsiType {
    /// There is no such attribute.
    Absent,
    /// Its value is no QName with a prefix that is bound (cvc-elt.4.1).
    NotQName,
    /// It names no type (cvc-elt.4.2).
    Unresolved,
    /// It names a type that may not stand for the declared one (cvc-elt.4.3).
    NotDerived,
    /// It names the type that governs the element.
    Governs(TypeId),
}

/// What the attribute xsi:type, if there is one, says on an element with this declaration, if it has one, in its scope
/// (Structures 3.3.4).
///
/// # Errors
///
/// `AllocError` is want of memory.
pub fn xsi_type(
    alloc: Global,
    view: &SchemaView<'_>,
    declaration: Option<ElementId>,
    xsi: Option<&Text>,
    scope: &Scope,
) -> Result<XsiType, AllocError>
    requires view { IsView view.now.parts.now view.now.declarations.now view.now.named.now }
    requires scope { AreKnown view.now.names.now scope.now }
    ensures says { IfOk result (λ said. said ≡ spec.xsi_type view.now.names.now view.now.parts.now declaration (option_map (λ x. x.now) xsi.entry) scope.now) }
{
    let Some(text) = xsi else {
        return Ok(XsiType::Absent);
    };
    let value = normalized(alloc, WhiteSpace::Collapse, text.as_str())?;
    by_text(alloc, view, declaration, value.as_str(), scope)
}

// What a text says whose white space is collapsed.
fn by_text(
    alloc: Global,
    view: &SchemaView<'_>,
    declaration: Option<ElementId>,
    text: &str,
    scope: &Scope,
) -> Result<XsiType, AllocError>
    requires view { IsView view.now.parts.now view.now.declarations.now view.now.named.now }
    requires scope { AreKnown view.now.names.now scope.now }
    ensures { IfOk result (λ said. said ≡ spec.by_name view.now.names.now view.now.parts.now declaration (spec.name_of_text scope.now text.now)) }
{
    let Ok((prefix, local)) = split_qname(text) else {
        return Ok(XsiType::NotQName);
    };
    let Ok(space) = scope.resolve(prefix) else {
        return Ok(XsiType::NotQName);
    };
    match view.named.named_type(view.names, view.parts, space, local) {
        None => Ok(XsiType::Unresolved),
        Some(of) => by_type(alloc, view, declaration, of),
    }
}

// What the name of a type says.
fn by_type(
    alloc: Global,
    view: &SchemaView<'_>,
    declaration: Option<ElementId>,
    of: TypeId,
) -> Result<XsiType, AllocError>
    requires view { IsView view.now.parts.now view.now.declarations.now view.now.named.now }
    requires there { IsType view.now.parts.now of }
    ensures { IfOk result (λ said. said ≡ spec.said_of (spec.may_govern view.now.parts.now declaration of) of) }
{
    if may_govern(alloc, view, declaration, &of)? {
        Ok(XsiType::Governs(of))
    } else {
        Ok(XsiType::NotDerived)
    }
}

// Whether a type may stand for the declared one.
fn may_govern(
    alloc: Global,
    view: &SchemaView<'_>,
    declaration: Option<ElementId>,
    of: &TypeId,
) -> Result<bool, AllocError>
    requires view { IsView view.now.parts.now view.now.declarations.now view.now.named.now }
    requires there { IsType view.now.parts.now of.now }
    ensures { IfOk result (λ answer. answer ≡ spec.may_govern view.now.parts.now declaration of.now) }
{
    let Some(element) = declaration else {
        return Ok(true);
    };
    let declared = declared_type(view, element);
    let excluded = both(
        declaration_blocks(view.parts, element),
        type_blocks(view.parts, &declared),
    );
    is_derived(
        alloc,
        view.parts,
        view.declarations.bases(),
        *of,
        declared,
        &excluded,
    )
}

/// The type of a declaration.
pub(crate) fn declared_type(view: &SchemaView<'_>, element: ElementId) -> TypeId
    requires view { IsView view.now.parts.now view.now.declarations.now view.now.named.now }
    ensures of { result ≡ type_of view.now.parts.now element }
    ensures there { IsType view.now.parts.now result }
{
    view.declarations.type_of(element)
}

// No methods.
fn no_methods() -> Methods
    ensures { result ≡ spec.no_methods }
{
    Methods {
        extension: false,
        restriction: false,
        substitution: false,
        by_list: false,
        by_union: false,
    }
}

// The methods of two sets.
fn both(a: Methods, b: Methods) -> Methods
    ensures { result ≡ spec.both a b }
{
    Methods {
        extension: a.extension || b.extension,
        restriction: a.restriction || b.restriction,
        substitution: a.substitution || b.substitution,
        by_list: a.by_list || b.by_list,
        by_union: a.by_union || b.by_union,
    }
}

// The methods by which no type may stand for one in a document.
fn type_blocks(parts: &Components, of: &TypeId) -> Methods
    ensures { result ≡ spec.type_blocks parts.now of.now }
{
    match of {
        TypeId::AnyType => no_methods(),
        TypeId::Builtin(_) => no_methods(),
        TypeId::Simple(_) => no_methods(),
        TypeId::Complex(id) => match parts.complexes().get(id.number() as usize) {
            None => no_methods(),
            Some(part) => part.blocks,
        },
    }
}

// The methods by which no type may stand for that of a declaration.
fn declaration_blocks(parts: &Components, element: ElementId) -> Methods
    ensures { result ≡ spec.declaration_blocks (slice_get parts.now.elements.parts element) }
{
    match parts.elements().get(element.number() as usize) {
        None => no_methods(),
        Some(part) => part.blocks,
    }
}
