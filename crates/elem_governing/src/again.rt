//! What governs an element again.

ghost use Rattle.std.specs.Prelude.{◌≡◌, ℕ, List, Option, IfOk};
ghost use Rattle.std.specs.Option.{option_map};
ghost use Rattle.xs_names.specs.Names.{NameTable};
ghost use Rattle.xs_components.specs.Tables.{Tables};
ghost use Rattle.assess_records.specs.Numbered.{Scope as Prefixes};
ghost use Rattle.elem_governing.specs.Governing as spec;
ghost use Rattle.elem_governing.specs.View.{IsView, AreKnown};
ghost use Rattle.elem_governing.specs.declared.pairs.Mode.{Mode as Strictness};
ghost use Rattle.elem_governing.specs.Again.{regoverned};

use crate::{Governing, Mode, SchemaView, XsiType, xsi_type};
use std::alloc::{AllocError, Global};
use xs_components::{ElementId, TypeId};
use xs_names::{Scope, Text};

/// What governs an element (Structures 3.3.4, 5.2) that was governed so, by its attribute xsi:type as it is now, if there is one:
/// its declaration, and how strictly it is assessed, go by its name and its place and stay.
///
/// # Errors
///
/// `AllocError` is want of memory.
pub fn regovern(
    alloc: Global,
    view: &SchemaView<'_>,
    pair: Governing,
    xsi: Option<&Text>,
    scope: &Scope,
) -> Result<Governing, AllocError>
    requires view { IsView view.now.parts.now view.now.declarations.now view.now.named.now }
    requires scope { AreKnown view.now.names.now scope.now }
    ensures pair { IfOk result (λ new. new ≡ regoverned view.now.names.now view.now.parts.now pair (option_map (λ x. x.now) xsi.entry) scope.now) }
{
    if pair.mode == Mode::Skip {
        return Ok(skipped());
    }
    let declaration = pair.declaration;
    let of = governing_type(alloc, view, &declaration, xsi, scope)?;
    Ok(Governing {
        declaration,
        of: Some(of),
        mode: pair.mode,
    })
}

// What governs an element that is skipped: nothing.
fn skipped() -> Governing
    ensures { result ≡ spec.skipped }
{
    Governing {
        declaration: None,
        of: None,
        mode: Mode::Skip,
    }
}

// The type that governs an element with this declaration, if any.
fn governing_type(
    alloc: Global,
    view: &SchemaView<'_>,
    declaration: &Option<ElementId>,
    xsi: Option<&Text>,
    scope: &Scope,
) -> Result<TypeId, AllocError>
    requires view { IsView view.now.parts.now view.now.declarations.now view.now.named.now }
    requires scope { AreKnown view.now.names.now scope.now }
    ensures { IfOk result (λ of. of ≡ spec.governing_type view.now.names.now view.now.parts.now declaration.now (option_map (λ x. x.now) xsi.entry) scope.now) }
{
    match xsi_type(alloc, view, *declaration, xsi, scope)? {
        XsiType::Governs(of) => Ok(of),
        XsiType::Absent | XsiType::NotQName | XsiType::Unresolved | XsiType::NotDerived => {
            Ok(type_declared(view, declaration))
        }
    }
}

// The type of a declaration, anyType without one.
fn type_declared(view: &SchemaView<'_>, declaration: &Option<ElementId>) -> TypeId
    requires view { IsView view.now.parts.now view.now.declarations.now view.now.named.now }
    ensures { result ≡ spec.declared_type view.now.parts.now declaration.now }
{
    match declaration {
        None => TypeId::AnyType,
        Some(element) => view.declarations.type_of(*element),
    }
}

/// An element that is governed again so is governed as it would be by its parent, by its term and by its name, or as the root, with
/// the attribute and the scope that it has now.
pub fn pairs_are_governed_again()
    ensures child { (names : NameTable) (t : Tables) (mode : Strictness) (term : Option ℕ) (name : ℕ) (xsi now : Option (List ℕ)) (scope inner : Prefixes) →
        regoverned names t (spec.govern_child names t mode term name xsi scope) now inner ≡ spec.govern_child names t mode term name now inner }
    ensures root { (names : NameTable) (t : Tables) (name : ℕ) (xsi now : Option (List ℕ)) (scope inner : Prefixes) →
        regoverned names t (spec.govern_root names t name xsi scope) now inner ≡ spec.govern_root names t name now inner }
{}
