//! What governs the root of a document, and a child of an element.

ghost use Rattle.std.specs.Prelude.{◌≡◌, ℕ, List, None, IfOk, slice_get};
ghost use Rattle.std.specs.Option.{option_map};
ghost use Rattle.elem_governing.specs.Governing as spec;
ghost use Rattle.elem_governing.specs.View.{IsView, AreKnown};

use crate::local_types::declared_type;
use crate::{Governing, Mode, SchemaView, XsiType, xsi_type};
use std::alloc::{AllocError, Global};
use xs_components::{ElementId, Particle, Process, Term, TermId, TypeId};
use xs_names::{NameId, Scope, Text};

/// What governs the root of a document that has this name (Structures 3.3.4, 5.2), by its attribute xsi:type, if there is
/// one, in its scope.
///
/// # Errors
///
/// `AllocError` is want of memory.
pub fn govern_root(
    alloc: Global,
    view: &SchemaView<'_>,
    name: NameId,
    xsi: Option<&Text>,
    scope: &Scope,
) -> Result<Governing, AllocError>
    requires view { IsView view.now.parts.now view.now.declarations.now view.now.named.now }
    requires scope { AreKnown view.now.names.now scope.now }
    ensures pair { IfOk result (λ pair. pair ≡ spec.govern_root view.now.names.now view.now.parts.now name (option_map (λ x. x.now) xsi.entry) scope.now) }
{
    governed(
        alloc,
        view,
        Mode::Strict,
        view.declarations.global(name),
        xsi,
        scope,
    )
}

/// What governs a child that has this name (Structures 3.3.4, 3.4.4, 3.10.1, 5.2), by what governs its parent, by the term of
/// the parent's content model that accepts the child, if one does, and by its attribute xsi:type, if there is one, in its
/// scope. A parent without element content has no term for it.
///
/// # Errors
///
/// `AllocError` is want of memory.
pub fn govern_child(
    alloc: Global,
    view: &SchemaView<'_>,
    parent: Governing,
    term: Option<TermId>,
    name: NameId,
    xsi: Option<&Text>,
    scope: &Scope,
) -> Result<Governing, AllocError>
    requires view { IsView view.now.parts.now view.now.declarations.now view.now.named.now }
    requires scope { AreKnown view.now.names.now scope.now }
    ensures pair { IfOk result (λ pair. pair ≡ spec.govern_child view.now.names.now view.now.parts.now parent.mode term name (option_map (λ x. x.now) xsi.entry) scope.now) }
{
    let part = accepting_particle(view, term);
    let mode = child_mode(parent.mode, part);
    let declaration = particle_declaration(view, part, name);
    governed(alloc, view, mode, declaration, xsi, scope)
}

/// What governs a child that has this name and no attribute xsi:type: what `govern_child` answers, which reads no scope then.
pub fn govern_untyped_child(
    view: &SchemaView<'_>,
    parent: Governing,
    term: Option<TermId>,
    name: NameId,
) -> Governing
    requires view { IsView view.now.parts.now view.now.declarations.now view.now.named.now }
    ensures pair { (scope : List (List ℕ × ℕ)) → result ≡ spec.govern_child view.now.names.now view.now.parts.now parent.mode term name None scope }
{
    let part = accepting_particle(view, term);
    let declaration = particle_declaration(view, part, name);
    match child_mode(parent.mode, part) {
        Mode::Skip => skipped(),
        mode => Governing {
            declaration,
            of: Some(type_declared(view, &declaration)),
            mode,
        },
    }
}

// What governs an element with this declaration, if any, that is assessed in this mode.
fn governed(
    alloc: Global,
    view: &SchemaView<'_>,
    mode: Mode,
    declaration: Option<ElementId>,
    xsi: Option<&Text>,
    scope: &Scope,
) -> Result<Governing, AllocError>
    requires view { IsView view.now.parts.now view.now.declarations.now view.now.named.now }
    requires scope { AreKnown view.now.names.now scope.now }
    ensures { IfOk result (λ pair. pair ≡ spec.governed view.now.names.now view.now.parts.now mode declaration (option_map (λ x. x.now) xsi.entry) scope.now) }
{
    if mode == Mode::Skip {
        return Ok(skipped());
    }
    let of = governing_type(alloc, view, &declaration, xsi, scope)?;
    Ok(Governing {
        declaration,
        of: Some(of),
        mode,
    })
}

// What governs an element that is skipped: nothing.
fn skipped() -> Governing
    ensures { result ≡ spec.skipped }
{
    Governing {
        declaration: None,
        of: None,
        mode: Mode::Skip,
    }
}

// The type that governs an element with this declaration, if any.
fn governing_type(
    alloc: Global,
    view: &SchemaView<'_>,
    declaration: &Option<ElementId>,
    xsi: Option<&Text>,
    scope: &Scope,
) -> Result<TypeId, AllocError>
    requires view { IsView view.now.parts.now view.now.declarations.now view.now.named.now }
    requires scope { AreKnown view.now.names.now scope.now }
    ensures { IfOk result (λ of. of ≡ spec.governing_type view.now.names.now view.now.parts.now declaration.now (option_map (λ x. x.now) xsi.entry) scope.now) }
{
    match xsi_type(alloc, view, *declaration, xsi, scope)? {
        XsiType::Governs(of) => Ok(of),
        XsiType::Absent | XsiType::NotQName | XsiType::Unresolved | XsiType::NotDerived => {
            Ok(type_declared(view, declaration))
        }
    }
}

// The type of a declaration, anyType without one.
fn type_declared(view: &SchemaView<'_>, declaration: &Option<ElementId>) -> TypeId
    requires view { IsView view.now.parts.now view.now.declarations.now view.now.named.now }
    ensures { result ≡ spec.declared_type view.now.parts.now declaration.now }
{
    match declaration {
        None => TypeId::AnyType,
        Some(element) => declared_type(view, *element),
    }
}

// The particle whose term accepts a child, if one does.
fn accepting_particle<'a>(view: &SchemaView<'a>, term: Option<TermId>) -> Option<&'a Particle>
    ensures { option_map (λ p. p.now) result ≡ spec.accepting_particle view.now.parts.now term }
{
    match term {
        None => None,
        Some(term) => view.parts.particles().get(term.number() as usize),
    }
}

// How a child is assessed.
fn child_mode(parent: Mode, part: Option<&Particle>) -> Mode
    ensures { result ≡ spec.child_mode parent (option_map (λ p. p.now) part.entry) }
{
    if parent == Mode::Skip {
        return Mode::Skip;
    }
    match part {
        None => Mode::Lax,
        Some(part) => term_mode(&part.term),
    }
}

// How what a term accepts is assessed.
fn term_mode(term: &Term) -> Mode
    ensures { result ≡ spec.term_mode term.now }
{
    match term {
        Term::Element(_) => Mode::Strict,
        Term::Any(wildcard) => process_mode(wildcard.process),
        Term::Group(_) | Term::Sequence(_) | Term::Choice(_) | Term::All(_) => Mode::Lax,
    }
}

// How what a wildcard admits is assessed.
fn process_mode(process: Process) -> Mode
    ensures { result ≡ spec.process_mode process }
{
    match process {
        Process::Strict => Mode::Strict,
        Process::Lax => Mode::Lax,
        Process::Skip => Mode::Skip,
    }
}

// The declaration that a particle's term gives to a name.
fn particle_declaration(
    view: &SchemaView<'_>,
    part: Option<&Particle>,
    name: NameId,
) -> Option<ElementId>
    requires view { IsView view.now.parts.now view.now.declarations.now view.now.named.now }
    ensures { result ≡ spec.particle_declaration view.now.parts.now name (option_map (λ p. p.now) part.entry) }
{
    match part {
        None => view.declarations.global(name),
        Some(part) => term_declaration(view, &part.term, name),
    }
}

// The declaration that a term gives to a name.
fn term_declaration(view: &SchemaView<'_>, term: &Term, name: NameId) -> Option<ElementId>
    requires view { IsView view.now.parts.now view.now.declarations.now view.now.named.now }
    ensures { result ≡ spec.term_declaration view.now.parts.now name term.now }
{
    match term {
        Term::Element(element) => Some(view.declarations.given(view.parts, *element, name)),
        Term::Any(_) | Term::Group(_) | Term::Sequence(_) | Term::Choice(_) | Term::All(_) => {
            view.declarations.global(name)
        }
    }
}
