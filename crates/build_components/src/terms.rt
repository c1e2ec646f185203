ghost use Rattle.std.specs.Prelude.{◌≡◌, length, IfOk, OnOk};
ghost use Rattle.set_representations.specs.Numbers.{number_of, with_parts};
ghost use Rattle.build_components.specs.Terms as spec;

use crate::contents::{explicit_content, has_simple_content, holder, is_mixed};
use build_types::copied_wildcard;
use representations::{
    ComplexTypeRepresentation, ElementRepresentation, Representation, Represented, Source,
};
use set_representations::{number_at, number_named, numbers_in};
use std::alloc::{AllocError, Global};
use xs_components::{Components, ElementId, GroupId, Particle, ParticleId, Term};
use xs_lists::Listed;
use xs_names::NameId;

/// The numbers by which particles are built, by place.
#[derive(Clone, Copy)]
pub(crate) struct TermNumbers<'a> {
    pub(crate) elements: &'a [Option<ElementId>],
    pub(crate) groups: &'a [Option<GroupId>],
    /// Of the particles behind.
    pub(crate) particles: &'a [Option<ParticleId>],
}

// The element that is referred to, or that is declared at the place.
fn meant_element(
    source: &Source,
    elements: &[Option<ElementId>],
    reference: Option<NameId>,
    place: usize,
) -> Option<ElementId>
    ensures { result ≡ spec.meant_element source.now elements.now reference place }
{
    match reference {
        Some(name) => number_named(elements, &source.spaces.elements, name),
        None => number_at(elements, place),
    }
}

// The term of an element that is no declaration at the top.
fn element_term(
    source: &Source,
    elements: &[Option<ElementId>],
    element: &ElementRepresentation,
    place: usize,
) -> Option<Term>
    ensures { result ≡ spec.element_term source.now elements.now element.now place }
{
    if element.global {
        return None;
    }
    Some(Term::Element(meant_element(source, elements, element.reference, place)?))
}

// The term of a reference to a group.
fn group_term(source: &Source, groups: &[Option<GroupId>], to: Option<NameId>) -> Option<Term>
    ensures { result ≡ spec.group_term source.now groups.now to }
{
    Some(Term::Group(number_named(groups, &source.spaces.groups, to?)?))
}

// The term that is represented at a place, if one is.
fn term_at(
    alloc: Global,
    source: &Source,
    numbers: &TermNumbers,
    place: usize,
    rep: &Representation,
) -> Result<Option<Term>, AllocError>
    ensures { IfOk result (λ term. term ≡ spec.term_by source.now numbers.now.elements.now numbers.now.groups.now numbers.now.particles.now rep.now.form place rep.now.members) }
{
    let members = rep.members.as_slice();
    match &rep.form {
        Represented::Element(element) => {
            Ok(element_term(source, numbers.elements, element, place))
        }
        Represented::GroupReference { to } => Ok(group_term(source, numbers.groups, *to)),
        Represented::Any(wildcard) => Ok(Some(Term::Any(copied_wildcard(wildcard)?))),
        Represented::Sequence => {
            Ok(Some(Term::Sequence(numbers_in(alloc, numbers.particles, members)?)))
        }
        Represented::Choice => {
            Ok(Some(Term::Choice(numbers_in(alloc, numbers.particles, members)?)))
        }
        Represented::All => Ok(Some(Term::All(numbers_in(alloc, numbers.particles, members)?))),
        _ => Ok(None),
    }
}

// Whether it never comes.
fn is_never(max: Option<u32>) -> bool
    ensures { result ≡ spec.is_never max }
{
    match max {
        None => false,
        Some(max) => max == 0,
    }
}

// Whether the effective content of a complex type is an empty sequence.
fn has_empty_sequence(
    source: &Source,
    particles: &[Option<ParticleId>],
    head: &ComplexTypeRepresentation,
    rep: &Representation,
) -> bool
    ensures { result ≡ spec.has_empty_sequence source.now particles.now head.now rep.now }
{
    let members = rep.members.as_slice();
    if has_simple_content(source.reps, members) || !is_mixed(source.reps, head.mixed, members) {
        return false;
    }
    let held = holder(source.reps, rep).members.as_slice();
    explicit_content(source.reps, particles, held).is_none()
}

// The particle of the effective content of a mixed complex type without explicit content: an empty sequence.
fn empty_content(
    alloc: Global,
    source: &Source,
    particles: &[Option<ParticleId>],
    rep: &Representation,
) -> Option<Particle>
    ensures { result ≡ spec.empty_content source.now particles.now rep.now.form rep.now }
{
    match &rep.form {
        Represented::ComplexType(head) => {
            if has_empty_sequence(source, particles, head, rep) {
                Some(Particle {
                    at: rep.at,
                    min: 1,
                    max: Some(1),
                    term: Term::Sequence(Listed::new(alloc)),
                })
            } else {
                None
            }
        }
        _ => None,
    }
}

// The particle with a term, if that is there and may come.
fn particle_with(rep: &Representation, term: Option<Term>) -> Option<Particle>
    ensures { result ≡ spec.particle_with rep.now term }
{
    if is_never(rep.max) {
        return None;
    }
    match term {
        None => None,
        Some(term) => Some(Particle {
            at: rep.at,
            min: rep.min,
            max: rep.max,
            term,
        }),
    }
}

// The particle that is represented at a place, if one is.
fn particle_at(
    alloc: Global,
    source: &Source,
    numbers: &TermNumbers,
    place: usize,
    rep: &Representation,
) -> Result<Option<Particle>, AllocError>
    ensures { IfOk result (λ part. part ≡ spec.particle_of source.now numbers.now.elements.now numbers.now.groups.now numbers.now.particles.now place rep.now) }
{
    let sequence = empty_content(alloc, source, numbers.particles, rep);
    if sequence.is_some() {
        return Ok(sequence);
    }
    Ok(particle_with(rep, term_at(alloc, source, numbers, place, rep)?))
}

/// Adds the particle that is represented at a place, if one is.
///
/// # Errors
///
/// `AllocError` is want of memory.
pub(crate) fn add_particle(
    alloc: Global,
    parts: &mut Components,
    source: &Source,
    numbers: &TermNumbers,
    place: usize,
    rep: &Representation,
) -> Result<Option<ParticleId>, AllocError>
    ensures number { IfOk result (λ id. id ≡ number_of (spec.particles_of source.now numbers.now.elements.now numbers.now.groups.now numbers.now.particles.now place rep.now) (length parts.old.particles.parts)) }
    ensures parts { OnOk result (parts.new ≡ record parts.old { particles = with_parts parts.old.particles (spec.particles_of source.now numbers.now.elements.now numbers.now.groups.now numbers.now.particles.now place rep.now) }) }
{
    match particle_at(alloc, source, numbers, place, rep)? {
        None => Ok(None),
        Some(part) => Ok(Some(parts.add_particle(part)?)),
    }
}
