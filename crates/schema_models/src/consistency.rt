//! Whether the terms of a content model agree.

ghost use Rattle.std.specs.Prelude.{◌≡◌, ◌↔◌, ◌<◌, ◌++◌, IsTrue, All, length, IfOk, OnOk};
ghost use Rattle.std.specs.List.{flat_map};
ghost use Rattle.component_references.specs.Ranked.{IsRanked};
ghost use Rattle.component_tables.specs.Types.{AreDeclarationsOf};
ghost use Rattle.schema_models.specs.Consistency.{IsConsistent, given_types};
ghost use Rattle.schema_models.specs.Found.{live_element, live_types};

use crate::agreement::{TypedName, agree};
use crate::found::{find_parts, is_never};
use component_tables::Declarations;
use std::alloc::{AllocError, Global};
use xs_components::{Components, ElementId, Members, Particle, ParticleId, Term};
use xs_names::NameId;

/// Whether all element terms of the content model of a particle that have one name have one type, the members of their
/// substitution groups included (cos-element-consistent). `declarations` are those of the components.
pub fn consistent(
    alloc: Global,
    parts: &Components,
    members: &Members,
    declarations: &Declarations,
    p: ParticleId,
) -> Result<bool, AllocError>
    requires ranked { IsRanked parts.now }
    requires there { p < length parts.now.particles.parts }
    requires declarations { AreDeclarationsOf parts.now declarations.now }
    ensures consistent { IfOk result (λ agrees. IsTrue agrees ↔ IsConsistent members.now parts.now p) }
{
    let found = find_parts(alloc, parts, p)?;
    let given = find_given(alloc, parts, members, declarations, found.as_slice())?;
    agree(alloc, &given)
}

// What the terms of these particles give.
fn find_given(
    alloc: Global,
    parts: &Components,
    members: &Members,
    declarations: &Declarations,
    ids: &[u32],
) -> Result<Vec<TypedName>, AllocError>
    requires there { All (λ id. id < length parts.now.particles.parts) ids.now }
    requires declarations { AreDeclarationsOf parts.now declarations.now }
    ensures { IfOk result (λ given. given.items ≡ flat_map (live_types members.now parts.now) ids.now) }
{
    let mut given = Vec::new(alloc);
    for id in ids {
        add_part(parts, members, declarations, *id, &mut given)?;
    }
    Ok(given)
}

// Adds what the term of a particle gives.
fn add_part(
    parts: &Components,
    members: &Members,
    declarations: &Declarations,
    id: u32,
    given: &mut Vec<TypedName>,
) -> Result<(), AllocError>
    requires there { id < length parts.now.particles.parts }
    requires declarations { AreDeclarationsOf parts.now declarations.now }
    ensures { OnOk result (given.new.items ≡ given.old.items ++ live_types members.now parts.now id) }
{
    match element_in(&parts.particles()[id as usize]) {
        Some(element) => add_element(parts, members, declarations, element, given),
        None => Ok(()),
    }
}

// The element that a particle is, where it comes at all.
fn element_in(part: &Particle) -> Option<ElementId>
    ensures { result ≡ live_element part.now }
{
    if is_never(part.max) {
        return None;
    }
    match &part.term {
        Term::Element(element) => Some(*element),
        Term::Any(_) | Term::Group(_) | Term::Sequence(_) | Term::Choice(_) | Term::All(_) => None,
    }
}

// Adds the names of the members of an element's substitution group, itself first, with their types.
fn add_element(
    parts: &Components,
    members: &Members,
    declarations: &Declarations,
    element: ElementId,
    given: &mut Vec<TypedName>,
) -> Result<(), AllocError>
    requires declarations { AreDeclarationsOf parts.now declarations.now }
    ensures { OnOk result (given.new.items ≡ given.old.items ++ given_types members.now parts.now element) }
{
    for name in members.names_of(element) {
        let declared = declarations.given(parts, element, *name);
        let of = declarations.type_of(declared);
        given.push(TypedName { name: *name, of })?;
    }
    Ok(())
}
