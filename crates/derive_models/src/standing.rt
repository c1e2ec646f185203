//! Which terms particles stand for.

ghost use Rattle.std.specs.Prelude.{◌≡◌, ◌<◌, ◌+◌, ◌∷◌, [], map, length, IfOk};
ghost use Rattle.component_tables.specs.Types.{given_declaration, AreDeclarationsOf};
ghost use Rattle.derive_models.specs.Standing as spec;

use component_tables::Declarations;
use std::alloc::{AllocError, Global};
use xs_components::{Components, ElementId, Members, ParticleId, Term};
use xs_lists::Listed;
use xs_names::NameId;

/// For each particle that is an element the numbers of the members of its substitution group (Structures 3.3.6), itself first, and
/// for each wildcard its own number, behind those of all elements. Other particles stand for nothing.
///
/// # Errors
/// When memory runs out; so it is where there are more than 2 ^ 32 numbers.
pub fn stands_for(
    alloc: Global,
    parts: &Components,
    members: &Members,
    declarations: &Declarations,
) -> Result<Vec<Listed<u32>>, AllocError>
    requires declarations { AreDeclarationsOf parts.now declarations.now }
    ensures standing { IfOk result (λ all. spec.AreStanding parts.now members.now all.items) }
{
    let mut all = Vec::new(alloc);
    let mut number = 0;
    while let Some(id) = parts.particle_at(number) {
        let of = stands_by(alloc, parts, members, declarations, id)?;
        all.push(of)?;
        number += 1;
    }
    Ok(all)
}

// The terms that a particle stands for.
fn stands_by(
    alloc: Global,
    parts: &Components,
    members: &Members,
    declarations: &Declarations,
    id: ParticleId,
) -> Result<Listed<u32>, AllocError>
    requires there { id < length parts.now.particles.parts }
    requires declarations { AreDeclarationsOf parts.now declarations.now }
    ensures { IfOk result (λ of. of ≡ spec.stands_for parts.now members.now id) }
{
    match &parts.particle(id).term {
        Term::Element(element) => given(
            alloc,
            parts,
            declarations,
            *element,
            members.names_of(*element),
        ),
        Term::Any(_) => own_number(alloc, parts, id),
        Term::Group(_) | Term::Sequence(_) | Term::Choice(_) | Term::All(_) => Ok(Listed::new(
            alloc,
        )),
    }
}

// The declarations that an element gives to names.
fn given(
    alloc: Global,
    parts: &Components,
    declarations: &Declarations,
    element: ElementId,
    names: &[NameId],
) -> Result<Listed<u32>, AllocError>
    requires declarations { AreDeclarationsOf parts.now declarations.now }
    ensures { IfOk result (λ of. of ≡ map (given_declaration parts.now element) names.now) }
{
    let mut of = Listed::new(alloc);
    for name in names {
        of.push(declarations.given(parts, element, *name).number())?;
    }
    Ok(of)
}

// The number of a wildcard, by that of its particle.
fn own_number(alloc: Global, parts: &Components, id: ParticleId) -> Result<Listed<u32>, AllocError>
    ensures { IfOk result (λ of. of ≡ (length parts.now.elements.parts + id) ∷ []) }
{
    let number = parts.elements().len() as u64 + u64::from(id.number());
    if number > u64::from(u32::MAX) {
        return Err(AllocError);
    }
    let mut of = Listed::new(alloc);
    of.push(number as u32)?;
    Ok(of)
}
