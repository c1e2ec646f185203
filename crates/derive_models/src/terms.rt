//! The terms of particles, as their restriction compares them.

ghost use Rattle.std.specs.Prelude.{◌≡◌, ◌<◌, false, All, length, slice_index_or, IfOk, OnOk};
ghost use Rattle.component_references.specs.Ranked.{IsRanked};
ghost use Rattle.component_tables.specs.Types.{AreDeclarationsOf};
ghost use Rattle.particle_restrict.specs.Tables.{HasType};
ghost use Rattle.derive_models.specs.AnyType.{AreContentsThere};
ghost use Rattle.derive_models.specs.Terms.{AreElementsNamed, IsElementType, AreTerms};
ghost use Rattle.derive_models.specs.Steps.{IsSpaceAt, AreSpaces};

use crate::any_type::any_flags;
use crate::elements::elements_of;
use component_tables::Declarations;
use particle_restrict::{Space, Term};
use std::alloc::{AllocError, Global};
use xs_components::{Components, NsConstraint, ParticleId, Process, Term as Declared, Wildcard};
use xs_lists::Listed;
use xs_names::Names;

/// The terms of the particles of a schema set, as their restriction compares them (Structures 3.9.6): element declarations by
/// their numbers, and behind them wildcards by the numbers of their particles; in the place of a particle that is no wildcard
/// stands one that admits nothing. `fixed` has the numbers of the fixed values of element declarations.
///
/// # Errors
/// When memory runs out.
pub fn terms_of(
    alloc: Global,
    names: &Names,
    parts: &Components,
    declarations: &Declarations,
    fixed: &[Option<u32>],
) -> Result<Vec<Term>, AllocError>
    requires ranked { IsRanked parts.now }
    requires contents { AreContentsThere parts.now }
    requires named { AreElementsNamed parts.now names.now }
    requires declarations { AreDeclarationsOf parts.now declarations.now }
    ensures terms { IfOk result (λ terms. AreTerms parts.now names.now fixed.now terms.items) }
    ensures types { IfOk result (λ terms. All (HasType (IsElementType parts.now)) terms.items) }
{
    let flags = any_flags(alloc, parts)?;
    let mut terms = elements_of(alloc, names, parts, declarations, fixed)?;
    add_spaces(alloc, parts, &flags, &mut terms)?;
    Ok(terms)
}

// Adds the wildcards of all particles.
fn add_spaces(
    alloc: Global,
    parts: &Components,
    flags: &[bool],
    terms: &mut Vec<Term>,
) -> Result<(), AllocError>
    requires types { All (HasType (IsElementType parts.now)) terms.old.items }
    ensures { OnOk result (AreSpaces parts.now flags.now (length parts.now.particles.parts) terms.old.items terms.new.items) }
{
    let mut number = 0;
    while let Some(id) = parts.particle_at(number) {
        let space = space_of(alloc, parts, flags, id)?;
        terms.push(Term::Any(space))?;
        number += 1;
    }
    Ok(())
}

// The wildcard of a particle.
fn space_of(
    alloc: Global,
    parts: &Components,
    flags: &[bool],
    id: ParticleId,
) -> Result<Space, AllocError>
    requires there { id < length parts.now.particles.parts }
    ensures { IfOk result (IsSpaceAt parts.now flags.now id) }
{
    match &parts.particle(id).term {
        Declared::Any(wildcard) => Ok(Space {
            wildcard: wildcard.clone()?,
            of_any_type: is_flagged(flags, id),
        }),
        _ => Ok(Space {
            wildcard: Wildcard {
                namespaces: NsConstraint::In(Listed::new(alloc)),
                process: Process::Strict,
            },
            of_any_type: false,
        }),
    }
}

// The flag of a particle.
fn is_flagged(flags: &[bool], id: ParticleId) -> bool
    ensures { result ≡ slice_index_or flags.now id false }
{
    match flags.get(id.number() as usize) {
        Some(flag) => *flag,
        None => false,
    }
}
