ghost use Rattle.std.specs.Prelude.{◌≡◌, IfOk};
ghost use Rattle.component_references.specs.References as spec;

use crate::rows::{particle_row, row_of, shifted};
use std::alloc::{AllocError, Global};
use xs_components::{Components, GroupDef, Term};
use xs_lists::Listed;

// The number of the particle of a group, if it has one.
fn group_row(alloc: Global, groups: u32, part: &GroupDef) -> Result<Listed<u32>, AllocError>
    ensures { IfOk result (λ row. row ≡ spec.behind groups (spec.one_or_none part.now.particle)) }
{
    match part.particle {
        Some(particle) => row_of(alloc, shifted(groups, particle.number())?),
        None => Ok(Listed::new(alloc)),
    }
}

// The numbers of the particles that a term holds, or of the group that it names.
fn term_row(alloc: Global, groups: u32, term: &Term) -> Result<Listed<u32>, AllocError>
    ensures { IfOk result (λ row. row ≡ spec.term_numbers groups term.now) }
{
    match term {
        Term::Element(_) => Ok(Listed::new(alloc)),
        Term::Any(_) => Ok(Listed::new(alloc)),
        Term::Group(group) => row_of(alloc, group.number()),
        Term::Sequence(members) => particle_row(alloc, groups, members.as_slice()),
        Term::Choice(members) => particle_row(alloc, groups, members.as_slice()),
        Term::All(members) => particle_row(alloc, groups, members.as_slice()),
    }
}

// The references among groups and particles.
pub(crate) fn model_references(
    alloc: Global,
    parts: &Components,
) -> Result<Vec<Listed<u32>>, AllocError>
    ensures references { IfOk result (λ refs. refs.items ≡ spec.model_references parts.now) }
{
    let groups = parts.groups().len() as u32;
    let mut refs = Vec::new(alloc);
    for part in parts.groups() {
        refs.push(group_row(alloc, groups, part)?)?;
    }
    for part in parts.particles() {
        refs.push(term_row(alloc, groups, &part.term)?)?;
    }
    Ok(refs)
}
