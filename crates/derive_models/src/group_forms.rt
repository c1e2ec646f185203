//! The model groups of definitions, as their restriction compares them.

ghost use Rattle.std.specs.Prelude.{◌≡◌, ◌<◌, ℕ, List, None, IfOk, IfSome, length};
ghost use Rattle.component_references.specs.Ranked.{IsRanked};
ghost use Rattle.particle_forms.specs.Models.{group_particle};
ghost use Rattle.particle_models.specs.Parts.{IsForm, form_in};
ghost use Rattle.derive_models.specs.Standing.{AreStanding};
ghost use Rattle.derive_models.specs.Forms.{form_of};
ghost use Rattle.derive_models.specs.GroupRestrictions as spec;

use crate::particle_form;
use particle_models::Form;
use std::alloc::{AllocError, Global};
use xs_components::{Components, ParticleId};
use xs_lists::Listed;

// The particle of the model group of the definition of a number, if there is one.
fn particle_of(parts: &Components, group: u32) -> Option<ParticleId>
    requires ranked { IsRanked parts.now }
    ensures particle { result ≡ group_particle parts.now group }
    ensures there { IfSome result (λ p. p < length parts.now.particles.parts) }
{
    match parts.groups().get(group as usize) {
        None => None,
        Some(part) => part.particle,
    }
}

// Where nothing is left.
fn no_form(alloc: Global) -> Form
    ensures form { IsForm result.parts.items result.root }
    ensures none { result.root ≡ None }
{
    Form {
        parts: Vec::new(alloc),
        root: None,
    }
}

// The form of a particle, if there is one.
fn form_of(
    alloc: Global,
    parts: &Components,
    stands_for: &[Listed<u32>],
    particle: Option<ParticleId>,
) -> Result<Form, AllocError>
    requires ranked { IsRanked parts.now }
    requires there { IfSome particle (λ p. p < length parts.now.particles.parts) }
    ensures form { IfOk result (λ form. IsForm form.parts.items form.root) }
    ensures tree { (members : List (List ℕ)) → AreStanding parts.now members stands_for.now
        → IfOk result (λ form. form_in form.parts.items form.root ≡ form_of parts.now members particle) }
{
    match particle {
        None => Ok(no_form(alloc)),
        Some(particle) => particle_form(alloc, parts, stands_for, particle),
    }
}

/// The form of the model group of the definition of a number.
///
/// # Errors
///
/// `AllocError` is want of memory.
pub(crate) fn group_form(
    alloc: Global,
    parts: &Components,
    stands_for: &[Listed<u32>],
    group: u32,
) -> Result<Form, AllocError>
    requires ranked { IsRanked parts.now }
    ensures form { IfOk result (λ form. IsForm form.parts.items form.root) }
    ensures tree { (members : List (List ℕ)) → AreStanding parts.now members stands_for.now
        → IfOk result (λ form. form_in form.parts.items form.root ≡ spec.group_form parts.now members group) }
{
    let particle = particle_of(parts, group);
    form_of(alloc, parts, stands_for, particle)
}
