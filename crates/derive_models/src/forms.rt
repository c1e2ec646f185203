//! The content of types without pointless groups.

ghost use Rattle.std.specs.Prelude.{◌≡◌, ◌<◌, List, ℕ, None, length, IfOk};
ghost use Rattle.component_references.specs.Heights.{IsType};
ghost use Rattle.component_references.specs.Ranked.{IsRanked};
ghost use Rattle.particle_models.specs.Parts.{IsForm, form_in};
ghost use Rattle.derive_models.specs.AnyType.{AreContentsThere};
ghost use Rattle.derive_models.specs.Standing.{AreStanding};
ghost use Rattle.derive_models.specs.Forms as spec;

use particle_forms::model_nodes;
use particle_models::{Form, without_pointless};
use std::alloc::{AllocError, Global};
use xs_components::{Components, ParticleId, TypeId};
use xs_lists::Listed;

/// The form of a particle: its content model without pointless groups (Structures 3.9.6). `stands_for` has the terms of the
/// particles by number. It goes over the particles of the model alone.
///
/// # Errors
/// When memory runs out.
pub fn particle_form(
    alloc: Global,
    parts: &Components,
    stands_for: &[Listed<u32>],
    p: ParticleId,
) -> Result<Form, AllocError>
    requires ranked { IsRanked parts.now }
    requires there { p < length parts.now.particles.parts }
    ensures form { IfOk result (λ form. IsForm form.parts.items form.root) }
    ensures tree { (members : List (List ℕ)) → AreStanding parts.now members stands_for.now → IfOk result (λ form. form_in form.parts.items form.root ≡ spec.particle_form parts.now members p) }
{
    let model = model_nodes(alloc, parts, p)?;
    without_pointless(alloc, &model.nodes, stands_for, model.root)
}

/// The form of the content of a type; without a particle there is none.
///
/// # Errors
/// When memory runs out.
pub fn content_form(
    alloc: Global,
    parts: &Components,
    stands_for: &[Listed<u32>],
    of: TypeId,
) -> Result<Form, AllocError>
    requires ranked { IsRanked parts.now }
    requires contents { AreContentsThere parts.now }
    requires there { IsType parts.now of }
    ensures form { IfOk result (λ form. IsForm form.parts.items form.root) }
    ensures tree { (members : List (List ℕ)) → AreStanding parts.now members stands_for.now → IfOk result (λ form. form_in form.parts.items form.root ≡ spec.content_form parts.now members of) }
{
    let TypeId::Complex(id) = of else {
        return Ok(no_form(alloc));
    };
    match parts.content(id) {
        Some(p) => particle_form(alloc, parts, stands_for, p),
        None => Ok(no_form(alloc)),
    }
}

// Where nothing is left.
fn no_form(alloc: Global) -> Form
    ensures form { IsForm result.parts.items result.root }
    ensures none { result.root ≡ None }
{
    Form {
        parts: Vec::new(alloc),
        root: None,
    }
}
