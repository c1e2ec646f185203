//! The nodes of the content model of one particle.

ghost use Rattle.std.specs.Prelude.{◌≡◌, ◌<◌, length, IfOk};
ghost use Rattle.component_references.specs.Ranked.{IsRanked};
ghost use Rattle.particle_forms.specs.Models.{model_of};
ghost use Rattle.particle_models.specs.Nodes.{model_in, IsOrdered};

use crate::node_made::parts_by_rank;
use crate::ordered_nodes::{Nodes, nodes_of, number_of};
use particle_models::Node;
use std::alloc::{AllocError, Global};
use xs_components::{Components, ParticleId};

/// The nodes of a content model (Structures 3.8.1), each over those before it, and the number of the model's own.
#[derive(Drop)]
pub struct ModelNodes {
    pub nodes: Vec<Node>,
    pub root: u32,
}

/// The content model of a particle as nodes, with each group reference replaced by the group's own particle. It goes over the
/// particles of the model alone, and each once, however often its group is referred to.
///
/// # Errors
/// When memory runs out.
pub fn model_nodes(
    alloc: Global,
    parts: &Components,
    p: ParticleId,
) -> Result<ModelNodes, AllocError>
    requires ranked { IsRanked parts.now }
    requires there { p < length parts.now.particles.parts }
    ensures ordered { IfOk result (λ made. IsOrdered made.nodes.items) }
    ensures root { IfOk result (λ made. made.root < length made.nodes.items) }
    ensures model { IfOk result (λ made. model_in made.nodes.items made.root ≡ model_of parts.now p) }
{
    let order = parts_by_rank(alloc, parts, p)?;
    let made = nodes_of(alloc, parts, &order)?;
    let root = number_of(&made.numbers, p);
    let Nodes { nodes, .. } = made;
    Ok(ModelNodes { nodes, root })
}
