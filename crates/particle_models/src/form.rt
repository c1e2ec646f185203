//! Forms of content models.

ghost use Rattle.std.specs.Prelude.{◌≡◌, ◌<◌, [], length, slice_index_or, IfOk};
ghost use Rattle.particle_models.specs.Nodes.{model_in, IsOrdered};
ghost use Rattle.particle_models.specs.Pointless.{without_pointless};
ghost use Rattle.particle_models.specs.Parts.{IsForm, form_in};

use crate::Node;
use crate::asked::asked_of;
use crate::forming::{Source, make_nodes};
use crate::part::Part;
use std::alloc::{AllocError, Global};
use xs_lists::Listed;

/// A particle without pointless groups: its parts, each over earlier ones, and the number of its own; `None` where nothing is
/// left of it.
#[derive(Drop)]
pub struct Form {
    pub parts: Vec<Part>,
    pub root: Option<u32>,
}

/// The particle of a node without pointless groups (Structures 3.9.6). `stands_for` has for each particle that is an element the
/// numbers of the members of its substitution group, itself first, and for each wildcard its own number; an element with other
/// members counts as a choice of all of them.
///
/// # Errors
/// When memory runs out.
pub fn without_pointless(
    alloc: Global,
    nodes: &[Node],
    stands_for: &[Listed<u32>],
    root: u32,
) -> Result<Form, AllocError>
    requires ordered { IsOrdered nodes.now }
    requires root { root < length nodes.now }
    ensures form { IfOk result (λ form. IsForm form.parts.items form.root) }
    ensures tree { IfOk result (λ form. form_in form.parts.items form.root ≡ without_pointless (λ n. slice_index_or stands_for.now n []) (model_in nodes.now root)) }
{
    let asked = asked_of(alloc, nodes, root)?;
    let source = Source {
        nodes,
        asked: &asked,
        stands_for,
    };
    let mut parts = Vec::new(alloc);
    let made = make_nodes(alloc, &mut parts, &source)?;
    let root = made[root as usize].form;
    Ok(Form { parts, root })
}
