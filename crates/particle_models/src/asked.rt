//! The nodes whose own forms are asked for.

ghost use Rattle.std.specs.Prelude.{◌≡◌, ℕ, ◌<◌, length, All, IfOk};
ghost use Rattle.particle_models.specs.Nodes.{PartsBelow, IsOrdered};
ghost use Rattle.particle_models.specs.Asked.{IsAsked, Asks, AreAsked};

use crate::Node;
use crate::part::Bounds;
use std::alloc::{AllocError, Global};

/// Marks the nodes whose own forms are asked for: the root, the members of each group, and what occurs once. Of another node the
/// form is made only where it occurs, with those bounds.
pub(crate) fn asked_of(alloc: Global, nodes: &[Node], root: u32) -> Result<Vec<bool>, AllocError>
    requires ordered { IsOrdered nodes.now }
    requires root { root < length nodes.now }
    ensures root { IfOk result (λ asked. IsAsked asked.items root) }
    ensures asked { IfOk result (λ asked. AreAsked nodes.now asked.items) }
{
    let mut asked = vec![in alloc; false; nodes.len()]?;
    asked[root as usize] = true;
    for node in nodes {
        ask_below(&mut asked, node);
    }
    Ok(asked)
}

/// Marks what the form of a node is made of.
fn ask_below(asked: &mut Vec<bool>, node: &Node)
    requires { PartsBelow (length asked.old.items) node.now }
    ensures asks { Asks asked.new.items node.now }
    ensures kept { (n : ℕ) → IsAsked asked.old.items n → IsAsked asked.new.items n }
    ensures count { length asked.new.items ≡ length asked.old.items }
{
    match node {
        Node::Term(_) => {}
        Node::Sequence(members) | Node::Choice(members) | Node::Each(members) => {
            ask_all(asked, members.as_slice());
        }
        Node::Occurs(part, least, most) => {
            let bounds = Bounds {
                least: *least,
                most: *most,
            };
            if bounds.is_once() {
                asked[*part as usize] = true;
            }
        }
    }
}

/// Marks these nodes.
fn ask_all(asked: &mut Vec<bool>, members: &[u32])
    requires { All (λ m. m < length asked.old.items) members.now }
    ensures asks { All (IsAsked asked.new.items) members.now }
    ensures kept { (n : ℕ) → IsAsked asked.old.items n → IsAsked asked.new.items n }
    ensures count { length asked.new.items ≡ length asked.old.items }
{
    for member in members {
        asked[*member as usize] = true;
    }
}
