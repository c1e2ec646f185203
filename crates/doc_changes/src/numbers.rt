//! The numbers of nodes that are still to be put.

ghost use Rattle.std.specs.Prelude.{◌≡◌, ◌≤◌, ℕ, length, OnOk};
ghost use Rattle.doc_nodes.specs.Nodes.{IsSound, node};

use doc_nodes::NodeLinks;
use std::alloc::AllocError;

/// Gives out the numbers below this one. None of them gets a node.
pub(crate) fn give_numbers(links: &mut NodeLinks, until: u32) -> Result<(), AllocError>
    requires { length links.old ≤ until }
    ensures size { OnOk result (length links.new ≡ until) }
    ensures more { length links.old ≤ length links.new }
    ensures nodes { (m : ℕ) → node links.new m ≡ node links.old m }
    ensures sound { IsSound links.new }
{
    'numbers: while links.next_free() < until {
        links.add_number()?;
    }
    Ok(())
}
