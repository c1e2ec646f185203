//! A node with all that is below it, taken away.

ghost use Rattle.std.specs.Prelude.{◌≡◌, ◌≢◌, ℕ, ◌+◌, None};
ghost use Rattle.xs_names.specs.Names.{NameTable};
ghost use Rattle.tree_rows.specs.Forest.{Forest, Document, count};
ghost use Rattle.tree_edits.specs.Tests.{made};
ghost use Rattle.tree_edits.specs.declared.edit.Edit.TheVariants as edits;
ghost use Rattle.doc_nodes.specs.Nodes.{IsChildAt, IsSound};
ghost use Rattle.doc_changes.specs.Stands.{StandsFor};
ghost use Rattle.doc_changes.specs.Held.{parent_at};
ghost use Rattle.doc_changes.specs.Parts.{IsOver, Clears, Prunes};

use doc_nodes::NodeLinks;

/// Takes away all that is below a node, and answers how many nodes that were. It takes no memory.
fn clear(links: &mut NodeLinks, number: u32) -> u32
    requires over { (t : NameTable) × (below : Forest) × IsOver t links.old number below }
    ensures clears { (t : NameTable) (below : Forest) → IsOver t links.old number below → Clears links.old links.new number below }
    ensures count { (t : NameTable) (below : Forest) → IsOver t links.old number below → result ≡ count below }
{
    let mut gone = 0;
    'children: while let Some(child) = links.child_at(number, 0) {
        gone += clear(links, child) + 1;
        links.take(child);
    }
    gone
}

/// Takes away a node that is no root, with all that is below it, and answers how many nodes that were. It takes no
/// memory.
pub fn prune(links: &mut NodeLinks, number: u32) -> u32
    requires over { (t : NameTable) × (below : Forest) × IsOver t links.old number below }
    requires parent { parent_at links.old number ≢ None }
    ensures prunes { (t : NameTable) (below : Forest) → IsOver t links.old number below → (p place : ℕ) → IsChildAt links.old p place number → Prunes links.old links.new p place number below }
    ensures count { (t : NameTable) (below : Forest) → IsOver t links.old number below → result ≡ count below + 1 }
    ensures sound { IsSound links.new }
{
    let gone = clear(links, number);
    links.take(number);
    gone + 1
}

/// Takes away a node that is not the root, with all that is below it, and answers how many nodes that were. It takes no
/// memory.
pub fn remove_node(links: &mut NodeLinks, number: u32) -> u32
    requires stands { (t : NameTable) × (d : Document) × StandsFor t links.old d }
    requires node { parent_at links.old number ≢ None }
    ensures tree { (t : NameTable) (d : Document) → StandsFor t links.old d → StandsFor t links.new (made d (edits.Remove number)) }
    ensures change { (t : NameTable) (below : Forest) → IsOver t links.old number below → (p place : ℕ) → IsChildAt links.old p place number → Prunes links.old links.new p place number below }
    ensures count { (t : NameTable) (below : Forest) → IsOver t links.old number below → result ≡ count below + 1 }
    ensures sound { IsSound links.new }
{
    prune(links, number)
}
