//! Changes, each answering the change that undoes it.

ghost use Rattle.std.specs.Prelude.{◌≡◌, ◌<◌, ℕ, length, IfOk, OnOk, OnErr};
ghost use Rattle.xs_names.specs.Names.{NameTable};
ghost use Rattle.tree_rows.specs.Forest.{Forest, Document};
ghost use Rattle.doc_nodes.specs.Nodes.{Node, IsNode, IsSound, IsChildAt, Holds};
ghost use Rattle.doc_nodes.specs.declared.content.Content.TheVariants as contents;
ghost use Rattle.doc_nodes.specs.declared.content.Element.{Element};
ghost use Rattle.doc_changes.specs.Parts.{IsOver, Prunes};
ghost use Rattle.doc_changes.specs.Stands.{StandsFor, expanded_of};
ghost use Rattle.tree_edits.specs.Sites.{node_of, first_number};
ghost use Rattle.tree_edits.specs.Inverses.{changed, inverse_of, Fits, CanPutBack, put_back, take_out};
ghost use Rattle.tree_edits.specs.Inverses as law;
ghost use Rattle.doc_tree.specs.Parts.{IsPart, Grafts};
ghost use Rattle.doc_tree.specs.Changes.{Means, IsMade, written_number};

use crate::attributes::write_attribute;
use crate::inverse_reading::{read_below, read_row};
use crate::part::{Part, PartRow};
use crate::putting::put_one;
use crate::texts::{chars_of, name_of};
use doc_changes::{remove_node, rename_node, set_text};
use doc_nodes::NodeLinks;
use std::alloc::{AllocError, Global};
use xs_lists::Listed;
use xs_names::{NameId, Text};

/// A change of a document by the numbers of its nodes and names, those of new nodes too.
#[derive(Drop)]
pub enum Change {
    /// Puts a node that was taken out before the child of this place again, with all that was below it, each under its number.
    PutBack {
        parent: u32,
        index: u32,
        part: Part,
    },
    /// Takes a node that is not the root out, with all that is below it.
    Take {
        node: u32,
    },
    /// Gives an element another name.
    Name {
        node: u32,
        name: NameId,
    },
    /// Gives the attribute of a name, which has this place, a value, or takes it away; where there is none of the name, it is put
    /// there.
    Attr {
        node: u32,
        name: NameId,
        place: u32,
        value: Option<Text>,
    },
    /// Gives a text other characters.
    Chars {
        node: u32,
        text: Text,
    },
}

/// A node with all that is below it, in document order.
fn part_of(alloc: Global, links: &NodeLinks, node: u32) -> Result<Part, AllocError>
    requires { (t : NameTable) × (d : Document) × StandsFor t links.now d × Fits d (take_out node) }
    ensures { IfOk result (λ part. (t : NameTable) (d : Document) → StandsFor t links.now d → Fits d (take_out node) → IsPart t part (node_of node d.forest)) }
{
    let mut rows = Vec::new(alloc);
    rows.push(read_row(alloc, links, node, 1)?)?;
    read_below(alloc, links, &mut rows, node, 1)?;
    Ok(Listed::from_vec(rows))
}

/// The change that puts a node back with all that is below it, once it was taken out.
///
/// # Errors
///
/// `AllocError` is want of memory.
pub fn put_back_of(alloc: Global, links: &NodeLinks, node: u32) -> Result<Change, AllocError>
    requires { (t : NameTable) × (d : Document) × StandsFor t links.now d × Fits d (take_out node) }
    ensures { IfOk result (λ back. (t : NameTable) (d : Document) → StandsFor t links.now d → Fits d (take_out node) → Means t back (inverse_of d (take_out node))) }
{
    let part = part_of(alloc, links, node)?;
    match links.parent(node) {
        None => unreachable!(),
        Some(parent) => match links.place(node) {
            None => unreachable!(),
            Some(index) => Ok(Change::PutBack {
                parent,
                index,
                part,
            }),
        },
    }
}

/// Takes a node out, and answers the change that puts it back.
fn take(alloc: Global, links: &mut NodeLinks, node: u32) -> Result<Change, AllocError>
    requires { (t : NameTable) × (d : Document) × StandsFor t links.old d × Fits d (take_out node) }
    ensures tree { OnOk result ((t : NameTable) (d : Document) → StandsFor t links.old d → StandsFor t links.new (changed d (take_out node))) }
    ensures inverse { IfOk result (λ back. (t : NameTable) (d : Document) → StandsFor t links.old d → Fits d (take_out node) → Means t back (inverse_of d (take_out node))) }
    ensures nodes { OnOk result ((t : NameTable) (below : Forest) → IsOver t links.old node below → (p place : ℕ) → IsChildAt links.old p place node → Prunes links.old links.new p place node below) }
    ensures err { OnErr result (links.new ≡ links.old) }
    ensures sound { IsSound links.new }
{
    let back = put_back_of(alloc, links, node)?;
    remove_node(links, node);
    Ok(back)
}

/// Puts a part back, and answers the change that takes it out.
fn put(
    alloc: Global,
    links: &mut NodeLinks,
    parent: u32,
    index: u32,
    part: &[PartRow],
) -> Result<Change, AllocError>
    requires { (t : NameTable) × (d : Document) × (f : Forest) × StandsFor t links.old d × IsPart t part.now f × CanPutBack d parent index f }
    ensures tree { OnOk result ((t : NameTable) (d : Document) (f : Forest) → StandsFor t links.old d → IsPart t part.now f → CanPutBack d parent index f → StandsFor t links.new (changed d (put_back parent index f))) }
    ensures inverse { IfOk result (λ back. (t : NameTable) (d : Document) (f : Forest) → IsPart t part.now f → CanPutBack d parent index f → Means t back (take_out (first_number f))) }
    ensures nodes { OnOk result ((t : NameTable) (d : Document) (f : Forest) → StandsFor t links.old d → IsPart t part.now f → CanPutBack d parent index f → Grafts t links.old links.new parent index f) }
    ensures err { OnErr result (links.new ≡ links.old) }
    ensures sound { OnOk result (IsSound links.new) }
{
    put_one(alloc, links, parent, index, part)?;
    Ok(Change::Take {
        node: part[0].number,
    })
}

/// Gives an element another name, and answers the change that gives it its name again.
fn rename(alloc: Global, links: &mut NodeLinks, node: u32, name: NameId) -> Change
    requires { (t : NameTable) × (d : Document) × StandsFor t links.old d × (name < length t.names) × Fits d (law.rename node (expanded_of t name)) }
    ensures tree { (t : NameTable) (d : Document) → StandsFor t links.old d → name < length t.names → StandsFor t links.new (changed d (law.rename node (expanded_of t name))) }
    ensures inverse { (t : NameTable) (d : Document) → StandsFor t links.old d → Fits d (law.rename node (expanded_of t name)) → Means t result (inverse_of d (law.rename node (expanded_of t name))) }
    ensures nodes { (it : Node) (e : Element) → IsNode links.old node it → it.content ≡ contents.Element e → Holds links.old links.new node (contents.Element (record e { name = name })) }
    ensures sound { IsSound links.new }
{
    let old = name_of(links, node);
    rename_node(alloc, links, node, name);
    Change::Name { node, name: old }
}

/// Gives the attribute of a name a value, or takes it away, and answers the change that gives it its value again, or takes it away.
fn write(
    alloc: Global,
    links: &mut NodeLinks,
    node: u32,
    name: NameId,
    place: u32,
    value: Option<Text>,
) -> Result<Change, AllocError>
    requires { (t : NameTable) × (d : Document) × StandsFor t links.old d × (name < length t.names) × Fits d (law.write node (expanded_of t name) place value) }
    ensures tree { OnOk result ((t : NameTable) (d : Document) → StandsFor t links.old d → name < length t.names → Fits d (law.write node (expanded_of t name) place value) → StandsFor t links.new (changed d (law.write node (expanded_of t name) place value))) }
    ensures inverse { IfOk result (λ back. (t : NameTable) (d : Document) → StandsFor t links.old d → name < length t.names → Fits d (law.write node (expanded_of t name) place value) → Means t back (inverse_of d (law.write node (expanded_of t name) place value))) }
    ensures nodes { OnOk result ((it : Node) (e : Element) → IsNode links.old node it → it.content ≡ contents.Element e → Holds links.old links.new node (contents.Element (record e { attributes = written_number name place value e.attributes }))) }
    ensures err { OnErr result (links.new ≡ links.old) }
    ensures sound { IsSound links.new }
{
    let old = write_attribute(alloc, links, node, name, place, value)?;
    Ok(Change::Attr {
        node,
        name,
        place,
        value: old,
    })
}

/// Gives a text other characters, and answers the change that gives it its characters again.
fn reword(links: &mut NodeLinks, node: u32, text: Text) -> Result<Change, AllocError>
    requires { (t : NameTable) × (d : Document) × StandsFor t links.old d × Fits d (law.reword node text) }
    ensures tree { OnOk result ((t : NameTable) (d : Document) → StandsFor t links.old d → StandsFor t links.new (changed d (law.reword node text))) }
    ensures inverse { IfOk result (λ back. (t : NameTable) (d : Document) → StandsFor t links.old d → Fits d (law.reword node text) → Means t back (inverse_of d (law.reword node text))) }
    ensures nodes { OnOk result (Holds links.old links.new node (contents.Chars text)) }
    ensures err { OnErr result (links.new ≡ links.old) }
    ensures sound { IsSound links.new }
{
    let old = chars_of(links, node)?;
    set_text(links, node, text);
    Ok(Change::Chars { node, text: old })
}

/// Makes a change of a document, and answers the change that undoes it.
///
/// # Errors
///
/// `AllocError` is want of memory. All is then as it was.
pub fn make_change(
    alloc: Global,
    links: &mut NodeLinks,
    change: Change,
) -> Result<Change, AllocError>
    requires can { (t : NameTable) × (d : Document) × (c : law.Change) × StandsFor t links.old d × Means t change c × Fits d c }
    ensures tree { OnOk result ((t : NameTable) (d : Document) (c : law.Change) → StandsFor t links.old d → Means t change c → Fits d c → StandsFor t links.new (changed d c)) }
    ensures inverse { IfOk result (λ back. (t : NameTable) (d : Document) (c : law.Change) → StandsFor t links.old d → Means t change c → Fits d c → Means t back (inverse_of d c)) }
    ensures nodes { OnOk result ((t : NameTable) (d : Document) (c : law.Change) → StandsFor t links.old d → Means t change c → Fits d c → IsMade t links.old links.new change c) }
    ensures err { OnErr result (links.new ≡ links.old) }
    ensures sound { IsSound links.new }
{
    match change {
        Change::PutBack {
            parent,
            index,
            part,
        } => put(alloc, links, parent, index, part.as_slice()),
        Change::Take { node } => take(alloc, links, node),
        Change::Name { node, name } => Ok(rename(alloc, links, node, name)),
        Change::Attr {
            node,
            name,
            place,
            value,
        } => write(alloc, links, node, name, place, value),
        Change::Chars { node, text } => reword(links, node, text),
    }
}
