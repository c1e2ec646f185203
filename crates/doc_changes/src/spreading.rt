//! All that is below a node, put one list of children after the other.

ghost use Rattle.std.specs.Prelude.{◌≡◌, [], ◌∷◌, IfOk, OnOk};
ghost use Rattle.xs_names.specs.Names.{Grown, IsSound};
ghost use Rattle.tree_rows.specs.Forest.{none};
ghost use Rattle.tree_edits.proofs.BlockNaming.{HaveNames};
ghost use Rattle.plain_tree.specs.Found.{HasNames};
ghost use Rattle.doc_nodes.specs.Nodes.{Node, IsNode, IsSound as AreSound};
ghost use Rattle.doc_changes.specs.inside.Growing.{CanPlant, Planted, one_of, at_end};
ghost use Rattle.doc_changes.specs.inside.Spreading.{AreNodesOf, IsBare, CanFill, Filled};

use crate::naming::name_element;
use doc_nodes::{Content, NewNode, NodeLinks};
use std::alloc::{AllocError, Global};
use tree_rows::{Row, Sibling, Siblings};
use xs_names::Names;

/// The node of a row, under the row's number.
fn new_node(alloc: Global, names: &mut Names, row: &Row) -> Result<NewNode, AllocError>
    requires called { HaveNames (one_of row.now none) }
    requires names { IsSound names.old }
    ensures node { IfOk result (λ made. AreNodesOf names.new (made ∷ []) (one_of row.now none)) }
    ensures grown { Grown names.old names.new }
    ensures known { HasNames names.old (one_of row.now none) → names.new ≡ names.old }
    ensures names { IsSound names.new }
{
    let number = row.number;
    match &row.content {
        tree_rows::Content::Chars(text) => {
            let text = text.try_clone()?;
            let content = Content::Chars(text);
            Ok(NewNode { number, content })
        }
        tree_rows::Content::Element(name) => {
            let element = name_element(alloc, names, name, row)?;
            let content = Content::Element(element);
            Ok(NewNode { number, content })
        }
    }
}

/// The nodes of siblings, under their own numbers.
fn new_nodes(
    alloc: Global,
    names: &mut Names,
    siblings: Siblings<'_>,
) -> Result<Vec<NewNode>, AllocError>
    requires called { HaveNames siblings }
    requires names { IsSound names.old }
    ensures nodes { IfOk result (λ made. AreNodesOf names.new made.items siblings.entry) }
    ensures grown { Grown names.old names.new }
    ensures known { HasNames names.old siblings.entry → names.new ≡ names.old }
    ensures names { IsSound names.new }
{
    let mut made = Vec::new(alloc);
    let mut left = siblings;
    'left: while let Some(Sibling { row, next, .. }) = left.first() {
        let node = new_node(alloc, names, row)?;
        made.push(node)?;
        left = next;
    }
    Ok(made)
}

/// Puts siblings, with all that is below them, below a node without children, each under its own number. It takes work in
/// proportion to the nodes. Where memory is wanting, some of them stand there.
#[cycle(spread)]
pub(crate) fn put_below(
    alloc: Global,
    links: &mut NodeLinks,
    names: &mut Names,
    parent: u32,
    siblings: Siblings<'_>,
) -> Result<(), AllocError>
    requires can { CanPlant links.old parent siblings }
    requires bare { IsBare links.old parent }
    requires names { IsSound names.old }
    ensures planted { OnOk result (Planted names.new links.old links.new parent at_end siblings.entry) }
    ensures grown { Grown names.old names.new }
    ensures known { HasNames names.old siblings.entry → names.new ≡ names.old }
    ensures names { IsSound names.new }
{
    let nodes = new_nodes(alloc, names, siblings.again())?;
    links.put_children(alloc, parent, nodes)?;
    let mut left = siblings;
    'left: while let Some(
        Sibling {
            row,
            children,
            next,
        },
    ) = left.first()
    {
        fill(alloc, links, names, row, children)?;
        left = next;
    }
    Ok(())
}

/// Puts all that is below a node without children; there is nothing below a text.
#[cycle(spread)]
fn fill(
    alloc: Global,
    links: &mut NodeLinks,
    names: &mut Names,
    row: &Row,
    children: Siblings<'_>,
) -> Result<(), AllocError>
    requires can { CanFill links.old row.now.number row.now.content children }
    requires names { IsSound names.old }
    ensures filled { OnOk result (Filled names.new links.old links.new row.now.number row.now.content children.entry) }
    ensures grown { Grown names.old names.new }
    ensures known { HasNames names.old (one_of row.now children.entry) → names.new ≡ names.old }
    ensures names { IsSound names.new }
{
    match &row.content {
        tree_rows::Content::Chars(_) => Ok(()),
        tree_rows::Content::Element(_) => put_below(alloc, links, names, row.number, children),
    }
}
