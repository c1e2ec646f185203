//! The nodes that an edit names, and room for new ones.

ghost use Rattle.std.specs.Prelude.{◌≡◌, ◌≢◌, ◌+◌, ◌||◌, nat_lt, ℕ, List, Some, None, Err, Result, OnOk, IfErr};
ghost use Rattle.xs_names.specs.Names.{NameTable};
ghost use Rattle.tree_rows.specs.Forest.{Document};
ghost use Rattle.tree_rows.specs.declared.limits.TheConstants.{MAX_NODES};
ghost use Rattle.tree_rows.specs.declared.row.NodeKind.TheVariants as kinds;
ghost use Rattle.tree_edits.specs.Edits.{put, too_many_more};
ghost use Rattle.tree_edits.specs.Tests.{edited};
ghost use Rattle.tree_edits.specs.declared.edit.Edit.TheVariants as edits;
ghost use Rattle.tree_edits.specs.declared.edit.EditError.{EditError};
ghost use Rattle.doc_changes.specs.Stands.{StandsFor};
ghost use Rattle.doc_changes.specs.Held.{kind_at, parent_at};
ghost use Rattle.doc_edits.specs.inside.Tested.{IsNoElement, HasPlace, HasRoom, HasNoRoom};

use doc_tree::DocTree;
use tree_edits::EditError;
use tree_rows::{MAX_DEPTH, MAX_NODES, NodeKind};

const MOST_NODES: usize = MAX_NODES as usize;

const MOST_LEVELS: usize = MAX_DEPTH as usize;

const MAX_NUMBER: usize = 4_294_967_295;

/// Refuses what is no element.
pub(crate) fn element_here(doc: &DocTree, node: u32) -> Result<(), EditError>
    ensures ok { OnOk result (kind_at doc.now node ≡ Some kinds.Element) }
    ensures err { IfErr result (λ e. (t : NameTable) (d : Document) → StandsFor t doc.now d → IsNoElement d node e) }
{
    match doc.live(node) {
        None => Err(EditError::UnknownNode),
        Some(NodeKind::Chars) => Err(EditError::NotElement),
        Some(NodeKind::Element) => Ok(()),
    }
}

/// Refuses what is no text.
pub(crate) fn text_here(doc: &DocTree, node: u32) -> Result<(), EditError>
    ensures ok { OnOk result (kind_at doc.now node ≡ Some kinds.Chars) }
    ensures err { IfErr result (λ e. (t : NameTable) (d : Document) (chars : List ℕ) → StandsFor t doc.now d → edited d (edits.SetText node chars) ≡ Err e) }
{
    match doc.live(node) {
        None => Err(EditError::UnknownNode),
        Some(NodeKind::Element) => Err(EditError::NotText),
        Some(NodeKind::Chars) => Ok(()),
    }
}

/// Refuses the root, and what is no node.
pub(crate) fn child_here(doc: &DocTree, node: u32) -> Result<(), EditError>
    ensures ok { OnOk result (parent_at doc.now node ≢ None) }
    ensures err { IfErr result (λ e. (t : NameTable) (d : Document) → StandsFor t doc.now d → edited d (edits.Remove node) ≡ Err e) }
{
    match doc.live(node) {
        None => Err(EditError::UnknownNode),
        Some(_) => match doc.parent(node) {
            None => Err(EditError::RootFixed),
            Some(_) => Ok(()),
        },
    }
}

/// Refuses what is no place among the children of an element.
pub(crate) fn place_here(doc: &DocTree, parent: u32, index: u32) -> Result<(), EditError>
    ensures element { OnOk result (kind_at doc.now parent ≡ Some kinds.Element) }
    ensures ok { OnOk result ((t : NameTable) (d : Document) → StandsFor t doc.now d → HasPlace d parent index) }
    ensures err { IfErr result (λ e. (t : NameTable) (d : Document) → StandsFor t doc.now d → (change : ℕ → Result Document EditError) → put d.forest parent index change ≡ Err e) }
{
    element_here(doc, parent)?;
    if index > doc.child_count(parent) {
        return Err(EditError::BadIndex);
    }
    Ok(())
}

/// Whether so many more nodes beside these would be too many, or would use the last number.
fn are_past(live: u32, next_free: u32, more: usize) -> bool
    ensures { result ≡ (nat_lt MAX_NODES (live + more) || nat_lt 4294967295 (next_free + more)) }
{
    let live = live as usize;
    let next = next_free as usize;
    more > MOST_NODES || live + more > MOST_NODES || next + more > MAX_NUMBER
}

/// Whether so many more nodes would be too many, or would use the last number.
fn are_too_many(doc: &DocTree, more: usize) -> bool
    ensures { (t : NameTable) (d : Document) → StandsFor t doc.now d → result ≡ too_many_more d more }
{
    are_past(doc.node_count(), doc.next_free(), more)
}

/// Refuses so many new nodes below an element, where they pass a limit; the deepest element stands this deep among them.
pub(crate) fn fit(doc: &DocTree, parent: u32, nodes: usize, deepest: usize) -> Result<(), EditError>
    requires stands { (t : NameTable) × (d : Document) × StandsFor t doc.now d }
    requires element { kind_at doc.now parent ≡ Some kinds.Element }
    ensures ok { OnOk result ((t : NameTable) (d : Document) → StandsFor t doc.now d → HasRoom d parent nodes deepest) }
    ensures err { IfErr result (λ e. (t : NameTable) (d : Document) → StandsFor t doc.now d → HasNoRoom d parent nodes deepest e) }
{
    if are_too_many(doc, nodes) {
        return Err(EditError::TooManyNodes);
    }
    if deepest > MOST_LEVELS - doc.depth(parent) as usize {
        return Err(EditError::TooDeep);
    }
    Ok(())
}
