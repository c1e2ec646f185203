//! What edits and changes of a document touch, and turns that come too late.

ghost use Rattle.std.specs.Prelude.{◌≡◌};
ghost use Rattle.doc_tree.specs.Changes.{Means};
ghost use Rattle.open_document.specs.Held.{state_of};
ghost use Rattle.open_document.specs.Touches as touches;
ghost use Rattle.tree_edits.specs.Inverses as law;

use crate::held::OpenDocument;
use doc_tree::Change;
use edit_history::Touched;
use edit_session::EditSession;
use session_model::Session;
use tree_edits::Edit;

// A node itself, and the list that it is in, where it has a parent.
fn node_in(session: &EditSession, node: u32) -> Touched
    ensures { result ≡ touches.node_in node session.now.document.forest }
{
    Touched {
        node: Some(node),
        list: session.parent_of(node),
    }
}

// A node itself.
fn node_alone(node: u32) -> Touched
    ensures { result ≡ touches.node_alone node }
{
    Touched {
        node: Some(node),
        list: None,
    }
}

// The list of a node's children.
fn list_of(parent: u32) -> Touched
    ensures { result ≡ touches.list_of parent }
{
    Touched {
        node: None,
        list: Some(parent),
    }
}

/// What an edit of a document touches.
pub(crate) fn touched_by(session: &EditSession, edit: &Edit) -> Touched
    ensures { result ≡ touches.touched edit.now session.now.document.forest }
{
    match edit {
        Edit::Insert { parent, .. } | Edit::AddText { parent, .. } => list_of(*parent),
        Edit::Remove { node } | Edit::Rename { node, .. } => node_in(session, *node),
        Edit::SetText { node, .. } | Edit::SetAttr { node, .. } | Edit::UnsetAttr { node, .. } =>
            node_alone(*node),
    }
}

/// What a change of a document touches.
pub(crate) fn touched_on(session: &EditSession, change: &Change) -> Touched
    ensures { (c : law.Change) → Means session.now.set.names change.now c → result ≡ touches.touches c session.now.document.forest }
{
    match change {
        Change::PutBack { parent, .. } => list_of(*parent),
        Change::Take { node } | Change::Name { node, .. } => node_in(session, *node),
        Change::Attr { node, .. } | Change::Chars { node, .. } => node_alone(*node),
    }
}

// The node that an edit names.
fn named(edit: &Edit) -> u32
    ensures { result ≡ touches.named edit.now }
{
    match edit {
        Edit::Insert { parent, .. } | Edit::AddText { parent, .. } => *parent,
        Edit::Remove { node }
        | Edit::Rename { node, .. }
        | Edit::SetText { node, .. }
        | Edit::SetAttr { node, .. }
        | Edit::UnsetAttr { node, .. } => *node,
    }
}

// The latest revision that another author made after the one that was seen, by touching what an edit touches; `None` where there is none,
// or the node that the edit names is not live.
fn stale(document: &OpenDocument, author: u32, seen: u64, edit: &Edit) -> Option<u64>
    ensures { result ≡ touches.stale_by (state_of document.now) author seen edit.now }
{
    match document.session.live(named(edit)) {
        None => None,
        Some(_) => document
            .turns
            .stale(author, seen, &touched_by(&document.session, edit)),
    }
}

/// Why an edit by an author is not looked at.
#[derive(Clone, Copy)]
pub enum TurnFault {
    /// The author cannot have seen a revision that is none yet.
    BadRevision,
    /// Another author made this revision after the one that was seen, and touched the same.
    Stale(u64),
}

/// Why an edit by an author who had seen a revision is not looked at; `None` where it is an edit as others are.
pub(crate) fn turn_fault(
    document: &OpenDocument,
    author: u32,
    seen: u64,
    edit: &Edit,
) -> Option<TurnFault>
    ensures { result ≡ touches.turn_fault (state_of document.now) author seen edit.now }
{
    if document.session.revision() < seen {
        return Some(TurnFault::BadRevision);
    }
    match stale(document, author, seen, edit) {
        None => None,
        Some(revision) => Some(TurnFault::Stale(revision)),
    }
}
