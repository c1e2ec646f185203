//! Changes, one by one.

ghost use Rattle.std.specs.Prelude.{◌≡◌, ◌≢◌, ◌⊎◌, ◌≤◌, ◌+◌, ℕ, None, Some, true, length, OnOk, OnErr};
ghost use Rattle.xs_names.specs.Names.{NameTable};
ghost use Rattle.tree_rows.specs.Forest.{Document};
ghost use Rattle.tree_rows.specs.Whole.{IsTree};
ghost use Rattle.tree_edits.specs.Tests.{made};
ghost use Rattle.tree_edits.specs.declared.edit.Edit.TheVariants as edits;
ghost use Rattle.doc_nodes.specs.Nodes.{is_element_at};
ghost use Rattle.doc_changes.specs.Held.{parent_at};
ghost use Rattle.doc_changes.specs.Stands.{StandsFor};
ghost use Rattle.doc_edits.specs.Changes.{CanMake, IsMade, changed};
ghost use Rattle.kept_children.specs.from_kept_state.Kept.{IsBeside};
ghost use Rattle.kept_children.specs.from_kept_below.Below.{KeepsIdentity};
ghost use Rattle.kept_children.specs.from_kept_forgetting.Below.{IsWithin};
ghost use Rattle.kept_children.specs.Edited.{IsRightFor};
ghost use Rattle.kept_children.specs.Steps.{width};
ghost use Rattle.kept_changes.specs.Spots.{HasChangedAt, HasCome, IsRemoval, IsSpot, IsTakenBy, KeepsIdentityBut, TakesSpot};
ghost use Rattle.kept_changes.specs.Turned.{AreTurnedBy, Goes};
ghost use Rattle.kept_changes.specs.Steps.{Takes, TakesBelow};

use crate::own::{reattribute, rename, retext};
use compiled_schema::Compiled;
use doc_edits::{Change, make_change};
use doc_tree::DocTree;
use kept_children::child_lists::place_of;
use kept_children::kept_forgetting::forget_below;
use kept_children::kept_state::KeptState;
use kept_children::{put_child, take_child};
use plain_tree::Tree;
use std::alloc::AllocError;
use tree_rows::NodeKind;
use xsv_steps::{Ledger, Steps};

/// Which element a change begins at.
#[derive(Clone, Copy)]
pub enum Spot {
    /// This element, with all below it, is put in.
    Planted(u32),
    /// This element, with all below it, is taken away.
    Pruned(u32),
    /// The texts of this element are others.
    Retexted(u32),
    /// Its attributes are.
    Attributed(u32),
    /// Its name is.
    Renamed(u32),
}

// The number that the root of a part gets.
fn number_of_part(doc: &DocTree, part: &Tree) -> u32
    ensures number { result ≡ length doc.now }
    ensures tree { IsTree part.now }
{
    prove!(part.next_free() > 1);
    doc.next_free()
}

/// The parent of a node that has one.
pub fn owner_of(doc: &DocTree, node: u32) -> u32
    requires { parent_at doc.now node ≢ None }
    ensures { parent_at doc.now node ≡ Some result }
{
    match doc.parent(node) {
        Some(parent) => parent,
        None => unreachable!(),
    }
}

/// Where a node goes.
pub fn removal(doc: &DocTree, node: u32) -> Spot
    requires { parent_at doc.now node ≢ None }
    ensures { IsRemoval doc.now node result }
{
    match doc.live(node) {
        Some(NodeKind::Element) => Spot::Pruned(node),
        _ => Spot::Retexted(owner_of(doc, node)),
    }
}

/// Which element a change begins at.
pub fn spot_of(doc: &DocTree, change: &Change) -> Spot
    requires { (t : NameTable) × (d : Document) × StandsFor t doc.now d × CanMake t doc.now d change.now }
    ensures { IsSpot doc.now change.now result }
{
    match change {
        Change::Insert { part, .. } => Spot::Planted(number_of_part(doc, part)),
        Change::AddText { parent, .. } => Spot::Retexted(*parent),
        Change::SetText { node, .. } => Spot::Retexted(owner_of(doc, *node)),
        Change::Remove { node } => removal(doc, *node),
        Change::Rename { node, .. } => Spot::Renamed(*node),
        Change::SetAttr { node, .. } | Change::UnsetAttr { node, .. } => Spot::Attributed(*node),
    }
}

// Makes a change of the document alone.
fn make(doc: &mut DocTree, set: &mut Compiled, change: Change) -> Result<(), AllocError>
    requires can { (d : Document) × StandsFor set.old.names doc.old d × CanMake set.old.names doc.old d change }
    ensures made { OnOk result ((d : Document) → StandsFor set.old.names doc.old d → StandsFor set.old.names doc.new (changed set.old.names d change)) }
    ensures nodes { OnOk result (IsMade set.old.names doc.old doc.new change) }
    ensures err { OnErr result (doc.new ≡ doc.old) }
    ensures same { set.new ≡ set.old }
{
    make_change(doc, &mut set.names, change)
}

/// Takes an element that is not the root out of what is kept and out of the document. The steps are those of `take_child`.
///
/// # Errors
///
/// `AllocError` is want of memory, or there are too many codes. The element is gone, and nothing is stated of what is kept.
pub fn prune<L: Ledger>(
    doc: &mut DocTree,
    set: &mut Compiled,
    kept: &mut KeptState,
    node: u32,
    steps: &mut Steps<L>,
) -> Result<(), AllocError>
    requires right { IsRightFor set.old doc.old kept.old }
    requires element { is_element_at doc.old node ≡ true }
    requires below { parent_at doc.old node ≢ None }
    ensures tree { (t : NameTable) (d : Document) → StandsFor t doc.old d → StandsFor t doc.new (made d (edits.Remove node)) }
    ensures right { OnOk result (IsRightFor set.old doc.new kept.new) }
    ensures turned { Goes set.old.names doc.old doc.new node }
    ensures identity { OnOk result (KeepsIdentityBut (λ n. IsWithin doc.old node n) kept.old kept.new) }
    ensures same { set.new ≡ set.old }
    ensures least { steps.old ≤ steps.new }
    ensures steps { (parent : ℕ) → parent_at doc.old node ≡ Some parent → TakesBelow set.old doc.new kept.old parent (width doc.new parent + 1) steps.old steps.new }
{
    match place_of(doc, node) {
        None => unreachable!(),
        Some(at) => {
            let outcome = kept.outcome(node);
            forget_below(doc, kept, node);
            doc.remove(node);
            take_child(doc, set, kept, (&at, outcome), steps)
        }
    }
}

// Keeps a part that was put into the document. The steps are those of `put_child`.
fn plant<L: Ledger>(
    doc: &DocTree,
    set: &mut Compiled,
    kept: &mut KeptState,
    node: u32,
    steps: &mut Steps<L>,
) -> Result<(), AllocError>
    requires beside { IsBeside set.old doc.now kept.old }
    requires come { HasCome set.old doc.now kept.old node }
    ensures right { OnOk result (IsRightFor set.old doc.now kept.new) }
    ensures identity { OnOk result (KeepsIdentity kept.old kept.new) }
    ensures same { set.new ≡ set.old }
    ensures least { steps.old ≤ steps.new }
    ensures steps { (parent : ℕ) → parent_at doc.now node ≡ Some parent → TakesBelow set.old doc.now kept.old parent (width doc.now parent) steps.old steps.new }
{
    match place_of(doc, node) {
        None => unreachable!(),
        Some(at) => put_child(doc, set, kept, &at, steps),
    }
}

/// Makes all that is kept right, where the document has changed at an element that is there.
///
/// # Errors
///
/// `AllocError` is want of memory, or there are too many codes. Nothing is stated of what is kept.
pub fn follow<L: Ledger>(
    doc: &DocTree,
    set: &mut Compiled,
    kept: &mut KeptState,
    spot: Spot,
    steps: &mut Steps<L>,
) -> Result<(), AllocError>
    requires beside { IsBeside set.old doc.now kept.old }
    requires changed { HasChangedAt set.old doc.now kept.old spot }
    ensures right { OnOk result (IsRightFor set.old doc.now kept.new) }
    ensures identity { OnOk result (KeepsIdentity kept.old kept.new) }
    ensures same { set.new ≡ set.old }
    ensures least { steps.old ≤ steps.new }
    ensures steps { TakesSpot set.old doc.now kept.old spot steps.old steps.new }
{
    match spot {
        Spot::Planted(node) => plant(doc, set, kept, node, steps),
        Spot::Retexted(node) => retext(doc, set, kept, node),
        Spot::Attributed(node) => reattribute(doc, set, kept, node, steps),
        Spot::Renamed(node) => rename(doc, set, kept, node, steps),
        Spot::Pruned(_) => unreachable!(),
    }
}

/// Makes a change of a document, and all that is kept of its elements right. The set has the names of the change.
///
/// # Errors
///
/// `AllocError` is want of memory, or there are too many codes. The document is as it was, and no step was taken; or the change is
/// made, and there were no more steps than it may take. Nothing is stated of what is kept.
pub fn keep_change<L: Ledger>(
    doc: &mut DocTree,
    set: &mut Compiled,
    kept: &mut KeptState,
    change: Change,
    steps: &mut Steps<L>,
) -> Result<(), AllocError>
    requires right { IsRightFor set.old doc.old kept.old }
    requires can { (d : Document) × StandsFor set.old.names doc.old d × CanMake set.old.names doc.old d change }
    ensures made { OnOk result ((d : Document) → StandsFor set.old.names doc.old d → StandsFor set.old.names doc.new (changed set.old.names d change)) }
    ensures right { OnOk result (IsRightFor set.old doc.new kept.new) }
    ensures turned { OnOk result (AreTurnedBy set.old.names doc.old doc.new change) }
    ensures identity { OnOk result (KeepsIdentityBut (IsTakenBy doc.old change) kept.old kept.new) }
    ensures same { set.new ≡ set.old }
    ensures least { steps.old ≤ steps.new }
    ensures reach { (d : Document) → StandsFor set.old.names doc.old d → ((doc.new ≡ doc.old) × (steps.new ≡ steps.old)) ⊎
        (StandsFor set.old.names doc.new (changed set.old.names d change) × Takes set.old doc.old doc.new kept.old change steps.old steps.new) }
{
    match spot_of(doc, &change) {
        Spot::Pruned(node) => {
            drop(change);
            prune(doc, set, kept, node, steps)
        }
        spot => {
            make(doc, set, change)?;
            follow(doc, set, kept, spot, steps)
        }
    }
}
