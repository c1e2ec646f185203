//! Changes by numbers, those of nodes that come back too.

ghost use Rattle.std.specs.Prelude.{◌≡◌, ◌⊎◌, ◌≤◌, ◌<◌, ◌+◌, ℕ, Some, length, true, IfOk, OnOk};
ghost use Rattle.xs_names.specs.Names.{NameTable};
ghost use Rattle.tree_rows.specs.Forest.{Document};
ghost use Rattle.tree_edits.specs.Inverses as law;
ghost use Rattle.doc_nodes.specs.Nodes.{is_element_at};
ghost use Rattle.doc_changes.specs.Held.{parent_at};
ghost use Rattle.doc_changes.specs.Stands.{StandsFor};
ghost use Rattle.doc_tree.specs.Changes.{Means};
ghost use Rattle.kept_changes.specs.from_kept_children.Edited.{IsRightFor};
ghost use Rattle.kept_inverses.specs.Spots.{AreTurnedOver, IsSpotOf, IsReturn, IsTakenOut};
ghost use Rattle.kept_changes.specs.Turned.{Goes};
ghost use Rattle.kept_changes.specs.from_kept_forgetting.Below.{IsWithin};
ghost use Rattle.kept_changes.specs.Spots.{KeepsIdentityBut};
ghost use Rattle.kept_inverses.specs.Steps.{TakesInverse};
ghost use Rattle.kept_changes.specs.Steps.{TakesBelow};
ghost use Rattle.kept_changes.specs.from_kept_children.Steps.{width};

use compiled_schema::Compiled;
use doc_nodes::Content;
use doc_tree::{Change, DocTree, Part};
use kept_changes::kept_state::KeptState;
use kept_changes::{Spot, follow, owner_of, prune, removal};
use std::alloc::AllocError;
use xsv_steps::{Ledger, Steps};

// Where a part comes back below this node.
fn returned(part: &Part, parent: u32) -> Spot
    requires { 0 < length part.now }
    ensures { IsReturn part.now parent result }
{
    let row = &part.as_slice()[0];
    match &row.content {
        Content::Element(_) => Spot::Planted(row.number),
        Content::Chars(_) => Spot::Retexted(parent),
    }
}

/// Which element a change begins at.
pub fn spot_of(doc: &DocTree, change: &Change) -> Spot
    requires { (t : NameTable) × (d : Document) × (c : law.Change) × StandsFor t doc.now d × Means t change.now c × law.Fits d c }
    ensures { IsSpotOf doc.now change.now result }
{
    match change {
        Change::PutBack { parent, part, .. } => returned(part, *parent),
        Change::Take { node } => removal(doc, *node),
        Change::Name { node, .. } => Spot::Renamed(*node),
        Change::Attr { node, .. } => Spot::Attributed(*node),
        Change::Chars { node, .. } => Spot::Retexted(owner_of(doc, *node)),
    }
}

// Takes an element that is not the root out, and answers the change that puts it back. The steps are those of `prune`.
fn take<L: Ledger>(
    doc: &mut DocTree,
    set: &mut Compiled,
    kept: &mut KeptState,
    node: u32,
    steps: &mut Steps<L>,
) -> Result<Change, AllocError>
    requires right { IsRightFor set.old doc.old kept.old }
    requires can { (d : Document) × StandsFor set.old.names doc.old d × law.Fits d (law.take_out node) }
    requires element { is_element_at doc.old node ≡ true }
    ensures inverse { IfOk result (λ back. (d : Document) → StandsFor set.old.names doc.old d → law.Fits d (law.take_out node) → Means set.old.names back (law.inverse_of d (law.take_out node))) }
    ensures made { OnOk result ((d : Document) → StandsFor set.old.names doc.old d → StandsFor set.old.names doc.new (law.changed d (law.take_out node))) }
    ensures right { OnOk result (IsRightFor set.old doc.new kept.new) }
    ensures turned { OnOk result (Goes set.old.names doc.old doc.new node) }
    ensures identity { OnOk result (KeepsIdentityBut (λ n. IsWithin doc.old node n) kept.old kept.new) }
    ensures same { set.new ≡ set.old }
    ensures least { steps.old ≤ steps.new }
    ensures reach { ((doc.new ≡ doc.old) × (steps.new ≡ steps.old)) ⊎
        (((d : Document) → StandsFor set.old.names doc.old d → StandsFor set.old.names doc.new (law.changed d (law.take_out node)))
        × ((parent : ℕ) → parent_at doc.old node ≡ Some parent → TakesBelow set.old doc.new kept.old parent (width doc.new parent + 1) steps.old steps.new)) }
{
    let back = doc.put_back_of(node)?;
    prune(doc, set, kept, node, steps)?;
    Ok(back)
}

/// Makes a change of a document, and all that is kept of its elements right; answers the change that undoes it.
///
/// # Errors
///
/// `AllocError` is want of memory, or there are too many codes. The document is as it was, and no step was taken; or the change is
/// made, and there were no more steps than it may take. Nothing is stated of what is kept.
pub fn keep_inverse<L: Ledger>(
    doc: &mut DocTree,
    set: &mut Compiled,
    kept: &mut KeptState,
    change: Change,
    steps: &mut Steps<L>,
) -> Result<Change, AllocError>
    requires right { IsRightFor set.old doc.old kept.old }
    requires can { (d : Document) × (c : law.Change) × StandsFor set.old.names doc.old d × Means set.old.names change c × law.Fits d c }
    ensures inverse { IfOk result (λ back. (d : Document) (c : law.Change) → StandsFor set.old.names doc.old d → Means set.old.names change c → law.Fits d c
        → Means set.old.names back (law.inverse_of d c)) }
    ensures made { OnOk result ((d : Document) (c : law.Change) → StandsFor set.old.names doc.old d → Means set.old.names change c → law.Fits d c
        → StandsFor set.old.names doc.new (law.changed d c)) }
    ensures right { OnOk result (IsRightFor set.old doc.new kept.new) }
    ensures turned { OnOk result (AreTurnedOver set.old.names doc.old doc.new change) }
    ensures identity { OnOk result (KeepsIdentityBut (IsTakenOut doc.old change) kept.old kept.new) }
    ensures same { set.new ≡ set.old }
    ensures least { steps.old ≤ steps.new }
    ensures reach { (d : Document) (c : law.Change) → StandsFor set.old.names doc.old d → Means set.old.names change c → law.Fits d c
        → ((doc.new ≡ doc.old) × (steps.new ≡ steps.old)) ⊎
        (StandsFor set.old.names doc.new (law.changed d c) × TakesInverse set.old doc.old doc.new kept.old change steps.old steps.new) }
{
    match spot_of(doc, &change) {
        Spot::Pruned(node) => {
            drop(change);
            take(doc, set, kept, node, steps)
        }
        spot => {
            let back = doc.change(change)?;
            follow(doc, set, kept, spot, steps)?;
            Ok(back)
        }
    }
}
