//! Elements whose own texts, attributes or name are others.

ghost use Rattle.std.specs.Prelude.{◌≡◌, ◌≤◌, OnOk};
ghost use Rattle.compiled_schema.specs.Usable.{set_of};
ghost use Rattle.doc_changes.specs.Held.{parent_at};
ghost use Rattle.kept_children.specs.from_kept_records.Fit.{head_at};
ghost use Rattle.kept_children.specs.from_kept_records.Slots.{pair_at};
ghost use Rattle.kept_children.specs.from_kept_state.Kept.{IsBeside};
ghost use Rattle.kept_children.specs.from_kept_judging.Judged.{again_pair, root_pair};
ghost use Rattle.kept_children.specs.from_kept_below.Below.{KeepsIdentity};
ghost use Rattle.kept_children.specs.Edited.{IsRightFor};
ghost use Rattle.kept_changes.specs.Own.{IsRetexted, IsReattributed, IsNamedAnew};
ghost use Rattle.kept_changes.specs.Steps.{TakesAt, TakesName};

use compiled_schema::Compiled;
use doc_readers::chars_of;
use doc_tree::DocTree;
use kept_children::child_lists::place_of;
use kept_children::kept_above::settle_above;
use kept_children::kept_below::settle_again;
use kept_children::kept_judging::{judge, pair_again, pair_of_root};
use kept_children::kept_state::{Governed, KeptState};
use kept_children::name_child;
use std::alloc::AllocError;
use xsv_steps::{Ledger, Steps};

/// Makes all records right, where the texts of an element are others now. It takes no step.
pub(crate) fn retext(
    doc: &DocTree,
    set: &mut Compiled,
    kept: &mut KeptState,
    node: u32,
) -> Result<(), AllocError>
    requires beside { IsBeside set.old doc.now kept.old }
    requires retexted { IsRetexted set.old doc.now kept.old node }
    ensures right { OnOk result (IsRightFor set.old doc.now kept.new) }
    ensures identity { OnOk result (KeepsIdentity kept.old kept.new) }
    ensures same { set.new ≡ set.old }
{
    let text = chars_of(kept.alloc, doc, node)?;
    kept.records.set_text(node, text);
    let was = kept.outcome(node);
    let pair = kept.pair(node);
    judge(doc, set, kept, &Governed { node, pair })?;
    settle_above(doc, set, kept, node, was)
}

/// Makes all records right, where the attributes of an element are others now. It takes at most three steps for each child element of an
/// element whose type is another.
pub(crate) fn reattribute<L: Ledger>(
    doc: &DocTree,
    set: &mut Compiled,
    kept: &mut KeptState,
    node: u32,
    steps: &mut Steps<L>,
) -> Result<(), AllocError>
    requires beside { IsBeside set.old doc.now kept.old }
    requires reattributed { IsReattributed set.old doc.now kept.old node }
    ensures right { OnOk result (IsRightFor set.old doc.now kept.new) }
    ensures identity { OnOk result (KeepsIdentity kept.old kept.new) }
    ensures same { set.new ≡ set.old }
    ensures least { steps.old ≤ steps.new }
    ensures steps { TakesAt set.old doc.now kept.old node (again_pair (set_of set.old) (pair_at kept.old.records.slots node) (head_at (set_of set.old) doc.now node)) steps.old steps.new }
{
    let was = kept.outcome(node);
    let pair = kept.pair(node);
    let element = pair_again(kept.alloc, doc, set, Governed { node, pair })?;
    settle_again(doc, set, kept, &element, steps)?;
    settle_above(doc, set, kept, node, was)
}

/// Makes all records right, where an element has another name now. The steps are those of `name_child`; where it is the root, as many as
/// those of `reattribute`.
pub(crate) fn rename<L: Ledger>(
    doc: &DocTree,
    set: &mut Compiled,
    kept: &mut KeptState,
    node: u32,
    steps: &mut Steps<L>,
) -> Result<(), AllocError>
    requires beside { IsBeside set.old doc.now kept.old }
    requires renamed { IsNamedAnew set.old doc.now kept.old node }
    ensures right { OnOk result (IsRightFor set.old doc.now kept.new) }
    ensures identity { OnOk result (KeepsIdentity kept.old kept.new) }
    ensures same { set.new ≡ set.old }
    ensures least { steps.old ≤ steps.new }
    ensures steps { TakesName set.old doc.now kept.old node (parent_at doc.now node) steps.old steps.new }
{
    match place_of(doc, node) {
        Some(at) => name_child(doc, set, kept, &at, steps),
        None => rename_root(doc, set, kept, steps),
    }
}

// Makes all records right, where the root has another name now.
fn rename_root<L: Ledger>(
    doc: &DocTree,
    set: &mut Compiled,
    kept: &mut KeptState,
    steps: &mut Steps<L>,
) -> Result<(), AllocError>
    requires beside { IsBeside set.old doc.now kept.old }
    requires renamed { IsNamedAnew set.old doc.now kept.old 1 }
    ensures right { OnOk result (IsRightFor set.old doc.now kept.new) }
    ensures identity { OnOk result (KeepsIdentity kept.old kept.new) }
    ensures same { set.new ≡ set.old }
    ensures least { steps.old ≤ steps.new }
    ensures steps { TakesAt set.old doc.now kept.old 1 (root_pair (set_of set.old) (head_at (set_of set.old) doc.now 1)) steps.old steps.new }
{
    let root = pair_of_root(kept.alloc, doc, set)?;
    settle_again(doc, set, kept, &root, steps)
}
