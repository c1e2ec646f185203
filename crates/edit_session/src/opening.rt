//! A document that is opened.

ghost use Rattle.std.specs.Prelude.{◌≡◌, ◌≤◌, ◌+◌, ◌*◌, ℕ, [], None, IfOk, OnOk};
ghost use Rattle.tree_rows.specs.Forest.{Document, count};
ghost use Rattle.compiled_schema.specs.Usable.{IsUsable, set_of};
ghost use Rattle.session_model.specs.State.{with_names};
ghost use Rattle.doc_changes.specs.Stands.{StandsFor};
ghost use Rattle.kept_slots.specs.Slots.{at};
ghost use Rattle.kept_inverses.specs.from_kept_state.Kept.{IsBeside};
ghost use Rattle.doc_nodes.specs.Nodes.{Nodes};
ghost use Rattle.kept_keys.specs.Keys.{AreTargets, AreTargetsBy};
ghost use Rattle.edit_session.specs.Held.{Stands, IsPresent};

use compiled_schema::{Compiled, usable_with_more_names};
use doc_tree::DocTree;
use kept_below::open_records;
use kept_inverses::kept_state::KeptState;
use kept_keys::{TargetKeys, Turn, settle_keys};
use plain_tree::{Tree, add_names, document_names_are_found};
use std::alloc::{AllocError, Global};
use xs_names::NsId;
use xsv_steps::{Ledger, Steps};

/// A document, with all that is kept of its elements.
#[derive(Drop)]
pub(crate) struct Opened {
    pub doc: DocTree,
    pub kept: KeptState,
    pub keys: TargetKeys,
}

// The nodes of a tree, whose names are put into the table of the set. The tree is let go of before more is kept beside the nodes.
fn nodes_of(alloc: Global, set: &mut Compiled, tree: Tree) -> Result<DocTree, AllocError>
    requires usable { IsUsable set.old }
    ensures stands { IfOk result (λ doc. StandsFor set.new.names doc tree) }
    ensures usable { OnOk result (IsUsable set.new) }
    ensures named { OnOk result (set_of set.new ≡ with_names (set_of set.old) tree.forest) }
{
    // Who reads a table of names is told that it is sound.
    let _sound = set.names.lookup(NsId::ABSENT, "");
    document_names_are_found();
    usable_with_more_names();
    add_names(&mut set.names, &tree)?;
    DocTree::from_plain(alloc, &mut set.names, &tree)
}

// Keeps all elements of a document of which nothing is kept yet, with their codes.
fn fill<L: Ledger>(
    doc: &DocTree,
    set: &mut Compiled,
    kept: &mut KeptState,
    keys: &mut TargetKeys,
    steps: &mut Steps<L>,
) -> Result<(), AllocError>
    requires beside { IsBeside set.old doc.now kept.old }
    requires untold { (ns : Nodes) → AreTargets set.old ns [] keys.old }
    requires none { (n : ℕ) → at kept.old.records.slots n ≡ None }
    ensures present { OnOk result (IsPresent set.old doc.now kept.new) }
    ensures targets { OnOk result (AreTargetsBy set.old doc.now kept.new.records.slots keys.new) }
    ensures same { set.new ≡ set.old }
    ensures least { steps.old ≤ steps.new }
    ensures few { (d : Document) → StandsFor set.old.names doc.now d → steps.new ≤ steps.old + 3 * count d.forest }
{
    open_records(doc, set, kept, steps)?;
    settle_keys(doc, set, kept, keys, &Turn::Listed(1))
}

// Keeps all elements of a document.
fn keep_all<L: Ledger>(
    alloc: Global,
    doc: &DocTree,
    set: &mut Compiled,
    keys: &mut TargetKeys,
    steps: &mut Steps<L>,
) -> Result<KeptState, AllocError>
    requires usable { IsUsable set.old }
    requires untold { (ns : Nodes) → AreTargets set.old ns [] keys.old }
    requires stands { Stands set.old doc.now }
    ensures present { IfOk result (λ kept. IsPresent set.old doc.now kept) }
    ensures targets { IfOk result (λ kept. AreTargetsBy set.old doc.now kept.records.slots keys.new) }
    ensures same { set.new ≡ set.old }
    ensures least { steps.old ≤ steps.new }
    ensures few { (d : Document) → StandsFor set.old.names doc.now d → steps.new ≤ steps.old + 3 * count d.forest }
{
    let mut kept = KeptState::new(alloc)?;
    fill(doc, set, &mut kept, keys, steps)?;
    Ok(kept)
}

/// A document of the nodes of a tree, with all that is kept of its elements. The table of the set gets the names of the tree.
///
/// # Errors
///
/// `AllocError` is want of memory, or there are too many codes.
pub(crate) fn open_document<L: Ledger>(
    alloc: Global,
    set: &mut Compiled,
    tree: Tree,
    steps: &mut Steps<L>,
) -> Result<Opened, AllocError>
    requires usable { IsUsable set.old }
    ensures stands { IfOk result (λ opened. StandsFor set.new.names opened.doc tree) }
    ensures present { IfOk result (λ opened. IsPresent set.new opened.doc opened.kept) }
    ensures targets { IfOk result (λ opened. AreTargetsBy set.new opened.doc opened.kept.records.slots opened.keys) }
    ensures named { OnOk result (set_of set.new ≡ with_names (set_of set.old) tree.forest) }
    ensures least { steps.old ≤ steps.new }
    ensures few { steps.new ≤ steps.old + 8 * count tree.forest }
{
    let doc = nodes_of(alloc, set, tree)?;
    let mut keys = TargetKeys::new(alloc, set)?;
    let kept = keep_all(alloc, &doc, set, &mut keys, steps)?;
    Ok(Opened { doc, kept, keys })
}
