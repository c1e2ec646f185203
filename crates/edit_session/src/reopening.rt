//! Another schema set for a document that is open.

ghost use Rattle.std.specs.Prelude.{◌≡◌, ◌≤◌, ◌+◌, ◌*◌, IfOk, OnOk};
ghost use Rattle.tree_rows.specs.Forest.{Document, count};
ghost use Rattle.xs_names.specs.Names.{NameTable};
ghost use Rattle.compiled_schema.specs.Usable.{IsUsable, set_of};
ghost use Rattle.session_model.specs.State.{with_names};
ghost use Rattle.doc_changes.specs.Stands.{StandsFor};
ghost use Rattle.kept_keys.specs.Keys.{AreTargetsBy};
ghost use Rattle.edit_session.specs.Held.{IsPresent};

use crate::opening::{Opened, open_document};
use compiled_schema::Compiled;
use doc_tree::DocTree;
use std::alloc::{AllocError, Global};
use xs_names::Names;
use xsv_steps::{Ledger, Steps};

/// The same document by another set, with all that is kept of its elements by that, beside what there was. The nodes keep their
/// numbers, and no number that was given out is given out again. The table of the set gets the names of the document.
///
/// # Errors
///
/// `AllocError` is want of memory, or there are too many codes.
pub(crate) fn reopen_document<L: Ledger>(
    alloc: Global,
    doc: &DocTree,
    names: &Names,
    set: &mut Compiled,
    steps: &mut Steps<L>,
) -> Result<Opened, AllocError>
    requires stands { (d : Document) × StandsFor names.now doc.now d }
    requires usable { IsUsable set.old }
    ensures stands { IfOk result (λ opened. (d : Document) → StandsFor names.now doc.now d → StandsFor set.new.names opened.doc d) }
    ensures present { IfOk result (λ opened. IsPresent set.new opened.doc opened.kept) }
    ensures targets { IfOk result (λ opened. AreTargetsBy set.new opened.doc opened.kept.records.slots opened.keys) }
    ensures named { OnOk result ((d : Document) → StandsFor names.now doc.now d → set_of set.new ≡ with_names (set_of set.old) d.forest) }
    ensures least { steps.old ≤ steps.new }
    ensures few { (d : Document) → StandsFor names.now doc.now d → steps.new ≤ steps.old + 8 * count d.forest }
{
    let tree = doc.to_plain(names)?;
    open_document(alloc, set, tree, steps)
}
