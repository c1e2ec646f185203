//! A change that undoes another, with all that is kept of a document's elements.

ghost use Rattle.std.specs.Prelude.{◌≡◌, ◌≤◌, ℕ, Bool, IfOk, OnOk};
ghost use Rattle.tree_edits.specs.Inverses as law;
ghost use Rattle.doc_tree.specs.Changes.{Means};
ghost use Rattle.kept_keys.specs.Keys.{AreTargetsBy};
ghost use Rattle.edit_session.specs.Held.{IsPresent, Stands, document_in, state_by};
ghost use Rattle.edit_session.specs.Changed.{IsReached, TakesWithin};

use crate::turning::turn_of;
use compiled_schema::Compiled;
use doc_tree::{Change, DocTree};
use kept_inverses::kept_state::KeptState;
use kept_inverses::{keep_inverse, spot_of};
use kept_keys::{TargetKeys, settle_keys};
use std::alloc::AllocError;
use xsv_steps::{Ledger, Steps};

/// Makes a change of a document, and all that is kept of its elements right; answers the change that undoes it.
///
/// # Errors
///
/// `AllocError` is want of memory, or there are too many codes; nothing is stated then of what is kept.
pub(crate) fn change_kept<L: Ledger>(
    doc: &mut DocTree,
    set: &mut Compiled,
    kept: &mut KeptState,
    keys: &mut TargetKeys,
    change: Change,
    steps: &mut Steps<L>,
) -> Result<Change, AllocError>
    requires present { IsPresent set.old doc.old kept.old }
    requires targets { AreTargetsBy set.old doc.old kept.old.records.slots keys.old }
    requires can { (c : law.Change) × Means set.old.names change c × law.Fits (document_in set.old doc.old) c }
    ensures stands { Stands set.new doc.new }
    ensures done { OnOk result ((c : law.Change) → Means set.old.names change c → law.Fits (document_in set.old doc.old) c → IsReached set.old doc.old doc.new kept.new c) }
    ensures inverse { IfOk result (λ back. (c : law.Change) → Means set.old.names change c → law.Fits (document_in set.old doc.old) c
        → Means set.old.names back (law.inverse_of (document_in set.old doc.old) c)) }
    ensures same { set.new ≡ set.old }
    ensures targets { OnOk result (AreTargetsBy set.old doc.new kept.new.records.slots keys.new) }
    ensures least { steps.old ≤ steps.new }
    ensures few { (revision : ℕ) (closed : Bool) (c : law.Change) → Means set.old.names change c → law.Fits (document_in set.old doc.old) c
        → TakesWithin (state_by set.old doc.old kept.old revision closed) c steps.old steps.new }
{
    let turn = turn_of(kept.alloc, doc, spot_of(doc, &change))?;
    let back = keep_inverse(doc, set, kept, change, steps)?;
    settle_keys(doc, set, kept, keys, &turn)?;
    Ok(back)
}
