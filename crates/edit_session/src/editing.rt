//! An edit of a document with all that is kept of its elements.

ghost use Rattle.std.specs.Prelude.{◌≡◌, ◌≢◌, ◌≤◌, ◌⊎◌, ℕ, Bool, true, IfOk, OnOk, IfErr};
ghost use Rattle.tree_rows.specs.Forest.{Document};
ghost use Rattle.tree_edits.specs.Edits.{can_be_made};
ghost use Rattle.tree_edits.specs.Tests.{edited};
ghost use Rattle.session_model.specs.Spending.{BreaksWithin};
ghost use Rattle.doc_changes.specs.Stands.{StandsFor};
ghost use Rattle.doc_edits.specs.Changes.{CanMake, changed, IsPrepared};
ghost use Rattle.kept_inverses.specs.from_kept_changes.Steps.{Takes};
ghost use Rattle.kept_keys.specs.Keys.{AreTargetsBy};
ghost use Rattle.kept_keys.specs.from_kept_targets.TargetKeys.{TargetKeys as TargetKeysData};
ghost use Rattle.tree_edits.specs.declared.edit.EditError.TheVariants.{Memory};
ghost use Rattle.edit_session.specs.Costs.{edit_cost};
ghost use Rattle.edit_session.specs.Edited.{IsDone, IsLeft, IsReady, IsRefused};
ghost use Rattle.edit_session.specs.Held.{IsPresent, Stands, document_in, state_by};
ghost use Rattle.tree_edits.specs.declared.edit.Edit.{Edit as EditData};
ghost use Rattle.tree_edits.specs.Inverses.{inverse_of};
ghost use Rattle.tree_edits.specs.EditChanges.{change_of};
ghost use Rattle.doc_tree.specs.Changes.{Means};
ghost use Rattle.xs_names.specs.Names.{NameTable};

use crate::turning::turn_of;
use compiled_schema::Compiled;
use doc_edits::{Change, inverse_of, prepare};
use doc_tree::{Change as Inverse, DocTree};
use kept_inverses::kept_changes::{keep_change, records_stay_right_as_names_are_added, spot_of};
use kept_inverses::kept_state::KeptState;
use kept_keys::{TargetKeys, keys_stay_right_as_names_are_added, settle_keys};
use std::alloc::AllocError;
use tree_edits::{Edit, EditError};
use xsv_steps::{Ledger, Steps};

// The change that an edit is, once no test of it stands. The set gets the names that it brings.
fn ready(
    doc: &DocTree,
    set: &mut Compiled,
    kept: &KeptState,
    edit: &Edit,
) -> Result<Change, EditError>
    requires block { can_be_made edit.now ≡ true }
    requires present { IsPresent set.old doc.now kept.now }
    ensures stands { Stands set.new doc.now }
    ensures ready { IfOk result (λ change. IsReady set.old set.new doc.now kept.now edit.now change) }
    ensures targets { (keys : TargetKeysData) → AreTargetsBy set.old doc.now kept.now.records.slots keys → AreTargetsBy set.new doc.now kept.now.records.slots keys }
    ensures refused { IfErr result (λ e. IsRefused set.old set.new doc.now edit.now e) }
{
    records_stay_right_as_names_are_added();
    keys_stay_right_as_names_are_added();
    prepare(kept.alloc, doc, &mut set.names, edit)
}

// Makes a change that nothing refuses, and finds the codes of identity constraints and of IDs.
fn make<L: Ledger>(
    doc: &mut DocTree,
    set: &mut Compiled,
    kept: &mut KeptState,
    keys: &mut TargetKeys,
    change: Change,
    steps: &mut Steps<L>,
) -> Result<(), AllocError>
    requires present { IsPresent set.old doc.old kept.old }
    requires targets { AreTargetsBy set.old doc.old kept.old.records.slots keys.old }
    requires can { (d : Document) × StandsFor set.old.names doc.old d × CanMake set.old.names doc.old d change }
    ensures made { OnOk result ((d : Document) → StandsFor set.old.names doc.old d → StandsFor set.old.names doc.new (changed set.old.names d change)) }
    ensures present { OnOk result (IsPresent set.old doc.new kept.new) }
    ensures same { set.new ≡ set.old }
    ensures targets { OnOk result (AreTargetsBy set.old doc.new kept.new.records.slots keys.new) }
    ensures least { steps.old ≤ steps.new }
    ensures reach { (d : Document) → StandsFor set.old.names doc.old d → ((doc.new ≡ doc.old) × (steps.new ≡ steps.old)) ⊎
        (StandsFor set.old.names doc.new (changed set.old.names d change) × Takes set.old doc.old doc.new kept.old change steps.old steps.new) }
{
    let turn = turn_of(kept.alloc, doc, spot_of(doc, &change))?;
    keep_change(doc, set, kept, change, steps)?;
    settle_keys(doc, set, kept, keys, &turn)
}

// Makes a change that nothing refuses, as `make` does, and answers the change that undoes it, which is read before.
fn make_undoable<L: Ledger>(
    doc: &mut DocTree,
    set: &mut Compiled,
    kept: &mut KeptState,
    keys: &mut TargetKeys,
    change: Change,
    steps: &mut Steps<L>,
) -> Result<Inverse, AllocError>
    requires present { IsPresent set.old doc.old kept.old }
    requires targets { AreTargetsBy set.old doc.old kept.old.records.slots keys.old }
    requires can { (d : Document) × StandsFor set.old.names doc.old d × CanMake set.old.names doc.old d change }
    ensures made { OnOk result ((d : Document) → StandsFor set.old.names doc.old d → StandsFor set.old.names doc.new (changed set.old.names d change)) }
    ensures inverse { IfOk result (λ back. (t : NameTable) (d : Document) (edit : EditData) → StandsFor set.old.names doc.old d → can_be_made edit ≡ true
        → IsPrepared t set.old.names doc.old d edit change → Means set.old.names back (inverse_of d (change_of d edit))) }
    ensures present { OnOk result (IsPresent set.old doc.new kept.new) }
    ensures same { set.new ≡ set.old }
    ensures targets { OnOk result (AreTargetsBy set.old doc.new kept.new.records.slots keys.new) }
    ensures least { steps.old ≤ steps.new }
    ensures reach { (d : Document) → StandsFor set.old.names doc.old d → ((doc.new ≡ doc.old) × (steps.new ≡ steps.old)) ⊎
        (StandsFor set.old.names doc.new (changed set.old.names d change) × Takes set.old doc.old doc.new kept.old change steps.old steps.new) }
{
    let back = inverse_of(kept.alloc, doc, &change)?;
    make(doc, set, kept, keys, change, steps)?;
    Ok(back)
}

/// Makes an edit of a document, and all that is kept of its elements right; answers the change that undoes it. The table of the set gets
/// the names of the edit.
///
/// # Errors
///
/// The least refusal that the edit has, and then nothing has changed. Or `EditError::Memory`: memory is wanting, or there are too many
/// codes; nothing is stated then of what is kept.
pub(crate) fn edit_kept<L: Ledger>(
    doc: &mut DocTree,
    set: &mut Compiled,
    kept: &mut KeptState,
    keys: &mut TargetKeys,
    edit: &Edit,
    steps: &mut Steps<L>,
) -> Result<Inverse, EditError>
    requires block { can_be_made edit.now ≡ true }
    requires targets { AreTargetsBy set.old doc.old kept.old.records.slots keys.old }
    requires present { IsPresent set.old doc.old kept.old }
    ensures stands { Stands set.new doc.new }
    ensures done { OnOk result (IsDone set.old set.new doc.old doc.new kept.new edit.now) }
    ensures inverse { IfOk result (λ back. Means set.new.names back (inverse_of (document_in set.old doc.old) (change_of (document_in set.old doc.old) edit.now))) }
    ensures refused { IfErr result (λ e. IsLeft set.old set.new doc.old doc.new kept.old kept.new edit.now e) }
    ensures targets { OnOk result (AreTargetsBy set.new doc.new kept.new.records.slots keys.new) }
    ensures kept_targets { IfErr result (λ e. e ≢ Memory → keys.new ≡ keys.old) }
    ensures least { steps.old ≤ steps.new }
    ensures few { (revision : ℕ) (closed : Bool) → BreaksWithin edit_cost (state_by set.old doc.old kept.old revision closed) edit.now (edited (document_in set.old doc.old) edit.now) steps.old steps.new }
{
    let change = match ready(doc, set, kept, edit) {
        Ok(change) => change,
        Err(error) => return Err(error),
    };
    match make_undoable(doc, set, kept, keys, change, steps) {
        Ok(back) => Ok(back),
        Err(_) => Err(EditError::Memory),
    }
}
