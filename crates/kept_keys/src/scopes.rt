//! The codes of each element with identity constraints, and those of IDs at the root.

ghost use Rattle.std.specs.Prelude.{◌≡◌, ◌≢◌, ◌↔◌, ℕ, [], ◌∷◌, IsTrue, OnOk};
ghost use Rattle.tree_rows.specs.Forest.{Document};
ghost use Rattle.what_is_found.specs.Identity.{seen};
ghost use Rattle.identity_tables.specs.Ids.{id_codes};
ghost use Rattle.assessment.specs.Bearings.{borne_values};
ghost use Rattle.compiled_schema.specs.Usable.{set_of};
ghost use Rattle.kept_above.specs.from_kept_records.Slots.{IsMade, kept_at};
ghost use Rattle.kept_above.specs.from_kept_records.Fit.{models_of, IsGathered, IsTop};
ghost use Rattle.kept_above.specs.from_kept_records.Found.{IsOver, SaysFound, found_in};
ghost use Rattle.kept_above.specs.from_kept_state.Kept.{FitBut, IsBeside};
ghost use Rattle.kept_keys.specs.Keys.{AreTargetsBy, IsCoded, IsWhole, KeepsCodes, KeepsElements, WereTargets, codes_at};

use crate::codes::{NumberedCodes, codes_of};
use assess_records::Codes;
use compiled_schema::Compiled;
use doc_tree::DocTree;
use kept_above::kept_judging::judge;
use kept_above::kept_state::{Governed, KeptState};
use kept_above::settle_above;
use kept_targets::{TargetKeys, Turn};
use std::alloc::AllocError;

// Judges an element again whose codes of identity constraints, or of IDs, are others, and makes the records above it right.
fn judge_upwards(
    doc: &DocTree,
    set: &mut Compiled,
    kept: &mut KeptState,
    node: u32,
) -> Result<(), AllocError>
    requires beside { IsBeside set.old doc.now kept.old }
    requires top { IsTop (set_of set.old) doc.now kept.old.records.slots }
    requires made { IsMade kept.old.records.slots node }
    requires fit { FitBut set.old doc.now kept.old (node ∷ []) }
    requires gathered { IsGathered (set_of set.old) (models_of set.old) doc.now kept.old.records.slots kept.old.lists node }
    ensures whole { OnOk result (IsWhole set.old doc.now kept.new) }
    ensures codes { OnOk result (KeepsCodes kept.old kept.new) }
    ensures same { set.new ≡ set.old }
{
    let was = kept.outcome(node);
    let pair = kept.pair(node);
    judge(doc, set, kept, &Governed { node, pair })?;
    settle_above(doc, set, kept, node, was)
}

// Whether an element has these codes of its identity constraints.
fn has_codes(kept: &KeptState, node: u32, codes: &Codes) -> bool
    requires { IsMade kept.now.records.slots node }
    ensures { IsTrue result ↔ ((kept_at kept.now.records.slots node).identity ≡ codes.now) }
{
    kept.at(node).identity == *codes
}

// Gives an element these codes of its identity constraints, and where they are others makes the records right.
fn settle_scope(
    doc: &DocTree,
    set: &mut Compiled,
    kept: &mut KeptState,
    node: u32,
    codes: Codes,
) -> Result<(), AllocError>
    requires some { set.old.identities.items ≢ [] }
    requires whole { IsWhole set.old doc.now kept.old }
    requires made { IsMade kept.old.records.slots node }
    ensures whole { OnOk result (IsWhole set.old doc.now kept.new) }
    ensures coded { OnOk result (IsCoded kept.old kept.new node codes) }
    ensures same { set.new ≡ set.old }
{
    if has_codes(kept, node, &codes) {
        return Ok(());
    }
    kept.records.set_identity(node, codes);
    judge_upwards(doc, set, kept, node)
}

// Finds the codes anew of the elements whose identity constraints can have others, and makes the records right.
fn settle_scopes(
    doc: &DocTree,
    set: &mut Compiled,
    kept: &mut KeptState,
    keys: &mut TargetKeys,
    turn: &Turn,
) -> Result<(), AllocError>
    requires whole { IsWhole set.old doc.now kept.old }
    requires before { set.old.identities.items ≢ [] → WereTargets set.old doc.now kept.old keys.old turn.now }
    ensures whole { OnOk result (IsWhole set.old doc.now kept.new) }
    ensures elements { OnOk result (KeepsElements kept.old kept.new) }
    ensures coded { OnOk result ((d : Document) → IsOver set.old doc.now kept.new.records.slots d → (n : ℕ) → IsMade kept.new.records.slots n
        → (kept_at kept.new.records.slots n).identity ≡ codes_at set.old (seen (found_in doc.now kept.new.records.slots d.forest)) n) }
    ensures targets { OnOk result (AreTargetsBy set.old doc.now kept.new.records.slots keys.new) }
    ensures same { set.new ≡ set.old }
{
    if set.identities.is_empty() {
        return Ok(());
    }
    let NumberedCodes {
        mut numbers,
        mut codes,
    } = codes_of(doc, set, kept, keys, turn)?;
    'left: while let Some(own) = codes.pop() {
        let Some(node) = numbers.pop() else {
            unreachable!()
        };
        settle_scope(doc, set, kept, node, own)?;
    }
    Ok(())
}

// Finds the codes of IDs at the root, and where they are others judges it again.
fn settle_ids(doc: &DocTree, set: &mut Compiled, kept: &mut KeptState) -> Result<(), AllocError>
    requires { IsWhole set.old doc.now kept.old }
    ensures whole { OnOk result (IsWhole set.old doc.now kept.new) }
    ensures elements { OnOk result (KeepsElements kept.old kept.new) }
    ensures identity { OnOk result ((n : ℕ) → (kept_at kept.new.records.slots n).identity ≡ (kept_at kept.old.records.slots n).identity) }
    ensures ids { OnOk result ((d : Document) → IsOver set.old doc.now kept.new.records.slots d
        → kept.new.root_ids ≡ id_codes (borne_values (found_in doc.now kept.new.records.slots d.forest))) }
    ensures same { set.new ≡ set.old }
{
    let codes = kept.records.id_codes(kept.alloc)?;
    if codes == kept.root_ids {
        return Ok(());
    }
    kept.root_ids = codes;
    judge_upwards(doc, set, kept, 1)
}

/// Finds anew which targets elements are, the codes of the identity constraints that these count for, and those of IDs at the root, as far
/// as they can be others than before, and makes all records right (Structures 3.3.4, 3.11.4).
///
/// # Errors
///
/// `AllocError` is want of memory, or there are too many codes, or more than 4,294,967,295 targets of one constraint of an element with
/// a fault or with one key-sequence.
pub fn settle_keys(
    doc: &DocTree,
    set: &mut Compiled,
    kept: &mut KeptState,
    keys: &mut TargetKeys,
    turn: &Turn,
) -> Result<(), AllocError>
    requires whole { IsWhole set.old doc.now kept.old }
    requires before { set.old.identities.items ≢ [] → WereTargets set.old doc.now kept.old keys.old turn.now }
    ensures whole { OnOk result (IsWhole set.old doc.now kept.new) }
    ensures says { OnOk result ((d : Document) → IsOver set.old doc.now kept.new.records.slots d → SaysFound set.old doc.now kept.new.records.slots kept.new.root_ids d) }
    ensures targets { OnOk result (AreTargetsBy set.old doc.now kept.new.records.slots keys.new) }
    ensures same { set.new ≡ set.old }
{
    settle_scopes(doc, set, kept, keys, turn)?;
    settle_ids(doc, set, kept)
}
