//! The laws.

ghost use Rattle.std.specs.Prelude.{◌≡◌, ◌<◌, ◌-◌, ◌^◌, ℕ, List, [], All, Some, None};
ghost use Rattle.tree_rows.specs.Forest.{Document};
ghost use Rattle.tree_edits.specs.declared.edit.Edit.{Edit};
ghost use Rattle.edit_script.specs.Commands.{IsReadyOr};
ghost use Rattle.assessment.specs.Assessment.{Entry};
ghost use Rattle.what_is_found.specs.IsFound.{IsFound};
ghost use Rattle.session_model.specs.State.{with_names};
ghost use Rattle.edit_history.specs.Log.{log_of};
ghost use Rattle.edit_history.specs.declared.log.Taken.TheVariants.{Nothing};
ghost use Rattle.told.specs.Told.{Said};
ghost use Rattle.xsv_run.specs.from_open_document.Answers.{opened};
ghost use Rattle.xsv_run.specs.from_open_document.State.{OpenState, Basis, kept_trees};
ghost use Rattle.xsv_run.specs.from_open_document.Touches.{turn_fault};
ghost use Rattle.xsv_run.specs.Authors.{Read, AreAnswers};
ghost use Rattle.turn_laws.specs.Lists.{Child};
ghost use Rattle.turn_laws.specs.Own.{puts_into, list_of_children, IsListBehindAll};
ghost use Rattle.turn_laws.specs.Turned.{AreTurns};

/// Whatever lines a document is answered, an undo touches what the edit touched that it undoes, and a redo what the edit touched that it
/// makes again.
pub fn steps_touch_what_their_edits_did()
    ensures { (most : ℕ) (basis : Basis) (d : Document) (found : List Entry) (reads : List Read) (said : List Said) (last : OpenState)
        → IsFound (with_names basis.set d.forest) d found → All IsReadyOr reads → AreAnswers (opened most basis d found) reads said last
        → AreTurns (opened most basis d found) (log_of kept_trees [] [] Nothing) reads said last }
{}

/// Where an author puts something among the children of an element that was there when the author had seen the document, and no turn
/// comes between, the list of these children now is the list of then, changed by the author's own turns alone. The revision has not
/// come to its last value, at which it stays.
pub fn lists_change_by_own_turns_alone()
    ensures { (most : ℕ) (basis : Basis) (d : Document) (found : List Entry) (before : List Read) (answers : List Said) (seen : OpenState)
        (reads : List Read) (said : List Said) (last : OpenState) (author parent : ℕ) (edit : Edit) (old new : List Child)
        → IsFound (with_names basis.set d.forest) d found → All IsReadyOr before → All IsReadyOr reads
        → AreAnswers (opened most basis d found) before answers seen → AreAnswers seen reads said last → last.session.revision < 2 ^ 64 - 1
        → puts_into edit ≡ Some parent → turn_fault last author seen.session.revision edit ≡ None
        → list_of_children seen parent ≡ Some old → list_of_children last parent ≡ Some new
        → IsListBehindAll author parent seen reads said last old new }
{}
