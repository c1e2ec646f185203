//! What a change takes in steps, and what it may cost.

ghost use Rattle.std.specs.Prelude.{◌≤◌, ◌+◌, ℕ, List};
ghost use Rattle.tree_rows.specs.Forest.{Document};
ghost use Rattle.tree_edits.specs.declared.edit.Edit.{Edit as EditData};
ghost use Rattle.tree_edits.specs.Inverses as law;
ghost use Rattle.assessment.specs.Assessment.{Entry, entries};
ghost use Rattle.compiled_schema.specs.Usable.{set_of};
ghost use Rattle.compiled_schema.specs.declared.compiled.Compiled.{Compiled as CompiledData};
ghost use Rattle.edit_budgets.specs.Budget.{edit_budget};
ghost use Rattle.edit_budgets.specs.UndoBudget.{change_budget};
ghost use Rattle.what_is_found.specs.IsFound.{IsFound};
ghost use Rattle.doc_nodes.specs.Nodes.{Nodes};
ghost use Rattle.doc_changes.specs.Stands.{StandsFor};
ghost use Rattle.doc_tree.specs.Changes.{Means};
ghost use Rattle.doc_tree.specs.declared.change.Change.{Change as NumberedChange};
ghost use Rattle.doc_edits.specs.Changes.{CanMake, IsOf, changed};
ghost use Rattle.doc_edits.specs.declared.change.Change.{Change as ChangeData};
ghost use Rattle.kept_changes.specs.from_kept_records.Found.{found_in};
ghost use Rattle.kept_changes.specs.from_kept_state.KeptState.{KeptState as KeptData};
ghost use Rattle.kept_changes.specs.from_kept_children.Edited.{IsRightFor};
ghost use Rattle.kept_changes.specs.Steps.{Takes};
ghost use Rattle.kept_inverses.specs.Steps.{TakesInverse};

/// A change takes no more steps than its edit may cost, by what is kept before it and by whatever is found of the document after it.
pub fn changes_keep_their_budget()
    ensures { (c : CompiledData) (old new : Nodes) (k : KeptData) (d : Document) (edit : EditData) (change : ChangeData) (found : List Entry) (first last : ℕ) →
        IsRightFor c old k → StandsFor c.names old d → IsOf edit change → CanMake c.names old d change → StandsFor c.names new (changed c.names d change) →
        IsFound (set_of c) (changed c.names d change) found → Takes c old new k change first last →
        last ≤ first + edit_budget (set_of c) d (entries (found_in old k.records.slots d.forest)) (changed c.names d change) found edit }
{}

/// A change by numbers takes no more steps than it may cost, by what is kept before it and by whatever is found of the document after
/// it. Nodes that come back count as those that an edit puts in.
pub fn inverses_keep_their_budget()
    ensures { (c : CompiledData) (old new : Nodes) (k : KeptData) (d : Document) (change : NumberedChange) (own : law.Change) (found : List Entry) (first last : ℕ) →
        IsRightFor c old k → StandsFor c.names old d → Means c.names change own → law.Fits d own → StandsFor c.names new (law.changed d own) →
        IsFound (set_of c) (law.changed d own) found → TakesInverse c old new k change first last →
        last ≤ first + change_budget (set_of c) d (entries (found_in old k.records.slots d.forest)) (law.changed d own) found own }
{}
