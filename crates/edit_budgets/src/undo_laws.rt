//! What edits and changes cost.

ghost use Rattle.std.specs.Prelude.{◌≡◌, List};
ghost use Rattle.tree_rows.specs.Forest.{Document};
ghost use Rattle.tree_edits.specs.declared.edit.Edit.{Edit};
ghost use Rattle.tree_edits.specs.EditChanges.{change_of};
ghost use Rattle.assessment.specs.Attribution.{SchemaSet};
ghost use Rattle.assessment.specs.Assessment.{Entry};
ghost use Rattle.edit_budgets.specs.Budget.{edit_budget};
ghost use Rattle.edit_budgets.specs.UndoBudget.{change_budget};

/// An edit may cost what the change that it is may cost.
pub fn edits_cost_as_changes()
    ensures { (s : SchemaSet) (d : Document) (was : List Entry) (e : Document) (is : List Entry) (edit : Edit)
        → edit_budget s d was e is edit ≡ change_budget s d was e is (change_of d edit) }
{}
