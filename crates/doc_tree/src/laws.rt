//! Where changes lead while a document is edited, and how many nodes it has then.

ghost use Rattle.std.specs.Prelude.{◌≡◌, ◌≤◌, ◌+◌, ℕ, Ok, true};
ghost use Rattle.xs_names.specs.Names.{NameTable, IsSound, Grown};
ghost use Rattle.tree_rows.specs.Forest.{Forest, Document, count};
ghost use Rattle.tree_rows.specs.Whole.{IsTree};
ghost use Rattle.tree_edits.specs.Edits.{can_be_made};
ghost use Rattle.tree_edits.specs.Tests.{edited};
ghost use Rattle.tree_edits.specs.declared.edit.Edit.{Edit};
ghost use Rattle.tree_edits.specs.Inverses.{changed, inverse_of, Fits};
ghost use Rattle.tree_edits.specs.Inverses as law;
ghost use Rattle.tree_edits.specs.EditChanges.{change_of};
ghost use Rattle.doc_tree.specs.Changes.{Means, put_count};
ghost use Rattle.doc_tree.specs.Leads.{Leads};
ghost use Rattle.doc_tree.specs.declared.change.Change.{Change};

/// A change leads from the one tree to the other still where the table has more names and more numbers of nodes were given out.
pub fn changes_lead_on()
    ensures { (t u : NameTable) (free more : ℕ) (change : Change) (old new : Forest) → IsSound t → Grown t u → free ≤ more
        → Leads t free change old new → Leads u more change old new }
{}

/// The inverse of a change leads back to the tree from before it, and so does that of the change that an edit is.
pub fn inverses_lead_back()
    ensures changed { (t : NameTable) (d : Document) (c : law.Change) (back : Change) → IsTree d → Fits d c → Means t back (inverse_of d c)
        → Leads t d.next_free back (changed d c).forest d.forest }
    ensures edited { (t : NameTable) (d e : Document) (edit : Edit) (back : Change) → can_be_made edit ≡ true → IsTree d → edited d edit ≡ Ok e
        → Means t back (inverse_of d (change_of d edit)) → Leads t e.next_free back e.forest d.forest }
{}

/// A changed document has the nodes that the change puts back more, and those that its inverse puts back fewer.
pub fn changes_count_nodes()
    ensures { (t : NameTable) (d : Document) (c : law.Change) (change back : Change) → Fits d c → Means t change c → Means t back (inverse_of d c)
        → count (changed d c).forest + put_count back ≡ count d.forest + put_count change }
{}
