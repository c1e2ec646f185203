ghost use Rattle.std.specs.Prelude.{◌≡◌, ℕ, true, false, Option, IfOk, IfSome};
ghost use Rattle.std.specs.Option.{option_map};
ghost use Rattle.tree_edits.specs.Edits.{can_be_made};
ghost use Rattle.tree_edits.specs.declared.edit.Edit as edits;
ghost use Rattle.tree_rows.specs.Forest.{Document};
ghost use Rattle.tree_rows.specs.Kinds.{kind_of};
ghost use Rattle.compiled_schema.specs.Usable.{IsUsable, set_of};
ghost use Rattle.report_text.specs.Named.{IsNamed, AreNamed};
ghost use Rattle.what_is_found.specs.IsFound.{IsFound};
ghost use Rattle.session_model.specs.State.{State, IsOpened};
ghost use Rattle.session_model.specs.Applying.{Applies};
ghost use Rattle.session_model.specs.Asking.{entry_at, number_after, code_total, root_validity};
ghost use Rattle.session_model.specs.Spending.{Counts, Spends};

use assess_records::Validity;
use compiled_schema::Compiled;
use plain_tree::Tree;
use report_text::Records;
use std::alloc::{AllocError, Global};
use tree_edits::{Edit, EditError};
use tree_rows::NodeKind;
use xsv_steps::{Ledger, Steps};

/// Why a session did not make an edit.
#[derive(Clone, Copy, PartialEq)]
pub enum SessionError {
    /// The edit is refused, and nothing has changed.
    Refused(EditError),
    /// Memory was wanting, or there are more codes than 18,446,744,073,709,551,615. The session is closed.
    Memory,
    /// An earlier edit ended in want of memory.
    Closed,
}

/// A document that is edited, with what is found out about the elements of its present tree by a schema set (Structures 5.2).
/// Contracts see all of it in the state: while the session is not closed, what is found is the assessment of the present tree. Of
/// a closed session it is not stated.
pub trait Session {
    /// The schema set, the tree, what is found of it, the revision, and whether the session is closed.
    ghost state: { Self → State };

    /// How many steps an edit takes at most, by the states before and after it.
    ghost budget: { State → edits.Edit → State → ℕ };

    /// How many steps it takes at most to open a document.
    ghost opening: { Document → ℕ };

    /// Opens a session over a document, by a set that documents may be assessed by: its revision is 0, and the set gets the names
    /// of the document.
    ///
    /// # Errors
    ///
    /// `AllocError` is want of memory, or there are more codes than 18,446,744,073,709,551,615.
    fn open<L: Ledger>(
        alloc: Global,
        set: Box<Compiled>,
        tree: Tree,
        steps: &mut Steps<L>,
    ) -> Result<Self, AllocError>
        requires usable { IsUsable set.value }
        ensures opened { IfOk result (λ session. IsOpened (set_of set.value) tree (state session)) }
        ensures steps { Counts steps.old steps.new (opening tree) };

    /// Makes an edit, and adds one to the revision, which stays at its last value. The set gets the names of the new tree.
    ///
    /// # Errors
    ///
    /// `Refused` with the least refusal that the edit has, and then nothing has changed; `Closed` after an
    /// earlier want of memory; `Memory`, which closes the session.
    fn apply<L: Ledger>(&mut self, edit: &Edit, steps: &mut Steps<L>) -> Result<(), SessionError>
        requires { can_be_made edit.now ≡ true }
        ensures applies { Applies (state self.old) edit.now result (state self.new) }
        ensures spends { Spends budget (state self.old) edit.now result (state self.new) steps.old steps.new };

    /// The records of an element and of its attributes, `None` where the number is of no element of the tree. Their names and
    /// types are those of the set.
    fn records(&self, node: u32) -> Option<Records<'_>>
        ensures element { (state self.now).closed ≡ false
            → option_map (λ r. r.element.now) result ≡ option_map (λ e. e.element) (entry_at node (state self.now).found) }
        ensures attrs { (state self.now).closed ≡ false
            → option_map (λ r. r.attrs.now) result ≡ option_map (λ e. e.attrs) (entry_at node (state self.now).found) }
        ensures element_named { (state self.now).closed ≡ false
            → IfSome result (λ r. IsNamed (state self.now).set.names (state self.now).set.parts r.element.now.name r.element.now.of) }
        ensures attrs_named { (state self.now).closed ≡ false
            → IfSome result (λ r. AreNamed (state self.now).set.names (state self.now).set.parts r.attrs.now) };

    /// The element that comes next in document order, `None` where the number is of the last one or of none. The root is 1.
    fn node_after(&self, node: u32) -> Option<u32>
        ensures { (state self.now).closed ≡ false → result ≡ number_after node (state self.now).found };

    /// The schema set, with the names of the tree, by which is found what is found of the tree.
    fn compiled(&self) -> &Compiled
        ensures set { (state self.now).closed ≡ false → set_of result.now ≡ (state self.now).set }
        ensures found { (state self.now).closed ≡ false → IsFound (state self.now).set (state self.now).document (state self.now).found };

    /// The number of all codes of all records.
    fn code_total(&self) -> u64
        ensures { (state self.now).closed ≡ false → result ≡ code_total (state self.now).found };

    /// The validity of the root.
    fn root_validity(&self) -> Validity
        ensures { (state self.now).closed ≡ false → result ≡ root_validity (state self.now).found };

    /// What the node of a number is, `None` where it is of no node of the tree.
    fn live(&self, node: u32) -> Option<NodeKind>
        ensures { result ≡ kind_of node (state self.now).document.forest };

    /// How many edits were made.
    fn revision(&self) -> u64
        ensures { result ≡ (state self.now).revision };
}
