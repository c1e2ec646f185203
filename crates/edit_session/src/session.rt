ghost use Rattle.std.specs.Prelude.{◌≡◌};

use crate::around::{AroundError, find_place};
use crate::editing::edit_kept;
use crate::opening::open_document;
use crate::reopening::reopen_document;
use crate::undoing::change_kept;
use assess_records::Validity;
use compiled_schema::Compiled;
use doc_tree::{Change, DocTree};
use kept_inverses::kept_state::KeptState;
use kept_keys::TargetKeys;
use kept_next::AroundAt;
use plain_tree::Tree;
use report_text::Records;
use session_model::{Session, SessionError, entries_are_named};
use std::alloc::{AllocError, Global};
use std::marker::Model;
use tree_assess::ElementEntry;
use tree_edits::{Edit, EditError};
use tree_rows::NodeKind;
use xsv_steps::{Ledger, Steps};

/// A session that keeps what it found of each element, and after an edit finds anew what the edit changes.
#[derive(Drop)]
pub struct EditSession {
    set: Box<Compiled>,
    doc: DocTree,
    kept: KeptState,
    keys: TargetKeys,
    revision: u64,
    closed: bool,
}

impl Model for EditSession {
    ghost use Rattle.session_model.specs.State.{State};
    ghost use Rattle.session_model.specs.StateCode.{state_code};

    ghost Value = { State };

    ghost coded = { state_code };

    ghost use Rattle.edit_session.specs.Held.{state_of, IsHeld};

    ghost view = { state_of };

    ghost invariant = { IsHeld };
}

impl EditSession {
    ghost use Rattle.std.specs.Prelude.{◌≢◌, true, false, Err, IfOk, IfErr};
    ghost use Rattle.kept_next.specs.Spaces.{HasSpacesNamed};
    ghost use Rattle.edit_session.specs.Around.{IsAroundAt, asked_at};
    ghost use Rattle.edit_session.specs.declared.around.AroundError.TheVariants.{Memory};
    ghost use Rattle.tree_edits.specs.Edits.{can_be_made};
    ghost use Rattle.tree_edits.specs.Inverses as law;
    ghost use Rattle.tree_edits.specs.EditChanges.{change_of};
    ghost use Rattle.doc_tree.specs.Changes.{Means};
    ghost use Rattle.session_model.specs.Applying.{Applies};
    ghost use Rattle.session_model.specs.Spending.{Spends};
    ghost use Rattle.edit_session.specs.Costs.{edit_cost};
    ghost use Rattle.edit_session.specs.Changed.{forgotten, CanChange, Changes, SpendsOn};
    ghost use Rattle.edit_session.specs.Parents.{parent_of};
    ghost use Rattle.compiled_schema.specs.Usable.{IsUsable, set_of};
    ghost use Rattle.session_model.specs.Spending.{Counts};
    ghost use Rattle.edit_session.specs.Reopened.{Reopens, swap_cost};

    /// Makes an edit as `apply` does, and answers the change that undoes it.
    ///
    /// # Errors
    ///
    /// Those of `apply`.
    pub fn apply_keeping<L: Ledger>(
        &mut self,
        edit: &Edit,
        steps: &mut Steps<L>,
    ) -> Result<Change, SessionError>
        requires { can_be_made edit.now ≡ true }
        ensures applies { Applies self.old edit.now (forgotten result) self.new }
        ensures inverse { IfOk result (λ back. Means self.new.set.names back (law.inverse_of self.old.document (change_of self.old.document edit.now))) }
        ensures spends { Spends edit_cost self.old edit.now (forgotten result) self.new steps.old steps.new }
    {
        if self.closed {
            return Err(SessionError::Closed);
        }
        match edit_kept(
            &mut self.doc,
            &mut self.set,
            &mut self.kept,
            &mut self.keys,
            edit,
            steps,
        ) {
            Ok(back) => {
                self.revision = self.revision.saturating_add(1);
                Ok(back)
            }
            Err(EditError::Memory) => {
                self.closed = true;
                Err(SessionError::Memory)
            }
            Err(refusal) => Err(SessionError::Refused(refusal)),
        }
    }

    /// Makes a change of the document that can be made of it, such as one that undoes an edit, adds one to the revision as an edit does,
    /// and answers the change that undoes it.
    ///
    /// # Errors
    ///
    /// `Memory`, which closes the session; `Closed` after an earlier want of memory.
    pub fn apply_change<L: Ledger>(
        &mut self,
        change: Change,
        steps: &mut Steps<L>,
    ) -> Result<Change, SessionError>
        requires { (c : law.Change) × CanChange self.old change c }
        ensures changes { (c : law.Change) → CanChange self.old change c → Changes self.old c result self.new }
        ensures inverse { IfOk result (λ back. (c : law.Change) → CanChange self.old change c → Means self.new.set.names back (law.inverse_of self.old.document c)) }
        ensures spends { (c : law.Change) → CanChange self.old change c → SpendsOn self.old c result self.new steps.old steps.new }
    {
        if self.closed {
            return Err(SessionError::Closed);
        }
        match change_kept(
            &mut self.doc,
            &mut self.set,
            &mut self.kept,
            &mut self.keys,
            change,
            steps,
        ) {
            Ok(back) => {
                self.revision = self.revision.saturating_add(1);
                Ok(back)
            }
            Err(_) => {
                self.closed = true;
                Err(SessionError::Memory)
            }
        }
    }

    /// The place before the child at an index of an element, by the content model of its governing type: which names may stand there
    /// is asked of it.
    ///
    /// # Errors
    ///
    /// `UnknownNode`, `NotElement` and `BadIndex` as for an insertion, in this order; then `NoModel`, where the type of the element, if it
    /// has one, has no content model; `Memory` for want of memory.
    pub fn around(&self, node: u32, index: u32) -> Result<AroundAt<'_>, AroundError>
        requires live { self.now.closed ≡ false }
        requires spaced { HasSpacesNamed self.now.set }
        ensures place { IfOk result (IsAroundAt self.now node index) }
        ensures refused { IfErr result (λ e. e ≢ Memory → asked_at self.now node index ≡ Err e) }
    {
        find_place(&self.set, &self.doc, &self.kept, node, index)
    }

    /// Assesses the document by another set from then on, which is found anew beside what there was; adds one to the revision as an edit
    /// does. The nodes keep their numbers.
    ///
    /// # Errors
    ///
    /// `Memory`, which closes the session; `Closed` after an earlier want of memory.
    pub fn reopen<L: Ledger>(
        &mut self,
        set: Box<Compiled>,
        steps: &mut Steps<L>,
    ) -> Result<(), SessionError>
        requires { IsUsable set.value }
        ensures reopens { Reopens self.old (set_of set.value) result self.new }
        ensures spends { Counts steps.old steps.new (swap_cost self.old) }
        ensures closed { self.old.closed ≡ true → steps.new ≡ steps.old }
    {
        if self.closed {
            return Err(SessionError::Closed);
        }
        let mut set = set;
        match reopen_document(self.kept.alloc, &self.doc, &self.set.names, &mut set, steps) {
            Ok(opened) => {
                self.set = set;
                self.doc = opened.doc;
                self.kept = opened.kept;
                self.keys = opened.keys;
                self.revision = self.revision.saturating_add(1);
                Ok(())
            }
            Err(_) => {
                self.closed = true;
                Err(SessionError::Memory)
            }
        }
    }

    /// The parent of a node; `None` exactly for the root, and where the number is of no node. It is known of a closed session too.
    pub fn parent_of(&self, node: u32) -> Option<u32>
        ensures { result ≡ parent_of node self.now.document.forest }
    {
        self.doc.parent(node)
    }

    /// Lets go of it.
    pub fn close(self) {
        let EditSession {
            set,
            doc,
            kept,
            keys,
            ..
        } = self;
        drop(set);
        drop(doc);
        drop(kept);
        drop(keys);
    }
}

// The records of an element and of its attributes.
fn records_of(found: &ElementEntry) -> Records<'_>
    ensures element { result.element.now ≡ found.now.element }
    ensures attrs { result.attrs.now ≡ found.now.attrs }
{
    Records {
        element: &found.element,
        attrs: found.attrs.as_slice(),
    }
}

impl Session for EditSession {
    ghost use Rattle.edit_session.specs.Costs.{edit_cost, opening_cost};

    ghost state = { λ s. s };

    ghost budget = { edit_cost };

    ghost opening = { opening_cost };

    fn open<L: Ledger>(
        alloc: Global,
        set: Box<Compiled>,
        tree: Tree,
        steps: &mut Steps<L>,
    ) -> Result<Self, AllocError> {
        let mut set = set;
        match open_document(alloc, &mut set, tree, steps) {
            Ok(opened) => Ok(EditSession {
                set,
                doc: opened.doc,
                kept: opened.kept,
                keys: opened.keys,
                revision: 0,
                closed: false,
            }),
            Err(error) => Err(error),
        }
    }

    fn apply<L: Ledger>(&mut self, edit: &Edit, steps: &mut Steps<L>) -> Result<(), SessionError> {
        match self.apply_keeping(edit, steps) {
            Ok(_) => Ok(()),
            Err(error) => Err(error),
        }
    }

    fn records(&self, node: u32) -> Option<Records<'_>> {
        entries_are_named();
        match self.kept.records.get(node) {
            None => None,
            Some(own) => Some(records_of(&own.found)),
        }
    }

    fn node_after(&self, node: u32) -> Option<u32> {
        match self.kept.records.get(node) {
            None => None,
            Some(_) => self.doc.next_element(node),
        }
    }

    fn compiled(&self) -> &Compiled {
        &self.set
    }

    fn code_total(&self) -> u64 {
        self.kept.records.total()
    }

    fn root_validity(&self) -> Validity {
        match self.kept.records.get(1) {
            None => Validity::NotKnown,
            Some(root) => root.found.element.validity,
        }
    }

    fn live(&self, node: u32) -> Option<NodeKind> {
        self.doc.live(node)
    }

    fn revision(&self) -> u64 {
        self.revision
    }
}
