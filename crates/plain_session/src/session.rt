use crate::stock::{Stock, first_stock, take_stock};
use assess_records::Validity;
use compiled_schema::Compiled;
use plain_tree::Tree;
use report_text::Records;
use session_model::{Session, SessionError, find_next, find_records, root_validity};
use std::alloc::{AllocError, Global};
use std::marker::Model;
use tree_edits::{Edit, EditError};
use tree_rows::NodeKind;
use what_is_found::each_element_is_found_once;
use xsv_steps::{Ledger, Steps};

/// A session that assesses the whole tree again after each edit.
#[derive(Drop)]
pub struct PlainSession {
    alloc: Global,
    set: Box<Compiled>,
    tree: Tree,
    stock: Stock,
    revision: u64,
    closed: bool,
}

impl Model for PlainSession {
    ghost use Rattle.session_model.specs.State.{State};
    ghost use Rattle.session_model.specs.StateCode.{state_code};

    ghost Value = { State };

    ghost coded = { state_code };

    ghost use Rattle.plain_session.specs.Held.{state_of, IsUpToDate};

    ghost view = { state_of };

    ghost invariant = { IsUpToDate };
}

impl PlainSession {
    /// Lets go of it.
    pub fn close(self) {
        let PlainSession {
            set,
            tree,
            stock,
            ..
        } = self;
        drop(set);
        drop(tree);
        drop(stock);
    }
}

impl Session for PlainSession {
    ghost use Rattle.plain_session.specs.Costs.{edit_cost, opening_cost};

    ghost state = { λ s. s };

    ghost budget = { edit_cost };

    ghost opening = { opening_cost };

    fn open<L: Ledger>(
        alloc: Global,
        set: Box<Compiled>,
        tree: Tree,
        _steps: &mut Steps<L>,
    ) -> Result<Self, AllocError> {
        let mut set = set;
        match first_stock(alloc, &mut set, &tree) {
            Ok(stock) => Ok(PlainSession {
                alloc,
                set,
                tree,
                stock,
                revision: 0,
                closed: false,
            }),
            Err(error) => Err(error),
        }
    }

    fn apply<L: Ledger>(&mut self, edit: &Edit, _steps: &mut Steps<L>) -> Result<(), SessionError> {
        if self.closed {
            return Err(SessionError::Closed);
        }
        match self.tree.apply_edit(self.alloc, edit) {
            Ok(()) => {}
            Err(EditError::Memory) => {
                self.closed = true;
                return Err(SessionError::Memory);
            }
            Err(refusal) => return Err(SessionError::Refused(refusal)),
        }
        match take_stock(self.alloc, &mut self.set, &self.tree) {
            Ok(stock) => {
                self.stock = stock;
                self.revision = self.revision.saturating_add(1);
                Ok(())
            }
            Err(_) => {
                self.closed = true;
                Err(SessionError::Memory)
            }
        }
    }

    fn records(&self, node: u32) -> Option<Records<'_>> {
        each_element_is_found_once();
        find_records(&self.stock.entries, self.stock.place_of(node), node)
    }

    fn node_after(&self, node: u32) -> Option<u32> {
        each_element_is_found_once();
        find_next(&self.stock.entries, self.stock.place_of(node), node)
    }

    fn compiled(&self) -> &Compiled {
        &self.set
    }

    fn code_total(&self) -> u64 {
        self.stock.total
    }

    fn root_validity(&self) -> Validity {
        root_validity(&self.stock.entries)
    }

    fn live(&self, node: u32) -> Option<NodeKind> {
        self.tree.kind(node)
    }

    fn revision(&self) -> u64 {
        self.revision
    }
}

/// Lets go of a set.
pub fn let_go(set: Compiled) {
    drop(set);
}
