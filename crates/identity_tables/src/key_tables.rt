ghost use Rattle.std.specs.Prelude.{◌≡◌, ℕ, ◌+◌, ◌*◌, ◌/◌, ◌≤◌, ◌↔◌, [], IsTrue, IfOk, OnOk, OnErr};
ghost use Rattle.std.specs.Option.{SomeIff, option_copied, unwrap_or};
ghost use Rattle.xs_codes.specs.declared.code.Code.TheVariants.{CvcIdentityConstraint4_1, CvcIdentityConstraint4_3};

use crate::Tuple;
use crate::counts::Counts;
use std::alloc::{AllocError, Global};
use std::collections::HashMap;
use std::marker::Model;
use xs_codes::Code;

// The element that a table belongs to, and the table's number there.
#[derive(Clone, Copy, PartialEq, Eq, Hash)]
struct TableId {
    scope: u32,
    constraint: u32,
}

/// The tables of identity constraints, each by the number of its element (its scope) and a number of its own. Contracts see
/// how often each tuple was added and not dropped.
///
/// For the identity constraint k, table 2k holds the element's own tuples. For a key or unique, table 2k + 1 holds one entry
/// for each child element whose table holds the tuple; for a keyref it holds its tuples that are not visible.
pub struct KeyTables {
    alloc: Global,
    tables: HashMap<TableId, Counts<Tuple>>,
}

impl Model for KeyTables {
    ghost use Rattle.std.specs.Prelude.{ℕ, List};
    ghost use Rattle.simple_values.specs.declared.key.Key.{Key};
    ghost use Rattle.identity_tables.specs.declared.key_tables.TableId.{TableId};

    ghost Value = { List (TableId × List (List Key × ℕ)) };

    ghost view = { λ t. t.tables.entries };
}

impl KeyTables {
    ghost use Rattle.identity_tables.specs.KeyTables.{own_count, tuples_of, IsOneMoreTuple, IsVisible, HasEqualTuples, HasTuple};

    /// No tables.
    pub fn new(alloc: Global) -> Result<Self, AllocError>
        ensures { IfOk result (λ tables. tables ≡ []) }
    {
        Ok(KeyTables {
            alloc,
            tables: HashMap::new(alloc),
        })
    }

    /// Adds a tuple to a table. Where memory is wanting, or the table would hold more than 4,294,967,295 tuples, the tables
    /// stay.
    pub fn add(&mut self, scope: u32, constraint: u32, tuple: Tuple) -> Result<(), AllocError>
        ensures ok { OnOk result (IsOneMoreTuple self.old self.new scope constraint tuple) }
        ensures err { OnErr result (self.new ≡ self.old) }
    {
        let id = TableId { scope, constraint };
        if let Some(counts) = self.tables.get_mut(&id) {
            counts.add(tuple)?;
            return Ok(());
        }
        let mut counts = Counts::new(self.alloc);
        counts.add(tuple)?;
        self.tables.insert(id, counts)?;
        Ok(())
    }

    /// Drops a tuple of a table once. It takes no memory.
    pub fn drop_entry(&mut self, scope: u32, constraint: u32, tuple: &Tuple)
        requires { 1 ≤ own_count self.old scope constraint tuple.now }
        ensures { IsOneMoreTuple self.new self.old scope constraint tuple.now }
    {
        let id = TableId { scope, constraint };
        let Some(counts) = self.tables.get_mut(&id) else {
            return;
        };
        counts.drop_one(tuple);
        self.forget_empty(id);
    }

    /// How often the tuple was added to the table and not dropped.
    pub fn own_count(&self, scope: u32, constraint: u32, tuple: &Tuple) -> u32
        ensures { result ≡ own_count self.now scope constraint tuple.now }
    {
        match self.table(scope, constraint) {
            None => 0,
            Some(counts) => counts.count(tuple),
        }
    }

    /// Whether the tuple is in the table of the element for the key or unique whose own tuples have the number `constraint`
    /// (Structures 3.11.4): it is one of the element's own, or exactly one child element's table holds it.
    pub fn visible(&self, scope: u32, constraint: u32, tuple: &Tuple) -> bool
        ensures { (k : ℕ) → constraint ≡ 2 * k → IsTrue result ↔ IsVisible self.now scope k tuple.now }
    {
        let of_children = constraint - constraint % 2 + 1;
        0 < self.own_count(scope, constraint, tuple)
            || self.own_count(scope, of_children, tuple) == 1
    }

    /// What is broken by a table: two equal tuples, in a table of own tuples (cvc-identity-constraint.4.1); any tuple, in a
    /// table with an odd number, which is asked for keyrefs (cvc-identity-constraint.4.3).
    pub fn broken(&self, scope: u32, constraint: u32) -> Option<Code>
        ensures equal { (k : ℕ) → constraint ≡ 2 * k
            → SomeIff result (HasEqualTuples self.now scope constraint) CvcIdentityConstraint4_1 }
        ensures unseen { (k : ℕ) → constraint ≡ 2 * k + 1
            → SomeIff result (HasTuple self.now scope constraint) CvcIdentityConstraint4_3 }
    {
        let Some(counts) = self.table(scope, constraint) else {
            return None;
        };
        if constraint % 2 == 0 {
            if counts.has_repeated() {
                return Some(Code::CvcIdentityConstraint4_1);
            }
        } else if !counts.is_empty() {
            return Some(Code::CvcIdentityConstraint4_3);
        }
        None
    }

    // The tuples of a table with their counts; `None` where there are none.
    fn table(&self, scope: u32, constraint: u32) -> Option<&Counts<Tuple>>
        ensures { unwrap_or (option_copied result) [] ≡ tuples_of self.now scope constraint }
    {
        self.tables.get(&TableId { scope, constraint })
    }

    // Takes a table without tuples out.
    fn forget_empty(&mut self, id: TableId)
        ensures { (scope constraint : ℕ) → tuples_of self.new scope constraint ≡ tuples_of self.old scope constraint }
    {
        let Some(counts) = self.tables.get(&id) else {
            return;
        };
        if counts.is_empty() {
            self.tables.remove(&id);
        }
    }
}

impl Drop for KeyTables {
    fn drop(self) {
        let KeyTables { alloc: _, tables } = self;
        drop(tables);
    }
}
