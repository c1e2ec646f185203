//! What is kept of all elements in sums.

ghost use Rattle.std.specs.Prelude.{◌≡◌, ◌+◌, ◌≤◌, ◌++◌, List, [], IfOk, OnOk};
ghost use Rattle.identity_tables.specs.Ids.{BorneAtom, id_codes};
ghost use Rattle.identity_tables.specs.Table.{IsTableOf};
ghost use Rattle.session_model.specs.Asking.{entry_total};
ghost use Rattle.tree_assess.specs.Entries.{entry_of};
ghost use Rattle.kept_records.specs.Books.{atoms_of};

use assess_records::Codes;
use identity_tables::KeptIds;
use session_model::count_codes;
use std::alloc::{AllocError, Global};
use std::slice;
use tree_assess::ElementEntry;

/// How many codes the records of elements have, and the table of their IDs.
#[derive(Drop)]
pub(crate) struct Books {
    total: u64,
    ids: KeptIds,
}

impl Books {
    /// No element.
    pub(crate) fn new(alloc: Global) -> Result<Books, AllocError>
        ensures total { IfOk result (λ books. books.total ≡ 0) }
        ensures ids { IfOk result (λ books. IsTableOf books.ids []) }
    {
        Ok(Books {
            total: 0,
            ids: KeptIds::new(alloc)?,
        })
    }

    /// Counts an element in.
    pub(crate) fn add(&mut self, found: &ElementEntry) -> Result<(), AllocError>
        ensures total { OnOk result (self.new.total ≡ self.old.total + entry_total (entry_of found.now)) }
        ensures ids { OnOk result ((atoms : List BorneAtom) → IsTableOf self.old.ids atoms → IsTableOf self.new.ids (atoms ++ atoms_of found.now)) }
    {
        self.total = sum_of(self.total, found)?;
        self.ids.add_value(found.bearer, &found.value)?;
        self.ids
            .add_values(found.number, found.attr_values.as_slice())?;
        Ok(())
    }

    /// Takes an element out that was counted in.
    pub(crate) fn remove(&mut self, found: &ElementEntry)
        requires total { entry_total (entry_of found.now) ≤ self.old.total }
        requires ids { (atoms : List BorneAtom) × IsTableOf self.old.ids (atoms_of found.now ++ atoms) }
        ensures total { self.old.total ≡ self.new.total + entry_total (entry_of found.now) }
        ensures ids { (atoms : List BorneAtom) → IsTableOf self.old.ids (atoms_of found.now ++ atoms) → IsTableOf self.new.ids atoms }
    {
        self.total = rest_of(self.total, found);
        self.ids.drop_value(found.bearer, &found.value);
        self.ids
            .drop_values(found.number, found.attr_values.as_slice());
    }

    /// How many codes all records have.
    pub(crate) fn total(&self) -> u64
        ensures { result ≡ self.now.total }
    {
        self.total
    }

    /// The codes of the IDs (Structures 3.3.4).
    pub(crate) fn id_codes(&self, alloc: Global) -> Result<Codes, AllocError>
        ensures { IfOk result (λ codes. (atoms : List BorneAtom) → IsTableOf self.now.ids atoms → codes ≡ id_codes atoms) }
    {
        self.ids.codes(alloc)
    }
}

// A number of codes with those of an element.
fn sum_of(total: u64, found: &ElementEntry) -> Result<u64, AllocError>
    ensures { IfOk result (λ sum. sum ≡ total + entry_total (entry_of found.now)) }
{
    match count_codes(slice::from_ref(found)) {
        None => Err(AllocError),
        Some(codes) => total.checked_add(codes).ok_or(AllocError),
    }
}

// A number of codes without those of an element.
fn rest_of(total: u64, found: &ElementEntry) -> u64
    requires { entry_total (entry_of found.now) ≤ total }
    ensures { total ≡ result + entry_total (entry_of found.now) }
{
    match count_codes(slice::from_ref(found)) {
        None => unreachable!(),
        Some(codes) => total - codes,
    }
}
