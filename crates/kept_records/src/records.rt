//! What is kept of all elements, by their numbers.

ghost use Rattle.std.specs.Prelude.{◌≡◌, ◌<◌, List, [], None, Some, length, IfOk, OnOk};
ghost use Rattle.std.specs.Option.{option_copied, option_map};
ghost use Rattle.identity_tables.specs.Ids.{BorneAtom, id_codes};
ghost use Rattle.identity_tables.specs.Table.{IsTableOf};
ghost use Rattle.kept_slots.specs.Slots.{at, Writes};
ghost use Rattle.kept_records.specs.Books.{IsBooked};
ghost use Rattle.kept_records.specs.Slots.{IsKept, IsMade};
ghost use Rattle.kept_records.specs.declared.element.KeptElement.{KeptElement as KeptData};

use crate::KeptElement;
use crate::books::Books;
use assess_records::{ChildCounts, Codes};
use kept_slots::Slots;
use std::alloc::{AllocError, Global};
use std::marker::Model;
use tree_assess::ElementEntry;
use xs_names::Text;

/// What is kept of the elements of a document, each by its number, with the sum of their codes and the table of their IDs.
///
/// An element is rewritten by `take`, then `put`. Behind a call that ended in want of memory the sums are not stated.
#[derive(Drop)]
pub struct KeptRecords {
    slots: Slots<KeptElement>,
    books: Books,
}

impl Model for KeptRecords {
    ghost use Rattle.kept_records.specs.Books.{KeptView};

    ghost Value = { KeptView };

    ghost view = { λ r. record { slots = r.slots; total = r.books.total; ids = r.books.ids } };
}

impl KeptRecords {
    /// Nothing is kept.
    ///
    /// # Errors
    ///
    /// `AllocError` is want of memory.
    pub fn new(alloc: Global) -> Result<KeptRecords, AllocError>
        ensures none { IfOk result (λ records. records.slots ≡ []) }
        ensures booked { IfOk result IsBooked }
    {
        Ok(KeptRecords {
            slots: Slots::new(alloc),
            books: Books::new(alloc)?,
        })
    }

    /// What is kept of the element of a number.
    pub fn get(&self, number: u32) -> Option<&KeptElement>
        ensures { option_copied result ≡ at self.now.slots number }
    {
        self.slots.get(number)
    }

    /// Keeps this of the element of a number, of which nothing is kept.
    ///
    /// # Errors
    ///
    /// `AllocError` is want of memory, or there are more codes than 18,446,744,073,709,551,615.
    pub fn put(&mut self, number: u32, kept: Box<KeptElement>) -> Result<(), AllocError>
        requires { at self.old.slots number ≡ None }
        ensures change { OnOk result (Writes self.old.slots self.new.slots number (Some kept.value)) }
        ensures booked { OnOk result (IsBooked self.old → IsBooked self.new) }
    {
        self.books.add(&kept.found)?;
        self.slots.reach(number)?;
        self.slots.put(number, kept);
        Ok(())
    }

    /// Takes out what is kept of the element of a number.
    pub fn take(&mut self, number: u32) -> Option<Box<KeptElement>>
        requires { IsBooked self.old }
        ensures was { option_map (λ was. was.value) result ≡ at self.old.slots number }
        ensures change { Writes self.old.slots self.new.slots number None }
        ensures booked { IsBooked self.new }
    {
        let kept = self.slots.take(number)?;
        self.books.remove(&kept.found);
        Some(kept)
    }

    /// How many codes all records have.
    pub fn total(&self) -> u64
        ensures { result ≡ self.now.total }
    {
        self.books.total()
    }

    /// The codes of the document's IDs (Structures 3.3.4).
    ///
    /// # Errors
    ///
    /// `AllocError` is want of memory.
    pub fn id_codes(&self, alloc: Global) -> Result<Codes, AllocError>
        ensures { IfOk result (λ codes. (atoms : List BorneAtom) → IsTableOf self.now.ids atoms → codes ≡ id_codes atoms) }
    {
        self.books.id_codes(alloc)
    }

    /// Writes where the child elements of an element get stuck, and how many are of each kind. It takes no memory.
    pub fn set_counts(&mut self, number: u32, stuck: Option<u32>, counts: ChildCounts)
        requires { IsMade self.old.slots number }
        ensures change { (k : KeptData) → IsKept self.old.slots number k → Writes self.old.slots self.new.slots number (Some (record k { stuck = stuck; counts = counts })) }
        ensures booked { IsBooked self.old → IsBooked self.new }
    {
        if let Some(mut kept) = self.slots.take(number) {
            kept.stuck = stuck;
            kept.counts = counts;
            self.replace(number, kept);
        }
    }

    /// Writes the characters of an element's texts. It takes no memory.
    pub fn set_text(&mut self, number: u32, text: Text)
        requires { IsMade self.old.slots number }
        ensures change { (k : KeptData) → IsKept self.old.slots number k → Writes self.old.slots self.new.slots number (Some (record k { text = text })) }
        ensures booked { IsBooked self.old → IsBooked self.new }
    {
        if let Some(mut kept) = self.slots.take(number) {
            kept.text = text;
            self.replace(number, kept);
        }
    }

    /// Writes the codes of an element's identity constraints. It takes no memory.
    pub fn set_identity(&mut self, number: u32, identity: Codes)
        requires { IsMade self.old.slots number }
        ensures change { (k : KeptData) → IsKept self.old.slots number k → Writes self.old.slots self.new.slots number (Some (record k { identity = identity })) }
        ensures booked { IsBooked self.old → IsBooked self.new }
    {
        if let Some(mut kept) = self.slots.take(number) {
            kept.identity = identity;
            self.replace(number, kept);
        }
    }

    /// Writes what is found out about an element.
    ///
    /// # Errors
    ///
    /// As those of `put`.
    pub fn set_found(&mut self, number: u32, found: ElementEntry) -> Result<(), AllocError>
        requires made { IsMade self.old.slots number }
        requires booked { IsBooked self.old }
        ensures change { OnOk result ((k : KeptData) → IsKept self.old.slots number k → Writes self.old.slots self.new.slots number (Some (record k { found = found }))) }
        ensures booked { OnOk result (IsBooked self.new) }
    {
        let Some(mut kept) = self.take(number) else {
            unreachable!()
        };
        kept.found = found;
        self.put(number, kept)
    }

    // Keeps a value where one was taken out.
    fn replace(&mut self, number: u32, kept: Box<KeptElement>)
        requires { number < length self.old.slots }
        ensures change { Writes self.old.slots self.new.slots number (Some kept.value) }
        ensures total { self.new.total ≡ self.old.total }
        ensures ids { self.new.ids ≡ self.old.ids }
    {
        let _none = self.slots.put(number, kept);
    }
}
