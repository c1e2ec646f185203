//! All that is kept beside a document.

ghost use Rattle.std.specs.Prelude.{◌≡◌, ◌↔◌, [], Some, IsTrue, IfOk, OnOk};
ghost use Rattle.model_lists.specs.Lists.{IsLive};
ghost use Rattle.model_lists.specs.declared.handle.ModelList.{ModelList};
ghost use Rattle.kept_records.specs.Slots.{IsKept, IsMade, kept_at, pair_at};
ghost use Rattle.kept_records.specs.Fit.{root_codes};
ghost use Rattle.kept_records.specs.Books.{IsBooked};
ghost use Rattle.kept_records.specs.declared.element.KeptElement.{KeptElement as KeptData};
ghost use Rattle.kept_state.specs.Kept.{Rewrites, children_at, outcome_at};

use crate::{Governed, KeptChildren, Outcome};
use assess_records::Codes;
use elem_governing::Governing;
use kept_records::{KeptElement, KeptRecords};
use model_lists::ModelLists;
use std::alloc::{AllocError, Global};
use xs_lists::Listed;

/// What is kept beside a document that is edited: the records of its elements, the lists of their child elements, and the codes of IDs
/// at the root.
pub struct KeptState {
    pub alloc: Global,
    pub records: KeptRecords,
    pub lists: ModelLists,
    pub root_ids: Codes,
}

impl KeptState {
    /// Nothing is kept.
    ///
    /// # Errors
    ///
    /// `AllocError` is want of memory.
    pub fn new(alloc: Global) -> Result<Self, AllocError>
        ensures none { IfOk result (λ kept. kept.records.slots ≡ []) }
        ensures booked { IfOk result (λ kept. IsBooked kept.records) }
        ensures lists { IfOk result (λ kept. (h : ModelList) → ¬ IsLive kept.lists h) }
        ensures ids { IfOk result (λ kept. kept.root_ids ≡ []) }
    {
        Ok(KeptState {
            alloc,
            records: KeptRecords::new(alloc)?,
            lists: ModelLists::new(alloc),
            root_ids: Listed::new(alloc),
        })
    }

    /// What is kept of an element of which something is.
    pub fn at(&self, node: u32) -> &KeptElement
        requires { IsMade self.now.records.slots node }
        ensures { IsKept self.now.records.slots node result.now }
    {
        match self.records.get(node) {
            Some(own) => own,
            None => unreachable!(),
        }
    }

    /// What governs an element.
    pub fn pair(&self, node: u32) -> Governing
        requires { IsMade self.now.records.slots node }
        ensures { result ≡ pair_at self.now.records.slots node }
    {
        self.at(node).found.governing
    }

    /// What is kept of the child elements of an element.
    pub fn children(&self, node: u32) -> KeptChildren
        requires { IsMade self.now.records.slots node }
        ensures { result ≡ children_at self.now.records.slots node }
    {
        let own = self.at(node);
        KeptChildren {
            stuck: own.stuck,
            counts: own.counts,
            list: own.list,
        }
    }

    /// What of an element enters its parent's record.
    pub fn outcome(&self, node: u32) -> Outcome
        requires { IsMade self.now.records.slots node }
        ensures { result ≡ outcome_at self.now.records.slots node }
    {
        let element = &self.at(node).found.element;
        Outcome {
            validity: element.validity,
            attempted: element.attempted,
        }
    }

    /// Whether an element is governed so.
    pub fn is_governed(&self, element: &Governed) -> bool
        ensures { IsTrue result ↔ (IsMade self.now.records.slots element.now.node × (pair_at self.now.records.slots element.now.node ≡ element.now.pair)) }
    {
        match self.records.get(element.node) {
            None => false,
            Some(kept) => is_same(&kept.found.governing, &element.pair),
        }
    }

    /// Whether an element has the type of what is to govern it.
    pub fn is_typed(&self, element: &Governed) -> bool
        ensures { IsTrue result ↔ (IsMade self.now.records.slots element.now.node × ((pair_at self.now.records.slots element.now.node).of ≡ element.now.pair.of)) }
    {
        match self.records.get(element.node) {
            None => false,
            Some(kept) => is_same_type(&kept.found.governing, &element.pair),
        }
    }

    /// The codes of the identity constraints of an element, none where nothing is kept of it.
    ///
    /// # Errors
    ///
    /// `AllocError` is want of memory.
    pub fn identity_codes(&self, node: u32) -> Result<Codes, AllocError>
        ensures { IfOk result (λ codes. codes ≡ (kept_at self.now.records.slots node).identity) }
    {
        match self.records.get(node) {
            None => Ok(Listed::new(self.alloc)),
            Some(kept) => kept.identity.clone(),
        }
    }

    /// The codes of IDs at an element: those of the document at the root, else none.
    ///
    /// # Errors
    ///
    /// `AllocError` is want of memory.
    pub fn ids_at(&self, node: u32) -> Result<Codes, AllocError>
        ensures { IfOk result (λ codes. codes ≡ root_codes self.now.root_ids node) }
    {
        if node == 1 {
            self.root_ids.clone()
        } else {
            Ok(Listed::new(self.alloc))
        }
    }

    /// Writes where the child elements of an element get stuck, and how many are of each kind. It takes no memory.
    pub fn set_children(&mut self, node: u32, children: KeptChildren)
        requires { IsMade self.old.records.slots node }
        ensures change { (k : KeptData) → IsKept self.old.records.slots node k → Rewrites self.old self.new node (Some (record k { stuck = children.stuck; counts = children.counts })) }
        ensures booked { IsBooked self.old.records → IsBooked self.new.records }
    {
        self.records
            .set_counts(node, children.stuck, children.counts);
    }

    /// Keeps this of an element, in place of what was kept of it.
    ///
    /// # Errors
    ///
    /// `AllocError` is want of memory, or there are more codes than 18,446,744,073,709,551,615.
    pub fn put(&mut self, node: u32, element: KeptElement) -> Result<(), AllocError>
        requires { IsBooked self.old.records }
        ensures change { OnOk result (Rewrites self.old self.new node (Some element)) }
        ensures booked { OnOk result (IsBooked self.new.records) }
    {
        match self.records.take(node) {
            Some(mut own) => {
                *own = element;
                self.records.put(node, own)
            }
            None => match Box::new(self.alloc, element) {
                Ok(own) => self.records.put(node, own),
                Err(_) => Err(AllocError),
            },
        }
    }
}

// Whether the two govern alike.
fn is_same(one: &Governing, other: &Governing) -> bool
    ensures { IsTrue result ↔ (one.now ≡ other.now) }
{
    one.declaration == other.declaration && is_same_type(one, other) && one.mode == other.mode
}

// Whether they govern by one type.
fn is_same_type(one: &Governing, other: &Governing) -> bool
    ensures { IsTrue result ↔ (one.now.of ≡ other.now.of) }
{
    one.of == other.of
}

impl Drop for KeptState {
    fn drop(self) {
        let KeptState {
            alloc: _,
            records,
            lists,
            root_ids,
        } = self;
        drop(records);
        drop(lists);
        drop(root_ids);
    }
}
