//! What is counted of the elements of a document as targets, with what they were when it was found.

ghost use Rattle.std.specs.Prelude.{◌≡◌, [], Some, IfOk, OnOk};
ghost use Rattle.doc_nodes.specs.Nodes.{Nodes};
ghost use Rattle.kept_slots.specs.Slots.{Writes};
ghost use Rattle.kept_targets.specs.Kept as spec;

use child_lists::kept_judging::kept_records::KeptElement;
use compiled_schema::Compiled;
use elem_governing::Governing;
use forest_keys::references_of;
use kept_slots::Slots;
use scope_targets::CountedKeys;
use std::alloc::{AllocError, Global};
use xs_names::NameId;

/// The name of an element, and what governed it, as its targets were found.
#[derive(Clone, Copy, PartialEq)]
pub struct ElementSign {
    pub name: NameId,
    pub pair: Governing,
}

/// What is counted of the elements of a document as targets of identity constraints, with the signs of all elements.
#[derive(Drop)]
pub struct TargetKeys {
    pub alloc: Global,
    pub counted: CountedKeys,
    pub signs: Slots<ElementSign>,
}

/// The sign of an element, by what is kept of it.
pub(crate) fn sign_of(kept: &KeptElement) -> ElementSign
    ensures { result ≡ spec.sign_of kept.now }
{
    ElementSign {
        name: kept.found.element.name,
        pair: kept.found.governing,
    }
}

impl TargetKeys {
    /// Of no elements, by the identity constraints of a schema set.
    ///
    /// # Errors
    ///
    /// `AllocError` is want of memory, or there are more than 2,147,483,648 constraints.
    pub fn new(alloc: Global, set: &Compiled) -> Result<Self, AllocError>
        ensures { IfOk result (λ keys. (ns : Nodes) → spec.AreTargets set.now ns [] keys) }
    {
        let references = references_of(alloc, &set.parts)?;
        let counted = CountedKeys::new(alloc, references)?;
        Ok(TargetKeys {
            alloc,
            counted,
            signs: Slots::new(alloc),
        })
    }

    /// Keeps the sign of an element.
    pub(crate) fn set_sign(&mut self, node: u32, sign: ElementSign) -> Result<(), AllocError>
        ensures signs { OnOk result (Writes self.old.signs self.new.signs node (Some sign)) }
        ensures counted { self.new.counted ≡ self.old.counted }
    {
        if let Some(mut was) = self.signs.take(node) {
            *was = sign;
            self.signs.put(node, was);
            return Ok(());
        }
        self.signs.reach(node)?;
        match Box::new(self.alloc, sign) {
            Ok(kept) => {
                self.signs.put(node, kept);
                Ok(())
            }
            Err(_) => Err(AllocError),
        }
    }
}
