//! What is found of child elements.

ghost use Rattle.std.specs.Prelude.{◌≡◌, ◌<◌, ◌+◌, ◌^◌, [], ◌∷◌, ◌++◌, Option, None, length, OnOk};
ghost use Rattle.assessment.specs.inside.Found.{stuck_after};

use std::alloc::{AllocError, Global};
use xs_components::TermId;

/// What the content model of an element says of its child elements (Structures 3.4.4).
#[derive(Drop)]
pub struct ChildTerms {
    /// The place where they get stuck: that of the first child with which they begin no word of the content model; their
    /// number where all begin one but are none; `None` where they are a word.
    pub stuck: Option<u32>,
    /// The term that each of them is attributed to, if there is one.
    pub terms: Vec<Option<TermId>>,
}

impl ChildTerms {
    /// Nothing, of no child.
    pub(crate) fn new(alloc: Global) -> ChildTerms
        ensures stuck { result.stuck ≡ None }
        ensures terms { result.terms.items ≡ [] }
    {
        ChildTerms {
            stuck: None,
            terms: Vec::new(alloc),
        }
    }

    /// Adds the term of the next child. `begins` tells whether the children with this one begin a word.
    pub(crate) fn add(&mut self, begins: bool, term: Option<TermId>) -> Result<(), AllocError>
        requires few { length self.old.terms.items < 2 ^ 32 }
        ensures stuck { OnOk result (self.new.stuck ≡ stuck_after self.old.stuck begins (length self.old.terms.items)) }
        ensures terms { OnOk result (self.new.terms.items ≡ self.old.terms.items ++ term ∷ []) }
    {
        self.note(begins);
        self.terms.push(term)?;
        Ok(())
    }

    /// Notes that the children so far do not go on as they should, unless they do, or were stuck before.
    pub(crate) fn note(&mut self, goes_on: bool)
        requires few { length self.old.terms.items < 2 ^ 32 }
        ensures stuck { self.new.stuck ≡ stuck_after self.old.stuck goes_on (length self.old.terms.items) }
        ensures terms { self.new.terms.items ≡ self.old.terms.items }
    {
        if !goes_on && self.stuck.is_none() {
            self.stuck = Some(self.terms.len() as u32);
        }
    }
}
