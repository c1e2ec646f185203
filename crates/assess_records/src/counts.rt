ghost use Rattle.std.specs.Prelude.{◌≡◌, ◌<◌, ◌+◌, ◌^◌};
ghost use Rattle.assess_records.specs.Counts.{no_children, with_validity, with_attempted, with_child, child_count, attempt_count};
ghost use Rattle.assess_records.specs.declared.counts.ChildCounts.{ChildCounts};

use crate::{Attempted, Validity};

/// How many child elements of an element have each validity, and each attempt at validation.
#[derive(Clone, Copy)]
pub struct ChildCounts {
    pub valid: u32,
    pub invalid: u32,
    pub not_known: u32,
    pub full: u32,
    pub partial: u32,
    pub untried: u32,
}

impl ChildCounts {
    /// No child elements.
    pub fn new() -> Self
        ensures { result ≡ no_children }
    {
        ChildCounts {
            valid: 0,
            invalid: 0,
            not_known: 0,
            full: 0,
            partial: 0,
            untried: 0,
        }
    }

    /// The number of child elements.
    pub fn children(self) -> u32
        requires few { child_count self < 2 ^ 32 }
        ensures { result ≡ child_count self }
    {
        self.valid + self.invalid + self.not_known
    }

    /// Counts one more child element.
    pub fn add(&mut self, validity: Validity, attempted: Attempted)
        requires few { child_count self.old + 1 < 2 ^ 32 }
        requires fewer { attempt_count self.old + 1 < 2 ^ 32 }
        ensures { self.new ≡ with_child validity attempted self.old }
    {
        match validity {
            Validity::Valid => self.valid += 1,
            Validity::Invalid => self.invalid += 1,
            Validity::NotKnown => self.not_known += 1,
        }
        match attempted {
            Attempted::Full => self.full += 1,
            Attempted::Partial => self.partial += 1,
            Attempted::Untried => self.untried += 1,
        }
    }

    /// Counts one child element less, one of those that are counted.
    pub fn remove(&mut self, validity: Validity, attempted: Attempted)
        requires counted { (rest : ChildCounts) × (self.old ≡ with_child validity attempted rest) }
        ensures { (rest : ChildCounts) → self.old ≡ with_child validity attempted rest → self.new ≡ rest }
    {
        match validity {
            Validity::Valid => self.valid -= 1,
            Validity::Invalid => self.invalid -= 1,
            Validity::NotKnown => self.not_known -= 1,
        }
        match attempted {
            Attempted::Full => self.full -= 1,
            Attempted::Partial => self.partial -= 1,
            Attempted::Untried => self.untried -= 1,
        }
    }
}
