//! The class that is being read.

ghost use Rattle.std.specs.Prelude.{◌≡◌, IfOk, OnOk, length};
ghost use Rattle.pattern_syntax.specs.Classes.{class_of, group_of};
ghost use Rattle.pattern_syntax.specs.Classed.{no_class, no_group, with_item, with_range, with_negation, with_group, whole_class};
ghost use Rattle.pattern_syntax.specs.Views.{classed_of};

use crate::{CharClass, CharGroup, ClassItem};
use std::alloc::{AllocError, Global};
use std::mem;

/// The groups of a class, each subtracted from the one before it: those that are done, and the one in hand.
#[derive(Drop)]
pub(crate) struct ClassInHand {
    alloc: Global,
    groups: Vec<CharGroup>,
    hand: CharGroup,
}

impl ClassInHand {
    pub fn new(alloc: Global) -> ClassInHand
        ensures { classed_of result ≡ no_class }
    {
        ClassInHand {
            alloc,
            groups: Vec::new(alloc),
            hand: empty_group(alloc),
        }
    }

    pub fn push_item(&mut self, item: ClassItem) -> Result<(), AllocError>
        ensures { OnOk result (classed_of self.new ≡ with_item (classed_of self.old) item) }
    {
        self.hand.items.push(item)?;
        Ok(())
    }

    /// The last item is the range instead.
    #[tactic(auto, using(crate::proofs::Lists::change_last_snoc))]
    pub fn end_range(&mut self, first: char, last: char) -> Result<(), AllocError>
        ensures { OnOk result (classed_of self.new ≡ with_range (classed_of self.old) first last) }
    {
        match self.hand.items.pop() {
            None => Ok(()),
            Some(_) => {
                self.hand.items.push(ClassItem::Range(first, last))?;
                Ok(())
            }
        }
    }

    pub fn negate(&mut self)
        ensures { classed_of self.new ≡ with_negation (classed_of self.old) }
    {
        self.hand.negated = true;
    }

    /// The group in hand is done, and another begins that is subtracted from it.
    pub fn subtract(&mut self) -> Result<(), AllocError>
        ensures { OnOk result (classed_of self.new ≡ with_group (classed_of self.old)) }
    {
        let group = mem::replace(&mut self.hand, empty_group(self.alloc));
        self.groups.push(group)?;
        Ok(())
    }

    /// How many groups are done.
    pub fn depth(&self) -> usize
        ensures { result ≡ length (classed_of self.now).groups }
    {
        self.groups.len()
    }

    /// The class of all groups.
    pub fn finish(self) -> Result<CharClass, AllocError>
        ensures { IfOk result (λ class. class_of class ≡ whole_class (classed_of self)) }
    {
        let ClassInHand {
            mut groups,
            hand,
            ..
        } = self;
        groups.push(hand)?;
        Ok(CharClass::Groups(groups))
    }
}

fn empty_group(alloc: Global) -> CharGroup
    ensures { group_of result ≡ no_group }
{
    CharGroup {
        negated: false,
        items: Vec::new(alloc),
    }
}
