//! The expressions of the text that is being read.

ghost use Rattle.std.specs.Prelude.{◌≡◌, ◌<◌, IfOk, OnOk, length, IsTrue, []};
ghost use Rattle.std.specs.List.{list_all};
ghost use Rattle.pattern_syntax.specs.Classes.{class_of};
ghost use Rattle.pattern_syntax.specs.Regex.{character, choice_of, regex_at};
ghost use Rattle.pattern_syntax.specs.Terms.{regexes_of};
ghost use Rattle.pattern_syntax.specs.Built.{no_frame, with_piece, with_bounds, opened, barred, all_branches};
ghost use Rattle.pattern_syntax.specs.Grammar.{is_given};
ghost use Rattle.pattern_syntax.specs.Views.{knows, knows_group, Closes};

use crate::{CharClass, Terms};
use std::alloc::{AllocError, Global};
use std::mem;
use xs_positions::ExprId;

/// An expression: the one of the root among the terms. Contracts see `regex_of`.
#[derive(Drop)]
pub struct Term {
    /// The terms.
    pub terms: Terms,
    /// The number of the whole expression.
    pub root: ExprId,
    ghost known: { root < length (regexes_of terms) },
}

/// A group around the one in hand: its branches that are done, and the pieces of the one in hand.
#[derive(Drop)]
pub(crate) struct OpenGroup {
    pub branches: Vec<ExprId>,
    pub pieces: Vec<ExprId>,
}

/// The groups that are open, and their terms.
#[derive(Drop)]
pub(crate) struct Building {
    alloc: Global,
    terms: Terms,
    /// The groups around the one in hand, outermost first.
    outer: Vec<OpenGroup>,
    /// The branches of the group in hand that are done.
    branches: Vec<ExprId>,
    /// The pieces of the branch in hand.
    pieces: Vec<ExprId>,
    ghost outer_known: { IsTrue (list_all (knows_group (length (regexes_of terms))) outer.items) },
    ghost branches_known: { IsTrue (knows (length (regexes_of terms)) branches.items) },
    ghost pieces_known: { IsTrue (knows (length (regexes_of terms)) pieces.items) },
}

impl Building {
    ghost use Rattle.pattern_syntax.specs.BuiltViews.{built_of};

    pub fn new(alloc: Global) -> Result<Building, AllocError>
        ensures { IfOk result (λ building. built_of building ≡ record { outer = []; here = no_frame }) }
    {
        Ok(Building {
            alloc,
            terms: Terms::new(alloc)?,
            outer: Vec::new(alloc),
            branches: Vec::new(alloc),
            pieces: Vec::new(alloc),
        })
    }

    /// Whether some group is open around the one in hand.
    pub fn is_inside(&self) -> bool
        ensures { result ≡ is_given (built_of self.now).outer }
    {
        !self.outer.is_empty()
    }

    /// A piece of one character of the class.
    pub fn push_class(&mut self, class: CharClass) -> Result<(), AllocError>
        ensures { OnOk result (built_of self.new ≡ with_piece (built_of self.old) (character (class_of class))) }
    {
        let id = self.terms.class(class)?;
        self.pieces.push(id)?;
        Ok(())
    }

    /// The last piece is repeated instead.
    pub fn repeat_last(&mut self, least: u32, most: Option<u32>) -> Result<(), AllocError>
        ensures { OnOk result (built_of self.new ≡ with_bounds (built_of self.old) least most) }
    {
        match self.pieces.pop() {
            None => Ok(()),
            Some(part) => {
                let id = self.terms.repeat(part, least, most)?;
                self.pieces.push(id)?;
                Ok(())
            }
        }
    }

    /// A group begins.
    pub fn open(&mut self) -> Result<(), AllocError>
        ensures { OnOk result (built_of self.new ≡ opened (built_of self.old)) }
    {
        let branches = mem::replace(&mut self.branches, Vec::new(self.alloc));
        let pieces = mem::replace(&mut self.pieces, Vec::new(self.alloc));
        self.outer.push(OpenGroup { branches, pieces })?;
        Ok(())
    }

    /// The branch in hand is done, and another begins.
    pub fn bar(&mut self) -> Result<(), AllocError>
        ensures { OnOk result (built_of self.new ≡ barred (built_of self.old)) }
    {
        let branch = self.terms.sequence(&self.pieces)?;
        self.pieces.clear();
        self.branches.push(branch)?;
        Ok(())
    }

    /// The group in hand is done, and is a piece of the one around it, unless there is none.
    pub fn close(&mut self) -> Result<bool, AllocError>
        ensures { IfOk result (λ inside. Closes inside (built_of self.old) (built_of self.new)) }
    {
        if self.outer.is_empty() {
            return Ok(false);
        }
        self.bar()?;
        let group = self.terms.choice(&self.branches)?;
        match self.outer.pop() {
            None => Ok(false),
            Some(around) => {
                self.branches = around.branches;
                self.pieces = around.pieces;
                self.pieces.push(group)?;
                Ok(true)
            }
        }
    }

    /// The expression of the group in hand.
    pub fn finish(mut self) -> Result<Term, AllocError>
        ensures { IfOk result (λ term. regex_at (regexes_of term.terms) term.root ≡ choice_of (all_branches (built_of self).here)) }
    {
        self.bar()?;
        let Building {
            mut terms,
            branches,
            ..
        } = self;
        let root = terms.choice(&branches)?;
        Ok(Term { terms, root })
    }
}
