//! Patterns.

ghost use Rattle.std.specs.Prelude.{◌≡◌, ◌↔◌, ℕ, List, Result, Ok, IfOk, IsTrue};
ghost use Rattle.std.specs.Str.{chars};
ghost use Rattle.pattern_syntax.specs.Regex.{Regex, Matches};
ghost use Rattle.pattern_syntax.specs.Grammar.{RegExp};
ghost use Rattle.pattern_syntax.specs.Reading.{Reads, IsWritten, answer_of};
ghost use Rattle.pattern_syntax.specs.Outcome.{regex_of};
ghost use Rattle.pattern_syntax.specs.declared.fault.PatternFault.{PatternFault};
ghost use Rattle.xs_regex.specs.Expression.{regex};

use crate::program::Program;
use crate::set::PositionSet;
use pattern_syntax::{PatternFault, Term, read_pattern};
use std::alloc::{AllocError, Global};
use std::marker::Model;
use std::rc::Rc;

/// A regular expression, ready to match texts. Contracts see its term.
pub struct Pattern {
    /// Shared by the copies of the pattern.
    program: Rc<Program>,
    /// The positions that took the last character.
    live: PositionSet,
    next: PositionSet,
}

impl Model for Pattern {
    ghost use Rattle.xs_regex.specs.Expression.{Expression};
    ghost use Rattle.xs_positions.specs.TreeCode.{coded_tree};
    ghost use Rattle.std.specs.Coded.{codes};

    ghost Value = { Expression };

    ghost coded = { Prim.hlevel (codes, coded_tree) };

    ghost use Rattle.xs_regex.specs.Ready.{inside_expression, IsReady};

    ghost view = { inside_expression };

    ghost invariant = { IsReady };
}

impl Pattern {
    ghost use Rattle.xs_regex.specs.Outcome.{limited, outcome_of};
    ghost use Rattle.xs_regex.specs.Meaning.{MatchesPattern};

    /// The pattern that the text is (Datatypes, appendix F).
    ///
    /// # Errors
    /// `Syntax` where the text is no pattern, with the number of characters of its longest front that begins some
    /// pattern. Of a text that is one, `UnsupportedBlock` or `UnknownClass` for the first class name that is not
    /// accepted. `TooLarge` last, where a quantifier's number or the count of positions is above 4,096.
    /// Else when memory runs out.
    pub fn read(alloc: Global, text: &str) -> Result<Result<Pattern, PatternFault>, AllocError>
        ensures reads { IfOk result (λ outcome. (answer : Result Regex PatternFault) × Reads (chars text.now) answer × (outcome_of outcome ≡ limited answer)) }
        ensures only { IfOk result (λ outcome. (r : RegExp) → IsWritten (chars text.now) r → outcome_of outcome ≡ limited (answer_of r)) }
        ensures means { IfOk result (λ outcome. IfOk outcome (λ pattern. (other : List ℕ) → Matches (regex pattern) other ↔ MatchesPattern (chars text.now) other)) }
    {
        Pattern::read_text(alloc, text)
    }

    fn read_text(alloc: Global, text: &str) -> Result<Result<Pattern, PatternFault>, AllocError>
        ensures reads { IfOk result (λ outcome. (answer : Result Regex PatternFault) × Reads (chars text.now) answer × (outcome_of outcome ≡ limited answer)) }
        ensures only { IfOk result (λ outcome. (r : RegExp) → IsWritten (chars text.now) r → outcome_of outcome ≡ limited (answer_of r)) }
    {
        match read_pattern(alloc, text)? {
            Ok(term) => Pattern::of_term(alloc, term),
            Err(fault) => Ok(Err(fault)),
        }
    }

    /// The pattern of a term, or `TooLarge` where it has more than 4,096 positions.
    fn of_term(alloc: Global, term: Term) -> Result<Result<Pattern, PatternFault>, AllocError>
        ensures { IfOk result (λ outcome. outcome_of outcome ≡ limited (Ok (regex_of term))) }
    {
        let Ok(program) = Program::new(alloc, term.terms, term.root)? else {
            return Ok(Err(PatternFault::TooLarge));
        };
        let count = program.len();
        Ok(Ok(Pattern {
            program: Rc::new(alloc, program)?,
            live: PositionSet::new(alloc, count)?,
            next: PositionSet::new(alloc, count)?,
        }))
    }

    /// A copy of the pattern with memory of its own for matching; what the pattern is, is shared.
    ///
    /// # Errors
    /// When memory runs out.
    pub fn try_clone(&self, alloc: Global) -> Result<Pattern, AllocError>
        ensures { IfOk result (λ pattern. pattern ≡ self.now) }
    {
        let count = self.program.len();
        Ok(Pattern {
            program: self.program.clone()?,
            live: PositionSet::new(alloc, count)?,
            next: PositionSet::new(alloc, count)?,
        })
    }

    /// Whether the whole text is in the language of the pattern. It takes no memory.
    pub fn matches(&mut self, text: &str) -> bool
        ensures answer { IsTrue result ↔ Matches (regex self.old) (chars text.now) }
        ensures same { self.new ≡ self.old }
    {
        self.program.run(&mut self.live, &mut self.next, text)
    }
}

impl Drop for Pattern {
    fn drop(self) {
        let Pattern {
            program,
            live,
            next,
        } = self;
        drop(program);
        drop(live);
        drop(next);
    }
}
