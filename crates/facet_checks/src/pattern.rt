//! Patterns as they are written.
ghost use Rattle.std.specs.Prelude.{◌≡◌, ◌↔◌, IfOk, IsTrue};
ghost use Rattle.std.specs.Str.{chars};
ghost use Rattle.xs_regex.specs.Meaning.{MatchesPattern};
ghost use Rattle.facet_checks.specs.Patterns.{IsRefusedPattern, pattern_code, MatchesSome, MatchesEach};

use crate::{Alternatives, Shared};
use pattern_syntax::PatternFault;
use std::alloc::{AllocError, Global};
use std::marker::Model;
use xs_codes::Code;
use xs_names::Text;
use xs_regex::Pattern;

/// A pattern as it is written, ready to match texts (Datatypes 4.3.4). Contracts see its text.
#[derive(Drop)]
pub struct PatternText {
    text: Text,
    pattern: Pattern,
}

impl Model for PatternText {
    ghost use Rattle.std.specs.Prelude.{List, ℕ};

    ghost Value = { List ℕ };

    ghost use Rattle.facet_checks.specs.inside.PatternText.{text_of, IsReadFrom};

    ghost view = { text_of };

    ghost invariant = { IsReadFrom };
}

impl PatternText {
    /// The pattern that the text is.
    ///
    /// # Errors
    ///
    /// `x-pattern` where the text is no regular expression, or names a class that there is not; `x-unsupported.block` for
    /// a block that is not supported; `x-limit.pattern` where it is too large.
    pub fn read(alloc: Global, text: &str) -> Result<Result<PatternText, Code>, AllocError>
        ensures value { IfOk result (λ outcome. IfOk outcome (λ pattern. pattern ≡ text.now)) }
        ensures refused { IfOk result (λ outcome. IsRefusedPattern text.now outcome) }
    {
        match Pattern::read(alloc, text)? {
            Ok(pattern) => {
                let text = Text::new(alloc, text)?;
                Ok(Ok(PatternText { text, pattern }))
            }
            Err(fault) => Ok(Err(code_of(fault))),
        }
    }

    /// The same pattern, with memory of its own for matching; its text is shared.
    pub fn try_clone(&self, alloc: Global) -> Result<PatternText, AllocError>
        ensures { IfOk result (λ copy. copy ≡ self.now) }
    {
        Ok(PatternText {
            text: self.text.try_clone()?,
            pattern: self.pattern.try_clone(alloc)?,
        })
    }

    /// Whether the text matches the pattern. It takes no memory.
    pub fn matches(&mut self, text: &str) -> bool
        ensures answer { IsTrue result ↔ MatchesPattern (chars self.old) (chars text.now) }
        ensures same { self.new ≡ self.old }
    {
        self.pattern.matches(text)
    }
}

// The code of a text that is no pattern.
fn code_of(fault: PatternFault) -> Code
    ensures { result ≡ pattern_code fault }
{
    match fault {
        PatternFault::Syntax(_) => Code::XPattern,
        PatternFault::UnknownClass => Code::XPattern,
        PatternFault::UnsupportedBlock => Code::XUnsupportedBlock,
        PatternFault::TooLarge => Code::XLimitPattern,
    }
}

/// Whether the text matches one of the patterns of each step, which are shared.
pub(crate) fn do_match_each(
    alloc: Global,
    steps: &[Shared<Alternatives>],
    text: &str,
) -> Result<bool, AllocError>
    ensures { IfOk result (λ answer. IsTrue answer ↔ MatchesEach steps.now text.now) }
{
    for patterns in steps {
        if !do_match_some(alloc, patterns.get().as_slice(), text)? {
            return Ok(false);
        }
    }
    Ok(true)
}

// Whether the text matches one of the patterns, of which each is copied while it is matched.
fn do_match_some(alloc: Global, patterns: &[PatternText], text: &str) -> Result<bool, AllocError>
    ensures { IfOk result (λ answer. IsTrue answer ↔ MatchesSome patterns.now text.now) }
{
    for pattern in patterns {
        if pattern.try_clone(alloc)?.matches(text) {
            return Ok(true);
        }
    }
    Ok(false)
}
