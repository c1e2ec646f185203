//! Terms, each over earlier ones by number.

ghost use Rattle.std.specs.Prelude.{◌≡◌, ◌<◌, [], ◌∷◌, ◌++◌, map, length, All, IfOk, OnOk, OnErr, IsTrue};
ghost use Rattle.pattern_syntax.specs.Regex.{character, repeated, sequence_of, choice_of, regex_at};
ghost use Rattle.pattern_syntax.specs.Classes.{class_of};
ghost use Rattle.pattern_syntax.specs.Trees.{knows};
ghost use Rattle.std.specs.List.{list_all};

use crate::class::CharClass;
use std::alloc::{AllocError, Global};
use xs_positions::{Expr, ExprId};

/// Terms, each under its number. Contracts see the list of the regular expressions, `regexes_of`, which only grows.
#[derive(Drop)]
pub struct Terms {
    classes: Vec<CharClass>,
    /// The terms over the numbers of classes.
    expr: Expr,
    ghost known: { IsTrue (list_all (knows (length classes.items)) expr) },
}

impl Terms {
    ghost use Rattle.pattern_syntax.specs.Terms.{regexes_of, classes_of, trees_of};

    /// No term yet.
    ///
    /// # Errors
    /// When memory runs out.
    pub fn new(alloc: Global) -> Result<Terms, AllocError>
        ensures { IfOk result (λ terms. regexes_of terms ≡ []) }
    {
        Ok(Terms {
            classes: Vec::new(alloc),
            expr: Expr::new(alloc)?,
        })
    }

    /// A copy of the terms, under the same numbers, with memory of its own.
    ///
    /// # Errors
    /// When memory runs out.
    pub fn try_clone(&self, alloc: Global) -> Result<Terms, AllocError>
        ensures classes { IfOk result (λ terms. classes_of terms ≡ classes_of self.now) }
        ensures trees { IfOk result (λ terms. trees_of terms ≡ trees_of self.now) }
    {
        Ok(Terms {
            classes: clone_classes(alloc, &self.classes)?,
            expr: self.expr.try_clone(alloc)?,
        })
    }

    /// The term that one character of the class matches.
    ///
    /// # Errors
    /// When memory runs out; the terms are then as they were.
    pub fn class(&mut self, class: CharClass) -> Result<ExprId, AllocError>
        ensures id { IfOk result (λ id. id ≡ length (regexes_of self.old)) }
        ensures ok { OnOk result (regexes_of self.new ≡ regexes_of self.old ++ character (class_of class) ∷ []) }
        ensures err { OnErr result (regexes_of self.new ≡ regexes_of self.old) }
    {
        if self.classes.len() > u32::MAX as usize {
            return Err(AllocError);
        }
        let number = self.classes.len() as u32;
        self.classes.push(class)?;
        self.expr.symbol(number)
    }

    /// A text of each part, in order. Without parts that is the empty text.
    ///
    /// # Errors
    /// When memory runs out; the terms are then as they were.
    pub fn sequence(&mut self, parts: &[ExprId]) -> Result<ExprId, AllocError>
        requires { All (λ part. part < length (regexes_of self.old)) parts.now }
        ensures id { IfOk result (λ id. id ≡ length (regexes_of self.old)) }
        ensures ok { OnOk result (regexes_of self.new ≡ regexes_of self.old ++ sequence_of (map (regex_at (regexes_of self.old)) parts.now) ∷ []) }
        ensures err { OnErr result (regexes_of self.new ≡ regexes_of self.old) }
    {
        self.expr.sequence(parts)
    }

    /// A text of one of the parts. Without parts there is none.
    ///
    /// # Errors
    /// When memory runs out; the terms are then as they were.
    pub fn choice(&mut self, parts: &[ExprId]) -> Result<ExprId, AllocError>
        requires { All (λ part. part < length (regexes_of self.old)) parts.now }
        ensures id { IfOk result (λ id. id ≡ length (regexes_of self.old)) }
        ensures ok { OnOk result (regexes_of self.new ≡ regexes_of self.old ++ choice_of (map (regex_at (regexes_of self.old)) parts.now) ∷ []) }
        ensures err { OnErr result (regexes_of self.new ≡ regexes_of self.old) }
    {
        self.expr.choice(parts)
    }

    /// So many texts of the part, one after the other: at least `least`, and at most `most` where there is one.
    /// Where `least` is above `most` there is no text.
    ///
    /// # Errors
    /// When memory runs out; the terms are then as they were.
    pub fn repeat(
        &mut self,
        part: ExprId,
        least: u32,
        most: Option<u32>,
    ) -> Result<ExprId, AllocError>
        requires { part < length (regexes_of self.old) }
        ensures id { IfOk result (λ id. id ≡ length (regexes_of self.old)) }
        ensures ok { OnOk result (regexes_of self.new ≡ regexes_of self.old ++ repeated (regex_at (regexes_of self.old) part) least most ∷ []) }
        ensures err { OnErr result (regexes_of self.new ≡ regexes_of self.old) }
    {
        self.expr.repeat(part, least, most)
    }

    /// The classes, by number.
    pub fn classes(&self) -> &[CharClass]
        ensures { map class_of result.now ≡ classes_of self.now }
    {
        &self.classes
    }

    /// The terms as expressions over the numbers of classes.
    pub fn expr(&self) -> &Expr
        ensures { result.now ≡ trees_of self.now }
    {
        &self.expr
    }
}

fn clone_classes(alloc: Global, classes: &[CharClass]) -> Result<Vec<CharClass>, AllocError>
    ensures { IfOk result (λ copy. map class_of copy.items ≡ map class_of classes.now) }
{
    let mut copy = Vec::new(alloc);
    for class in classes {
        copy.push(class.try_clone(alloc)?)?;
    }
    Ok(copy)
}
