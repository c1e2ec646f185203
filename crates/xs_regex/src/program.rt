//! The positions of a term, and how they take the characters of a text.

ghost use Rattle.std.specs.Prelude.{◌≡◌, ℕ, ◌<◌, ◌≤◌, ◌↔◌, ◌⊎◌, length, replicate, false, All, Contains, IfOk, IfSome, IsErr, IsTrue, Some};
ghost use Rattle.std.specs.Str.{chars};
ghost use Rattle.xs_positions.specs.Sets.{row};
ghost use Rattle.xs_positions.specs.Nodes.{tree_at};
ghost use Rattle.pattern_syntax.specs.Regex.{Matches, regex_at};
ghost use Rattle.pattern_syntax.specs.Terms.{regexes_of, classes_of, trees_of};
ghost use Rattle.xs_regex.specs.Sets.{Has};
ghost use Rattle.xs_positions.specs.Expressions.{size};
ghost use Rattle.xs_regex.specs.Expression.{regex};
ghost use Rattle.xs_regex.specs.Program.{expression_of, takes, Waits, IsRead, ArePut, IsProgram};

use crate::set::PositionSet;
use pattern_syntax::{CharClass, ClassItem, Terms};
use std::alloc::{AllocError, Global};
use std::mem;
use xs_positions::{ExprId, Positions, PositionsError, find_positions};

/// How many positions a pattern may have.
const MOST_POSITIONS: u32 = 4_096;

/// The positions of a term.
#[derive(Drop)]
pub(crate) struct Program {
    terms: Terms,
    root: ExprId,
    positions: Positions,
    /// For each position, whether a word may end with it.
    ends: Vec<bool>,
}

impl Program {
    /// The positions of a term, unless there are more than `MOST_POSITIONS`.
    pub(crate) fn new(
        alloc: Global,
        terms: Terms,
        root: ExprId,
    ) -> Result<Result<Program, PositionsError>, AllocError>
        requires { root < length (trees_of terms) }
        ensures program { IfOk result (λ answer. IfOk answer IsProgram) }
        ensures term { IfOk result (λ answer. IfOk answer (λ program. expression_of program ≡ record { classes = classes_of terms; tree = tree_at (trees_of terms) root })) }
        ensures too_large { IfOk result (λ answer. IsErr answer ↔ (MOST_POSITIONS < size (regex_at (regexes_of terms) root))) }
    {
        let positions = match find_positions(terms.expr(), root, MOST_POSITIONS)? {
            Ok(positions) => positions,
            Err(error) => return Ok(Err(error)),
        };
        let ends = marks(alloc, positions.count(), positions.last())?;
        Ok(Ok(Program {
            terms,
            root,
            positions,
            ends,
        }))
    }

    /// How many positions there are.
    pub(crate) fn len(&self) -> u32
        ensures { result ≡ length self.now.positions.symbols }
    {
        self.positions.count()
    }

    /// Whether the text is in the language of the term. The sets are for use meanwhile.
    pub(crate) fn run(&self, live: &mut PositionSet, next: &mut PositionSet, text: &str) -> bool
        requires program { IsProgram self.now }
        requires live { length live.old ≡ length self.now.positions.symbols }
        requires next { length next.old ≡ length self.now.positions.symbols }
        ensures answer { IsTrue result ↔ Matches (regex (expression_of self.now)) (chars text.now) }
        ensures live_size { length live.new ≡ length live.old }
        ensures next_size { length next.new ≡ length next.old }
    {
        let mut begun = false;
        for c in text.chars() {
            self.advance(live, begun, c, next);
            begun = true;
            mem::swap(live, next);
        }
        self.accepts(live, begun)
    }

    /// The positions that take the character of those that wait for it: at the beginning those that begin a word, and
    /// then those that follow a live one.
    fn advance(&self, live: &PositionSet, begun: bool, c: char, next: &mut PositionSet)
        requires program { IsProgram self.now }
        requires live { length live.now ≡ length self.now.positions.symbols }
        requires next { length next.old ≡ length self.now.positions.symbols }
        ensures next { (q : ℕ) → Has next.new q ↔ (Waits self.now.positions live.now begun q × IsTrue (takes self.now q c)) }
        ensures size { length next.new ≡ length next.old }
    {
        next.clear();
        if !begun {
            self.put(self.positions.first(), c, next);
            return;
        }
        let mut done = None;
        for p in live.members() {
            self.put_followers(*p, c, next, &mut done);
        }
    }

    /// Whether what was read is in the language.
    fn accepts(&self, live: &PositionSet, begun: bool) -> bool
        requires program { IsProgram self.now }
        requires live { length live.now ≡ length self.now.positions.symbols }
        ensures { IsTrue result ↔ IsRead self.now.positions live.now begun }
    {
        if !begun {
            return self.positions.nullable();
        }
        for p in live.members() {
            if self.ends[*p as usize] {
                return true;
            }
        }
        false
    }

    /// Puts those that follow the position and take the character into the set; where the same ones follow the position
    /// that is done, they are there already.
    fn put_followers(&self, p: u32, c: char, next: &mut PositionSet, done: &mut Option<u32>)
        requires program { IsProgram self.now }
        requires within { p < length self.now.positions.symbols }
        requires next { length next.old ≡ length self.now.positions.symbols }
        requires done { IfSome done.old (ArePut self.now next.old c) }
        ensures done { IfSome done.new (ArePut self.now next.new c) }
        ensures next { (q : ℕ) → Has next.new q ↔ (Has next.old q ⊎ (Contains (row self.now.positions.follow p) q × IsTrue (takes self.now q c))) }
        ensures size { length next.new ≡ length next.old }
    {
        if self.is_done(*done, p) {
            return;
        }
        self.put(self.positions.follow(p), c, next);
        *done = Some(p);
    }

    /// Puts those of these positions that take the character into the set.
    fn put(&self, positions: &[u32], c: char, set: &mut PositionSet)
        requires positions { All (λ p. p < length self.now.positions.symbols) positions.now }
        requires set { length set.old ≡ length self.now.positions.symbols }
        ensures set { (q : ℕ) → Has set.new q ↔ (Has set.old q ⊎ (Contains positions.now q × IsTrue (takes self.now q c))) }
        ensures size { length set.new ≡ length set.old }
    {
        for p in positions {
            if self.takes(*p, c) {
                set.insert(*p);
            }
        }
    }

    /// Whether the same positions follow the one that is done, as far as that is known.
    fn is_done(&self, done: Option<u32>, p: u32) -> bool
        requires within { p < length self.now.positions.symbols }
        requires done { IfSome done (λ q. q < length self.now.positions.symbols) }
        ensures { IsTrue result → (q : ℕ) × (done ≡ Some q) × (row self.now.positions.follow q ≡ row self.now.positions.follow p) }
    {
        match done {
            Some(q) => self.positions.follow_alike(q, p),
            None => false,
        }
    }

    /// Whether the class of the position's symbol has the character.
    fn takes(&self, p: u32, c: char) -> bool
        requires { p < length self.now.positions.symbols }
        ensures { result ≡ takes self.now p c }
    {
        let number = self.positions.symbol_of(p) as usize;
        match self.terms.classes().get(number) {
            Some(CharClass::Item(ClassItem::One(other))) => c == *other,
            Some(class) => class.contains(c),
            None => false,
        }
    }
}

/// A flag for each number below the count, set for these numbers.
fn marks(alloc: Global, count: u32, numbers: &[u32]) -> Result<Vec<bool>, AllocError>
    requires { All (λ p. p < count) numbers.now }
    ensures flags { IfOk result (λ flags. (p : ℕ) → Has flags.items p ↔ Contains numbers.now p) }
    ensures count { IfOk result (λ flags. length flags.items ≡ count) }
{
    let mut flags = vec![in alloc; false; count as usize]?;
    for p in numbers {
        flags[*p as usize] = true;
    }
    Ok(flags)
}
