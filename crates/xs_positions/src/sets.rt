//! The sets of a part of an expression, and how the sets of a whole come from those of its parts.

ghost use Rattle.std.specs.Prelude.{◌≡◌, ℕ, ◌+◌, ◌<◌, ◌≤◌, ◌^◌, ◌↔◌, ◌⊎◌, ◌++◌, ◌∷◌, ◌&&◌, ◌||◌, [], List, false, map, length, slice_index_or, All, Contains, IfOk, OnOk, IsTrue};
ghost use Rattle.std.specs.List.Sorted.{IsStrictlyIncreasing};
ghost use Rattle.xs_positions.specs.Sets.{IsWithin, IsLinked, AreLinkedIn, IsAdded, AreSorted, IsSeen};

use std::alloc::{AllocError, Global};
use std::mem;

/// Positions from one on and before another.
#[derive(Clone, Copy)]
pub(crate) struct Span {
    pub(crate) from: u32,
    pub(crate) to: u32,
}

impl Span {
    /// Whether it has the position.
    fn has(self, p: u32) -> bool
        ensures { IsTrue result ↔ IsWithin self p }
    {
        self.from <= p && p < self.to
    }
}

/// The sets of a part of an expression, whose positions have numbers from some base on. The first and the last positions
/// rise; those that follow one stand in the order of their coming.
#[derive(Drop)]
pub(crate) struct Part {
    /// The positions that may begin a word.
    pub(crate) first: Vec<u32>,
    /// The positions that may end a word.
    pub(crate) last: Vec<u32>,
    /// For each position, those that may come right after it.
    pub(crate) follow: Vec<Vec<u32>>,
    /// For each position, whether some word goes through it.
    pub(crate) useful: Vec<bool>,
    /// Where each last position is followed by each first one, as in what comes over and over.
    pub(crate) loops: Vec<Span>,
    /// Whether the empty word is one.
    pub(crate) nullable: bool,
}

impl Part {
    ghost use Rattle.xs_positions.specs.Parts.{sets_of, one_position, unused, beside, IsJoined, IsLooped};

    /// One position, which is a word.
    pub(crate) fn one(alloc: Global, p: u32) -> Result<Part, AllocError>
        ensures sets { IfOk result (λ part. sets_of part ≡ one_position p) }
        ensures nullable { IfOk result (λ part. part.nullable ≡ false) }
    {
        Ok(Part {
            first: vec![in alloc; p]?,
            last: vec![in alloc; p]?,
            follow: vec![in alloc; Vec::new(alloc)]?,
            useful: vec![in alloc; true]?,
            loops: Vec::new(alloc),
            nullable: false,
        })
    }

    /// So many positions through which no word goes.
    pub(crate) fn unused(alloc: Global, count: u64, nullable: bool) -> Result<Part, AllocError>
        ensures sets { IfOk result (λ part. sets_of part ≡ unused count) }
        ensures nullable { IfOk result (λ part. part.nullable ≡ nullable) }
    {
        let mut follow = Vec::new(alloc);
        let mut useful = Vec::new(alloc);
        for _ in 0..count {
            follow.push(Vec::new(alloc))?;
            useful.push(false)?;
        }
        Ok(Part {
            first: Vec::new(alloc),
            last: Vec::new(alloc),
            follow,
            useful,
            loops: Vec::new(alloc),
            nullable,
        })
    }

    /// A copy with memory of its own.
    pub(crate) fn try_clone(&self, alloc: Global) -> Result<Part, AllocError>
        ensures sets { IfOk result (λ part. sets_of part ≡ sets_of self.now) }
        ensures nullable { IfOk result (λ part. part.nullable ≡ self.now.nullable) }
    {
        Ok(Part {
            first: Vec::from_slice(alloc, &self.first)?,
            last: Vec::from_slice(alloc, &self.last)?,
            follow: clone_rows(alloc, &self.follow)?,
            useful: Vec::from_slice(alloc, &self.useful)?,
            loops: Vec::from_slice(alloc, &self.loops)?,
            nullable: self.nullable,
        })
    }

    /// The words of this part, and those of the other.
    pub(crate) fn or(mut self, mut other: Part) -> Result<Part, AllocError>
        ensures sets { IfOk result (λ part. sets_of part ≡ beside (sets_of self) (sets_of other)) }
        ensures nullable { IfOk result (λ part. part.nullable ≡ (self.nullable || other.nullable)) }
    {
        put_behind(&mut self.first, &mut other.first)?;
        put_behind(&mut self.last, &mut other.last)?;
        put_behind(&mut self.follow, &mut other.follow)?;
        put_behind(&mut self.useful, &mut other.useful)?;
        put_behind(&mut self.loops, &mut other.loops)?;
        self.nullable = self.nullable || other.nullable;
        Ok(self)
    }

    /// The words of this part, which begins at the base, each with a word of the next part behind it.
    pub(crate) fn then(self, base: u32, next: Part) -> Result<Part, AllocError>
        requires { All (λ p. (base ≤ p) × (p < base + length self.follow.items)) self.last.items }
        ensures joined { IfOk result (λ part. IsJoined base (sets_of self) self.nullable (sets_of next) next.nullable (sets_of part)) }
        ensures nullable { IfOk result (λ part. part.nullable ≡ (self.nullable && next.nullable)) }
    {
        let nullable = self.nullable && next.nullable;
        let mut whole = self.joined(base, next)?;
        whole.nullable = nullable;
        Ok(whole)
    }

    fn joined(mut self, base: u32, mut next: Part) -> Result<Part, AllocError>
        requires { All (λ p. (base ≤ p) × (p < base + length self.follow.items)) self.last.items }
        ensures { IfOk result (λ part. IsJoined base (sets_of self) self.nullable (sets_of next) next.nullable (sets_of part)) }
    {
        link(&mut self.follow, base, &self.last, &next.first)?;
        put_behind(&mut self.follow, &mut next.follow)?;
        put_behind(&mut self.useful, &mut next.useful)?;
        put_behind(&mut self.loops, &mut next.loops)?;
        if self.nullable {
            put_behind(&mut self.first, &mut next.first)?;
        }
        if !next.nullable {
            self.last.clear();
        }
        put_behind(&mut self.last, &mut next.last)?;
        Ok(self)
    }

    /// One or more words of this part, which begins at the base, in a row.
    pub(crate) fn looped(mut self, base: u32) -> Result<Part, AllocError>
        requires first { All (λ p. (base ≤ p) × (p < base + length self.follow.items)) self.first.items }
        requires last { All (λ p. (base ≤ p) × (p < base + length self.follow.items)) self.last.items }
        requires fits { base + length self.follow.items < 2 ^ 32 }
        requires loops { All (AreLinkedIn base self.last.items self.first.items (map (λ row. row.items) self.follow.items)) self.loops.items }
        ensures looped { IfOk result (λ part. IsLooped base (sets_of self) (sets_of part)) }
        ensures nullable { IfOk result (λ part. part.nullable ≡ self.nullable) }
    {
        self.link_round(base)?;
        Ok(self)
    }

    fn link_round(&mut self, base: u32) -> Result<(), AllocError>
        requires first { All (λ p. (base ≤ p) × (p < base + length self.old.follow.items)) self.old.first.items }
        requires last { All (λ p. (base ≤ p) × (p < base + length self.old.follow.items)) self.old.last.items }
        requires fits { base + length self.old.follow.items < 2 ^ 32 }
        requires loops { All (AreLinkedIn base self.old.last.items self.old.first.items (map (λ row. row.items) self.old.follow.items)) self.old.loops.items }
        ensures looped { OnOk result (IsLooped base (sets_of self.old) (sets_of self.new)) }
        ensures nullable { OnOk result (self.new.nullable ≡ self.old.nullable) }
    {
        let to = base + self.len() as u32;
        let whole = Span { from: base, to };
        if covers(&self.loops, whole) {
            return Ok(());
        }
        link_apart(&mut self.follow, base, &self.last, &self.first, &self.loops)?;
        self.loops.clear();
        self.loops.push(whole)?;
        Ok(())
    }

    /// How many positions the part has.
    pub(crate) fn len(&self) -> usize
        ensures { result ≡ length self.now.follow.items }
    {
        self.follow.len()
    }
}

pub(crate) fn clone_rows(alloc: Global, rows: &[Vec<u32>]) -> Result<Vec<Vec<u32>>, AllocError>
    ensures { IfOk result (λ copy. map (λ row. row.items) copy.items ≡ map (λ row. row.items) rows.now) }
{
    let mut copy = Vec::new(alloc);
    for row in rows {
        copy.push(Vec::from_slice(alloc, row)?)?;
    }
    Ok(copy)
}

/// The rows, each of them in order.
pub(crate) fn sorted(mut rows: Vec<Vec<u32>>) -> Vec<Vec<u32>>
    ensures { AreSorted (map (λ row. row.items) rows.items) (map (λ row. row.items) result.items) }
{
    for i in 0..rows.len() {
        sort_unique(&mut rows[i]);
    }
    rows
}

/// Moves the items of the one list behind those of the other.
fn put_behind<T>(front: &mut Vec<T>, back: &mut Vec<T>) -> Result<(), AllocError>
    ensures { OnOk result (front.new.items ≡ front.old.items ++ back.old.items) }
{
    if front.is_empty() {
        mem::swap(front, back);
        return Ok(());
    }
    front.append(back)
}

/// Adds each number of `to` to the row of each position of `from`; the rows are those of the positions from the base on.
fn link(rows: &mut Vec<Vec<u32>>, base: u32, from: &[u32], to: &[u32]) -> Result<(), AllocError>
    requires { All (λ p. (base ≤ p) × (p < base + length rows.old.items)) from.now }
    ensures { OnOk result (IsLinked base from.now to.now (map (λ row. row.items) rows.old.items) (map (λ row. row.items) rows.new.items)) }
{
    for p in from {
        rows[(*p - base) as usize].extend_from_slice(to)?;
    }
    Ok(())
}

/// The same where in some spans each position of `from` is followed by each of `to` already.
fn link_apart(
    rows: &mut Vec<Vec<u32>>,
    base: u32,
    from: &[u32],
    to: &[u32],
    loops: &[Span],
) -> Result<(), AllocError>
    requires places { All (λ p. (base ≤ p) × (p < base + length rows.old.items)) from.now }
    requires loops { All (AreLinkedIn base from.now to.now (map (λ row. row.items) rows.old.items)) loops.now }
    ensures { OnOk result (IsLinked base from.now to.now (map (λ row. row.items) rows.old.items) (map (λ row. row.items) rows.new.items)) }
{
    let mut linked = Linked::new();
    for p in from {
        linked.seek(loops, to, *p);
        linked.add(&mut rows[(*p - base) as usize], to, *p)?;
    }
    Ok(())
}

/// A span of those in which positions are linked already, and which numbers of a list it has.
#[derive(Clone, Copy)]
struct Linked {
    span: Span,
    /// How many spans lie before the next one.
    place: usize,
    /// The first of the numbers that the span has.
    start: usize,
    /// The number behind them.
    end: usize,
}

impl Linked {
    /// No span yet.
    fn new() -> Linked
        ensures { (loops : List Span) (numbers : List ℕ) → IsSeen loops numbers result }
    {
        Linked {
            span: Span { from: 0, to: 0 },
            place: 0,
            start: 0,
            end: 0,
        }
    }

    /// Goes on to the first span that does not lie before the position.
    fn seek(&mut self, loops: &[Span], numbers: &[u32], p: u32)
        requires { IsSeen loops.now numbers.now self.old }
        ensures { IsSeen loops.now numbers.now self.new }
    {
        'seeking: while self.span.to <= p && self.place < loops.len() {
            self.span = loops[self.place];
            self.place += 1;
            self.start = first_from(numbers, self.end, self.span.from);
            self.end = end_within(numbers, self.start, self.span);
        }
    }

    /// Adds the numbers to the row of a position, but for those that the span has where it has the position too.
    fn add(&self, row: &mut Vec<u32>, numbers: &[u32], p: u32) -> Result<(), AllocError>
        requires { (loops : List Span) × IsSeen loops numbers.now self.now }
        ensures { OnOk result (IsAdded self.now.span p numbers.now row.old.items row.new.items) }
    {
        if !self.span.has(p) {
            row.extend_from_slice(numbers)?;
            return Ok(());
        }
        row.extend_from_slice(&numbers[..self.start])?;
        row.extend_from_slice(&numbers[self.end..])?;
        Ok(())
    }
}

/// The place of the first number from a place on that is not below a bound.
fn first_from(numbers: &[u32], start: usize, bound: u32) -> usize
    requires { start ≤ length numbers.now }
    ensures { result ≤ length numbers.now }
{
    let mut place = start;
    'below: while place < numbers.len() && numbers[place] < bound {
        place += 1;
    }
    place
}

/// Behind the numbers from a place on that the span has.
fn end_within(numbers: &[u32], start: usize, span: Span) -> usize
    requires { start ≤ length numbers.now }
    ensures bounds { (start ≤ result) × (result ≤ length numbers.now) }
    ensures within { (k : ℕ) → start ≤ k → k < result → IsWithin span (slice_index_or numbers.now k 0) }
{
    let mut place = start;
    'within: while place < numbers.len() && span.has(numbers[place]) {
        place += 1;
    }
    place
}

/// Whether the one span is this one.
fn covers(loops: &[Span], whole: Span) -> bool
    ensures { IsTrue result → loops.now ≡ whole ∷ [] }
{
    match loops {
        [only] => only.from == whole.from && only.to == whole.to,
        _ => false,
    }
}

/// Brings the numbers in order, each of them once.
fn sort_unique(set: &mut Vec<u32>)
    ensures rises { IsStrictlyIncreasing set.new.items }
    ensures members { (p : ℕ) → Contains set.new.items p ↔ Contains set.old.items p }
{
    if rises(set) {
        return;
    }
    set.sort_unstable();
    set.dedup();
}

/// Whether each number is above the one before it.
fn rises(numbers: &[u32]) -> bool
    ensures { IsTrue result → IsStrictlyIncreasing numbers.now }
{
    let mut place = 1;
    'rising: while place < numbers.len() {
        if numbers[place] <= numbers[place - 1] {
            return false;
        }
        place += 1;
    }
    true
}
