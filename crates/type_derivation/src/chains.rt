ghost use Rattle.std.specs.Prelude.{◌≡◌, ◌↔◌, ◌⊎◌, ◌≤◌, IsTrue, IfOk, MatchOption, false};
ghost use Rattle.component_references.specs.Heights.{IsType};
ghost use Rattle.component_references.specs.Ranked.{IsRanked};
ghost use Rattle.xs_components.specs.declared.common.TypeId.{TypeId as TypeIdValue};
ghost use Rattle.component_tables.specs.Bases.{AreLinesOf, IsFree, line_at};
ghost use Rattle.type_derivation.specs.Chains.{Derives, DerivesFromMember};
ghost use Rattle.type_derivation.specs.inside.Along.{DerivesAlong, GoesUp};
ghost use Rattle.type_derivation.specs.Within as spec;

use crate::Within;
use crate::steps::above;
use component_tables::{BaseLine, BaseLines};
use std::alloc::{AllocError, Global};
use xs_components::{Components, Methods, TypeId};

impl Within {
    // Whether a type is the base, or within it where restriction is not excluded.
    fn is_met(&self, of: &TypeId, excluded: &Methods) -> bool
        ensures { IsTrue result ↔ ((of.now ≡ self.now.base) ⊎ ((excluded.now.restriction ≡ false) × spec.IsMarked self.now of.now)) }
    {
        if *of == self.base {
            return true;
        }
        if excluded.restriction {
            return false;
        }
        self.has(of)
    }

    /// Whether a type derives without any of these methods from the base within which these types are (Structures 3.4.6,
    /// 3.14.6).
    pub fn derives(&self, parts: &Components, sub: TypeId, excluded: &Methods) -> bool
        requires ranked { IsRanked parts.now }
        requires simple { spec.AreSimple parts.now }
        requires sub { IsType parts.now sub }
        requires within { spec.AreWithin parts.now self.now }
        ensures derives { IsTrue result ↔ Derives parts.now excluded.now sub self.now.base }
    {
        let mut at = sub;
        'up: loop {
            if self.is_met(&at, excluded) {
                return true;
            }
            match above(parts, excluded, &at) {
                None => return false,
                Some(next) => at = next,
            }
        }
    }

    // Whether a type other than the base is within it.
    fn is_inside(&self, of: &TypeId) -> bool
        ensures { IsTrue result ↔ ((of.now ≡ self.now.base → ⊥) × spec.IsMarked self.now of.now) }
    {
        *of != self.base && self.has(of)
    }

    // Whether a type derives from a member of the base, a union, within which these types are.
    fn derives_inside(&self, parts: &Components, sub: TypeId, excluded: &Methods) -> bool
        requires ranked { IsRanked parts.now }
        requires simple { spec.AreSimple parts.now }
        requires sub { IsType parts.now sub }
        requires within { spec.AreWithin parts.now self.now }
        requires free { excluded.now.restriction ≡ false }
        ensures derives { IsTrue result ↔ DerivesFromMember parts.now excluded.now sub self.now.base }
    {
        let mut at = sub;
        'up: loop {
            if self.is_inside(&at) {
                return true;
            }
            match above(parts, excluded, &at) {
                None => return false,
                Some(next) => at = next,
            }
        }
    }

    /// Whether a type derives without any of these methods from a restriction, without a name, of the base within which these types
    /// are: from a member of it, if that is a union (Structures 3.14.6).
    pub fn derives_from_member(&self, parts: &Components, sub: TypeId, excluded: &Methods) -> bool
        requires ranked { IsRanked parts.now }
        requires simple { spec.AreSimple parts.now }
        requires sub { IsType parts.now sub }
        requires within { spec.AreWithin parts.now self.now }
        ensures derives { IsTrue result ↔ DerivesFromMember parts.now excluded.now sub self.now.base }
    {
        if !excluded.restriction {
            return self.derives_inside(parts, sub, excluded);
        }
        false
    }
}

// Whether two lines are of one run.
fn is_one_run(line: &BaseLine, end: &BaseLine) -> bool
    ensures { IsTrue result ↔ (line.now.first ≡ end.now.first) }
{
    line.first() == end.first()
}

// Whether one line of a run is another or behind it, with no step between them by one of the methods.
fn is_reached(line: &BaseLine, end: &BaseLine, excluded: &Methods) -> bool
    ensures { IsTrue result ↔ ((end.now.rank ≤ line.now.rank) × IsFree line.now end.now.rank excluded.now) }
{
    line.is_within(end) && line.is_free_below(end, excluded)
}

// The type above the run of a type, where no step up to it is by one of the methods.
fn above_run(
    parts: &Components,
    bases: &BaseLines,
    excluded: &Methods,
    of: &TypeId,
) -> Option<TypeId>
    requires ranked { IsRanked parts.now }
    requires bases { AreLinesOf parts.now bases.now }
    requires there { IsType parts.now of.now }
    ensures up { (base : TypeIdValue) → ((line_at bases.now of.now).first ≡ (line_at bases.now base).first → ⊥) →
        MatchOption result (DerivesAlong parts.now excluded.now of.now base → ⊥) (λ next. GoesUp parts.now excluded.now of.now next base) }
{
    let line = bases.line(of);
    let first = line.first();
    let first_line = bases.line(&first);
    if line.is_free_below(&first_line, excluded) {
        above(parts, excluded, &first)
    } else {
        None
    }
}

// Whether a type derives from another along bases alone, each run of types at once.
fn derives_along(
    parts: &Components,
    bases: &BaseLines,
    sub: TypeId,
    base: &TypeId,
    excluded: &Methods,
) -> bool
    requires ranked { IsRanked parts.now }
    requires bases { AreLinesOf parts.now bases.now }
    requires sub { IsType parts.now sub }
    requires base { IsType parts.now base.now }
    ensures { IsTrue result ↔ DerivesAlong parts.now excluded.now sub base.now }
{
    let end = bases.line(base);
    let mut at = sub;
    'up: loop {
        let line = bases.line(&at);
        if is_one_run(&line, &end) {
            return is_reached(&line, &end, excluded);
        }
        match above_run(parts, bases, excluded, &at) {
            None => return false,
            Some(next) => at = next,
        }
    }
}

/// Whether a type derives from another without any of these methods (Structures 3.4.6, 3.14.6), where all types along their bases
/// are given.
///
/// # Errors
///
/// `AllocError` is want of memory.
pub fn derives(
    alloc: Global,
    parts: &Components,
    bases: &BaseLines,
    sub: TypeId,
    base: TypeId,
    excluded: &Methods,
) -> Result<bool, AllocError>
    requires ranked { IsRanked parts.now }
    requires simple { spec.AreSimple parts.now }
    requires bases { AreLinesOf parts.now bases.now }
    requires sub { IsType parts.now sub }
    requires base { IsType parts.now base }
    ensures derives { IfOk result (λ answer. IsTrue answer ↔ Derives parts.now excluded.now sub base) }
{
    if sub == base {
        return Ok(true);
    }
    if bases.line(&base).is_union() {
        let within = Within::of(alloc, parts, base)?;
        return Ok(within.derives(parts, sub, excluded));
    }
    Ok(derives_along(parts, bases, sub, &base, excluded))
}

/// Whether a type derives without any of these methods from a restriction, without a name, of another: from a member of that, if it
/// is a union (Structures 3.14.6).
///
/// # Errors
///
/// `AllocError` is want of memory.
pub fn derives_from_member(
    alloc: Global,
    parts: &Components,
    sub: TypeId,
    base: TypeId,
    excluded: &Methods,
) -> Result<bool, AllocError>
    requires ranked { IsRanked parts.now }
    requires simple { spec.AreSimple parts.now }
    requires sub { IsType parts.now sub }
    requires base { IsType parts.now base }
    ensures derives { IfOk result (λ answer. IsTrue answer ↔ DerivesFromMember parts.now excluded.now sub base) }
{
    let within = Within::of(alloc, parts, base)?;
    Ok(within.derives_from_member(parts, sub, excluded))
}
