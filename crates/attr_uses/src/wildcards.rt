//! Wildcards that are kept, and two made one.

ghost use Rattle.std.specs.Prelude.{◌≡◌, ◌<◌, Option, Some, length, slice_get, IfOk};
ghost use Rattle.std.specs.Option.{option_map};
ghost use Rattle.xs_components.specs.declared.namespace_constraint.NsConstraint.{NsConstraint};
ghost use Rattle.xs_components.specs.declared.common.Wildcard.{Wildcard};
ghost use Rattle.attr_uses.specs.Wildcards.{joined_wildcard, admitting};
ghost use Rattle.attr_uses.specs.Tables.{IsWildcard, kept_wildcard, IsKeptWildcard};
ghost use Rattle.attr_uses.specs.inside.Kept.{Keeps, join_of, SameSet, IsFound, IsForm};

use crate::store::Store;
use std::alloc::{AllocError, Global};
use xs_components::{NsConstraint, Wildcard};

// How the namespaces of two wildcards are made one.
#[derive(Clone, Copy)]
pub(crate) enum Joining {
    Intersection,
    Union,
}

impl Joining {
    // The constraint of two, if there is one.
    fn namespaces(
        self,
        alloc: Global,
        one: &NsConstraint,
        other: &NsConstraint,
    ) -> Result<Option<NsConstraint>, AllocError>
        ensures joined { (x y : NsConstraint) → SameSet one.now x → SameSet other.now y → IfOk result (λ found. IsFound found (join_of self x y)) }
    {
        match self {
            Joining::Intersection => one.intersect(alloc, other),
            Joining::Union => one.unite(alloc, other),
        }
    }
}

impl Store {
    // Keeps a wildcard, if there is one.
    pub(crate) fn keep(&mut self, wildcard: Option<Wildcard>) -> Result<Option<u32>, AllocError>
        ensures kept { IfOk result (λ kept. Keeps self.old self.new × IsKeptWildcard self.new.wildcards kept × (kept_wildcard self.new.wildcards kept ≡ wildcard)) }
    {
        let wildcard = match wildcard {
            Some(wildcard) => wildcard,
            None => return Ok(None),
        };
        let number = self.wildcards.len();
        if number >= u32::MAX as usize {
            return Err(AllocError);
        }
        self.wildcards.push(wildcard)?;
        Ok(Some(number as u32))
    }

    // Two wildcards, either of which may be absent, made one, with the processContents of the first; None where that has no form.
    pub(crate) fn joined(
        &mut self,
        alloc: Global,
        how: Joining,
        one: Option<u32>,
        other: Option<u32>,
    ) -> Result<Option<Option<u32>>, AllocError>
        requires one { IsKeptWildcard self.old.wildcards one }
        requires other { IsKeptWildcard self.old.wildcards other }
        ensures joined { (x y : Option Wildcard) → IsWildcard (kept_wildcard self.old.wildcards one) x → IsWildcard (kept_wildcard self.old.wildcards other) y
            → IfOk result (λ made. Keeps self.old self.new × IsForm self.new.wildcards made (joined_wildcard (join_of how) x y)) }
    {
        match (one, other) {
            (None, _) => Ok(Some(other)),
            (Some(_), None) => Ok(Some(one)),
            (Some(first), Some(second)) => match self.both(alloc, how, first, second)? {
                Some(both) => {
                    let kept = self.keep(Some(both))?;
                    Ok(Some(kept))
                }
                None => Ok(None),
            },
        }
    }

    // The wildcard of two, if there is one.
    fn both(
        &self,
        alloc: Global,
        how: Joining,
        first: u32,
        second: u32,
    ) -> Result<Option<Wildcard>, AllocError>
        requires first { first < length self.now.wildcards }
        requires second { second < length self.now.wildcards }
        ensures both { (x y : Wildcard) → IsWildcard (slice_get self.now.wildcards first) (Some x) → IsWildcard (slice_get self.now.wildcards second) (Some y)
            → IfOk result (λ found. IsWildcard found (option_map (admitting x) (join_of how x.namespaces y.namespaces))) }
    {
        let kept = self.wildcards.as_slice();
        let one = &kept[first as usize];
        let other = &kept[second as usize];
        match how.namespaces(alloc, &one.namespaces, &other.namespaces)? {
            Some(namespaces) => Ok(Some(Wildcard {
                namespaces,
                process: one.process,
            })),
            None => Ok(None),
        }
    }
}
