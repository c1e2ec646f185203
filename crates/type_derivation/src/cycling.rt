ghost use Rattle.std.specs.Prelude.{◌≡◌, None, All, IfOk, IfNone};
ghost use Rattle.xs_codes.specs.Least.{IsLeast};
ghost use Rattle.component_references.specs.Ranked.{IsRanked};
ghost use Rattle.component_references.specs.References.{IsClosed};
ghost use Rattle.component_references.specs.Circles.{Ranks, with_all_ranks};
ghost use Rattle.type_derivation.specs.Cycles as spec;
ghost use Rattle.type_derivation.specs.Filled as filled;
ghost use Rattle.type_derivation.specs.Particles.{AreContentsSet};

use crate::first_base;
use crate::setting::set_contents;
use component_references::rank_components;
use std::alloc::{AllocError, Global};
use xs_codes::{Fault, sooner};
use xs_components::Components;

/// The first circular definition or base of the wrong kind (Structures 3.3.6, 3.4.3, 3.4.6, 3.6.3, 3.8.6, 3.14.6), if there
/// is one. Else every component that refers to others has its height as its rank, by which every reference goes lower, and the particle of
/// each complex type's content is set (Structures 3.4.2); a sequence that it takes is added, for the types in the order of ranks, then of
/// numbers. No content may have been set before.
pub fn cycles(alloc: Global, parts: &mut Components) -> Result<Option<Fault>, AllocError>
    requires closed { IsClosed parts.old }
    requires none { All (λ content. content ≡ None) parts.old.contents }
    ensures least { IfOk result (IsLeast (spec.IsBroken parts.old)) }
    ensures ranked { IfOk result (λ found. IfNone found (IsRanked parts.new)) }
    ensures contents { IfOk result (λ found. IfNone found (AreContentsSet parts.new)) }
    ensures tables { IfOk result (λ found. (ranks : Ranks) × filled.IsAfter found (with_all_ranks parts.old ranks) parts.new) }
{
    let base = first_base(alloc, parts)?;
    let circle = rank_components(alloc, parts)?;
    match sooner(circle, base) {
        Some(fault) => Ok(Some(fault)),
        None => {
            set_contents(alloc, parts)?;
            Ok(None)
        },
    }
}
