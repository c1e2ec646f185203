ghost use Rattle.std.specs.Prelude.{◌≡◌, ◌<◌, ◌^◌, length, IfOk};
ghost use Rattle.xs_codes.specs.Least.{IsLeast};
ghost use Rattle.schema_set.specs.EffectiveSet.{IsEffectiveSet};
ghost use Rattle.schema_set.specs.Order.{IsInOrder};
ghost use Rattle.schema_set.specs.Composition.{Broken};
ghost use Rattle.schema_set.specs.Sourced.{AreSources};

use crate::entries::entries;
use crate::faults::first_fault;
use crate::reaching::reach;
use crate::sources::Sources;
use crate::{Available, ClosedSet, EffectiveSet};
use std::alloc::{AllocError, Global};

// So many documents have numbers with their target namespaces.
const MOST: usize = 65535;

// The set that starts at a place, where it is known where locations and target namespaces lead.
fn close<'a>(sources: &Sources<'a>, start: u32) -> Result<ClosedSet<'a>, AllocError>
    requires sources { AreSources sources.now }
    requires place { start < length sources.now.available.now }
    ensures set { IfOk result (λ closed. IsEffectiveSet sources.now.available.now start closed.set.documents) }
    ensures order { IfOk result (λ closed. IsInOrder sources.now.available.now closed.set.documents) }
    ensures fault { IfOk result (λ closed. IsLeast (Broken sources.now.available.now start) closed.fault) }
{
    let seen = reach(sources, start)?;
    let documents = entries(sources.alloc, sources.available, &seen)?;
    match first_fault(sources, documents.as_slice()) {
        Ok(fault) => Ok(ClosedSet {
            set: EffectiveSet { documents },
            fault,
        }),
        Err(error) => Err(error),
    }
}

/// The documents that the one of the place `start` leads to by include, redefine and import (Structures 4.2), each with the target
/// namespaces that it has there, in the order of their numbers; and the least fault of what their includes, redefines and imports say
/// of others.
///
/// A location names the first document that lists it, and white space is collapsed before locations are compared. An import
/// whose location no document has loads nothing; an include or a redefine then breaks `x-location` and adds nothing.
///
/// # Errors
///
/// `AllocError` is want of memory, or of places: there are 65,535 documents at most.
pub fn close_set_from(
    alloc: Global,
    available: &[Available],
    start: u32,
) -> Result<ClosedSet<'_>, AllocError>
    requires place { start < length available.now }
    ensures set { IfOk result (λ closed. IsEffectiveSet available.now start closed.set.documents) }
    ensures order { IfOk result (λ closed. IsInOrder available.now closed.set.documents) }
    ensures fault { IfOk result (λ closed. IsLeast (Broken available.now start) closed.fault) }
{
    if available.len() > MOST {
        return Err(AllocError);
    }
    let sources = Sources::new(alloc, available)?;
    match close(&sources, start) {
        Ok(closed) => Ok(closed),
        Err(error) => Err(error),
    }
}
