ghost use Rattle.std.specs.Prelude.{◌≡◌, ◌||◌, ℕ, nat_eq, slice_index_or, if◌then◌else◌, Some, None, IfOk, OnOk};
ghost use Rattle.std.specs.HashSet.{contains};
ghost use Rattle.xs_codes.specs.Least.{IsLeast};
ghost use Rattle.redefine_names.specs.Shared as spec;
ghost use Rattle.redefine_names.specs.inside.Met as inside;

use representations::Representation;
use std::alloc::{AllocError, Global};
use std::collections::HashSet;
use xs_codes::{Code, Fault, sooner};
use xs_components::Place;

// The phase of compiling that looks at names.
const PHASE: u8 = 3;

// The original of the component at a place, if it has one.
fn original_at(originals: &[Option<u32>], place: usize) -> Option<u32>
    ensures { result ≡ slice_index_or originals.now place None }
{
    match originals.get(place) {
        Some(original) => *original,
        None => None,
    }
}

// Puts an original to those that were met, and answers whether it was among them.
fn meet(met: &mut HashSet<u32>, original: Option<u32>) -> Result<bool, AllocError>
    ensures again { IfOk result (λ again. again ≡ inside.was_met (contains nat_eq met.old) original) }
    ensures met { OnOk result ((o : ℕ) → contains nat_eq met.new o ≡ (contains nat_eq met.old o || spec.is_original o original)) }
{
    match original {
        None => Ok(false),
        Some(original) => {
            let added = met.insert(original)?;
            Ok(!added)
        },
    }
}

// The fault at a place, if there is one.
fn fault_if(broken: bool, at: Place) -> Option<Fault>
    ensures { result ≡ (if broken then Some (spec.shared_fault at) else None) }
{
    if broken {
        Some(Fault {
            phase: PHASE,
            document: at.document,
            item: at.item,
            code: Code::SchPropsCorrect2,
        })
    } else {
        None
    }
}

/// The first fault of two redefining components that have one original (Structures 3.15.6): by document, then element. The later of
/// the two is named. The original of each representation that redefines a component comes by its place.
///
/// # Errors
///
/// `AllocError` is want of memory.
pub fn first_shared(
    alloc: Global,
    reps: &[Representation],
    originals: &[Option<u32>],
) -> Result<Option<Fault>, AllocError>
    ensures least { IfOk result (IsLeast (spec.IsShared reps.now originals.now)) }
{
    let mut met = HashSet::new(alloc);
    let mut best = None;
    for (place, rep) in reps.iter().enumerate() {
        let shared = meet(&mut met, original_at(originals, place))?;
        best = sooner(best, fault_if(shared, rep.at));
    }
    Ok(best)
}
