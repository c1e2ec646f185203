//! The components that redefine others without a reference to themselves.

ghost use Rattle.std.specs.Prelude.{◌≡◌, ◌++◌, false, IfOk, OnOk, slice_index_or};
ghost use Rattle.std.specs.Option.{option_to_list};
ghost use Rattle.representations.specs.Behind.{AreBehind};
ghost use Rattle.redefine_names.specs.Redefined as spec;
ghost use Rattle.redefine_names.specs.Numbers.{kind_numbers};
ghost use Rattle.redefine_names.specs.inside.Steps as steps;

use crate::marks::self_references;
use crate::numbers::kind_numbers;
use crate::{RedefinedPair, VersionKind};
use representations::Representation;
use set_representations::number_at;
use std::alloc::{AllocError, Global};

// Whether a place is marked.
fn is_marked(marks: &[bool], place: usize) -> bool
    ensures { result ≡ slice_index_or marks.now place false }
{
    match marks.get(place) {
        None => false,
        Some(mark) => *mark,
    }
}

// The pair of the component at a place, where it redefines another without a reference to itself.
fn pair_at(
    numbers: &[Option<u32>],
    marks: &[bool],
    version: usize,
    original: Option<u32>,
) -> Option<RedefinedPair>
    ensures { result ≡ steps.pair_at numbers.now marks.now version original }
{
    let original = original?;
    if is_marked(marks, version) {
        return None;
    }
    let own = number_at(numbers, version)?;
    let original = number_at(numbers, original as usize)?;
    Some(RedefinedPair { own, original })
}

// Puts a pair behind others, if there is one.
fn push_pair(pairs: &mut Vec<RedefinedPair>, pair: Option<RedefinedPair>) -> Result<(), AllocError>
    ensures { OnOk result (pairs.new.items ≡ pairs.old.items ++ option_to_list pair) }
{
    if let Some(pair) = pair {
        pairs.push(pair)?;
    }
    Ok(())
}

// The pairs of components of a kind, by their numbers and the marks of those that have a reference to themselves.
fn pairs_of(
    alloc: Global,
    numbers: &[Option<u32>],
    marks: &[bool],
    originals: &[Option<u32>],
) -> Result<Vec<RedefinedPair>, AllocError>
    ensures { IfOk result (λ pairs. pairs.items ≡ steps.pairs_of numbers.now marks.now 0 originals.now) }
{
    let mut pairs = Vec::new(alloc);
    for (version, original) in originals.iter().enumerate() {
        push_pair(&mut pairs, pair_at(numbers, marks, version, *original))?;
    }
    Ok(pairs)
}

/// The components of a kind that redefine others without a reference to themselves (Structures 4.2.2), with these, by their
/// numbers: a component's number is the count of those of its kind before it. Originals have names of their own
/// (`redefined_names`), which what redefines them refers to; `originals` has the place of the original of each representation.
///
/// # Errors
///
/// `AllocError` is want of memory, or of places.
pub fn redefined_pairs(
    alloc: Global,
    kind: VersionKind,
    reps: &[Representation],
    originals: &[Option<u32>],
) -> Result<Vec<RedefinedPair>, AllocError>
    requires behind { AreBehind reps.now }
    ensures pairs { IfOk result (λ pairs. spec.ArePairs reps.now originals.now (kind_numbers kind reps.now) pairs.items) }
{
    let marks = self_references(alloc, reps, originals)?;
    let numbers = kind_numbers(alloc, kind, reps)?;
    pairs_of(alloc, numbers.as_slice(), &marks, originals)
}
