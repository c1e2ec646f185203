//! Terms that the names of a state end in.

ghost use Rattle.std.specs.Prelude.{◌≡◌, ℕ, ◌<◌, None, map, length, slice_index_or, All, IfOk, MatchOption};
ghost use Rattle.content_automaton.specs.Built.{set_of};
ghost use Rattle.content_automaton.specs.Moves.{term_in, IsOfOneTerm, HasTerms};

use particle_models::Unrolled;
use std::alloc::{AllocError, Global};

/// For each state, the term of its first position.
pub(crate) fn terms_of(
    alloc: Global,
    form: &Unrolled,
    states: &[Vec<u32>],
) -> Result<Vec<Option<u32>>, AllocError>
    requires { (s : ℕ) → s < length states.now → All (λ p. p < length form.now.table.symbols) (set_of (map (λ state. state.items) states.now) s) }
    ensures terms { IfOk result (λ terms. (s : ℕ) → s < length states.now → slice_index_or terms.items s None ≡ term_in form.now.table (set_of (map (λ state. state.items) states.now) s)) }
    ensures count { IfOk result (λ terms. length terms.items ≡ length states.now) }
{
    let mut terms = Vec::new(alloc);
    for set in states {
        terms.push(first_term(form, set))?;
    }
    Ok(terms)
}

/// The term of the first position.
fn first_term(form: &Unrolled, set: &[u32]) -> Option<u32>
    requires { All (λ p. p < length form.now.table.symbols) set.now }
    ensures { result ≡ term_in form.now.table set.now }
{
    let first = set.first()?;
    Some(form.term_of(*first))
}

/// Two terms with positions in one set.
pub(crate) fn two_terms_of_one(form: &Unrolled, sets: &[Vec<u32>]) -> Option<(u32, u32)>
    requires { (s : ℕ) → s < length sets.now → All (λ p. p < length form.now.table.symbols) (set_of (map (λ set. set.items) sets.now) s) }
    ensures { MatchOption result
        ((s : ℕ) → s < length sets.now → IsOfOneTerm form.now.table (set_of (map (λ set. set.items) sets.now) s))
        (λ pair. (s : ℕ) × (s < length sets.now) × HasTerms form.now.table (set_of (map (λ set. set.items) sets.now) s) pair.0 pair.1) }
{
    for set in sets {
        if let Some(pair) = two_terms(form, set) {
            return Some(pair);
        }
    }
    None
}

/// Two terms with positions in the set.
fn two_terms(form: &Unrolled, set: &[u32]) -> Option<(u32, u32)>
    requires { All (λ p. p < length form.now.table.symbols) set.now }
    ensures { MatchOption result (IsOfOneTerm form.now.table set.now) (λ pair. HasTerms form.now.table set.now pair.0 pair.1) }
{
    let Some(first) = set.first() else {
        return None;
    };
    let term = form.term_of(*first);
    for p in set {
        let other = form.term_of(*p);
        if other != term {
            return Some((term, other));
        }
    }
    None
}
