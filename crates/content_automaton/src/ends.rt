//! In which states a word may end.

ghost use Rattle.std.specs.Prelude.{◌≡◌, ℕ, ◌<◌, ◌↔◌, ◌⊎◌, ◌==◌, false, map, length, slice_index_or, Contains, IsTrue, IfOk};
ghost use Rattle.content_automaton.specs.Built.{set_of};
ghost use Rattle.content_automaton.specs.Automaton.{MayEnd};

use particle_models::Unrolled;
use std::alloc::{AllocError, Global};

/// Whether there is a word.
pub(crate) fn has_word(form: &Unrolled) -> bool
    ensures { IsTrue result ↔ (IsTrue form.now.table.nullable ⊎ ((p : ℕ) × Contains form.now.table.first p)) }
{
    if form.first().is_empty() {
        return form.nullable();
    }
    true
}

/// For each state, whether a word may end in it.
pub(crate) fn ends_of(
    alloc: Global,
    form: &Unrolled,
    states: &[Vec<u32>],
) -> Result<Vec<bool>, AllocError>
    ensures ends { IfOk result (λ ends. (s : ℕ) → s < length states.now → IsTrue (slice_index_or ends.items s false) ↔ MayEnd form.now.table (s == 0) (set_of (map (λ state. state.items) states.now) s)) }
    ensures count { IfOk result (λ ends. length ends.items ≡ length states.now) }
{
    let mut ends = Vec::new(alloc);
    for (number, set) in states.iter().enumerate() {
        ends.push(may_end(form, set, number == 0))?;
    }
    Ok(ends)
}

/// Whether a word may end in some position of the set, or at the start with no name.
fn may_end(form: &Unrolled, set: &[u32], starts: bool) -> bool
    ensures { IsTrue result ↔ MayEnd form.now.table starts set.now }
{
    let empty = starts && form.nullable();
    empty || ends_in(form, set)
}

/// Whether a word may end in some position of the set.
fn ends_in(form: &Unrolled, set: &[u32]) -> bool
    ensures { IsTrue result ↔ ((p : ℕ) × Contains set.now p × Contains form.now.table.last p) }
{
    for p in set {
        if form.last().contains(p) {
            return true;
        }
    }
    false
}
