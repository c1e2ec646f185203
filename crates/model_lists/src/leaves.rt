//! Leaves at places of a list, whatever its summary.

ghost use Rattle.std.specs.Prelude.{◌≡◌, ◌+◌, ◌*◌, ◌<◌, ◌≤◌, ℕ, true, List, Some, length, map, remove, slice_get, slice_set};
ghost use Rattle.std.specs.Option.{ForSome};
ghost use Rattle.child_trees.specs.Bits.{bits};
ghost use Rattle.child_trees.specs.Lists.{Entry, IsLive, get, Updates, entry};
ghost use Rattle.model_lists.specs.Lists.{places_from};

use child_trees::{Leaf, SeqId, Seqs, Summary};
use xsv_steps::{Ledger, Steps};

/// Takes the leaf at a place out of a list.
pub(crate) fn remove_at<M: Summary, L: Ledger>(
    seqs: &mut Seqs<M>,
    list: SeqId,
    place: u32,
    steps: &mut Steps<L>,
)
    requires { (xs : List (Entry M.Map)) × (get seqs.old list ≡ Some xs) × (place < length xs) }
    ensures change { (xs : List (Entry M.Map)) → get seqs.old list ≡ Some xs → Updates seqs.old seqs.new list (Some (remove xs place)) }
    ensures least { steps.old ≤ steps.new }
    ensures steps { (xs : List (Entry M.Map)) → get seqs.old list ≡ Some xs → steps.new ≤ steps.old + 16 * (bits (length xs + 1) + 1) }
{
    let Some(item) = seqs.at(list, place) else {
        return;
    };
    seqs.remove(item, steps);
}

/// Writes a leaf in the place of another.
pub(crate) fn set_at<M: Summary, L: Ledger>(
    seqs: &mut Seqs<M>,
    list: SeqId,
    place: u32,
    leaf: Leaf<M::Letter>,
    source: &M::Source,
    steps: &mut Steps<L>,
)
    requires list { (xs : List (Entry M.Map)) × (get seqs.old list ≡ Some xs) × (place < length xs) }
    requires fits { ForSome leaf.letter (M.fits seqs.old.shape source.now) }
    ensures change { (xs : List (Entry M.Map)) → get seqs.old list ≡ Some xs → (item : ℕ) × Updates seqs.old seqs.new list (Some (slice_set xs place (entry (M.unit seqs.old.shape) (M.leaf source.now) item leaf))) }
    ensures least { steps.old ≤ steps.new }
    ensures steps { (xs : List (Entry M.Map)) → get seqs.old list ≡ Some xs → steps.new ≤ steps.old + 16 * (bits (length xs + 1) + 1) }
{
    let Some(item) = seqs.at(list, place) else {
        return;
    };
    seqs.update(item, leaf, source, steps);
}

/// The place of a marked leaf, by its number among the marked leaves of the list, from 0, or none past the last.
pub(crate) fn marked_place<M: Summary>(seqs: &Seqs<M>, list: SeqId, number: u32) -> Option<u32>
    requires { IsLive seqs.now list }
    ensures { (xs : List (Entry M.Map)) → get seqs.now list ≡ Some xs → result ≡ slice_get (places_from 0 (map (λ e. e.marked) xs)) number }
{
    let item = seqs.nth_marked(list, number)?;
    Some(seqs.place_of(item))
}

/// The leaf of a child element.
pub(crate) fn leaf_with<T>(letter: T, marked: bool) -> Leaf<T>
    ensures { result ≡ record { letter = Some letter; element = true; marked = marked } }
{
    Leaf {
        letter: Some(letter),
        element: true,
        marked,
    }
}
