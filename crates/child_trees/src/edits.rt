//! Changes of a list's tree together with the maps of its nodes.

ghost use Rattle.std.specs.Prelude.{◌≡◌, ℕ, ◌+◌, ◌-◌, ◌*◌, ◌^◌, ◌<◌, ◌≤◌, List, [], ◌∷◌, length, map, insert, remove, set, MatchOption, OnOk, All};
ghost use Rattle.std.specs.Option.{ForSome};
ghost use Rattle.leaf_trees.specs.Tree.{Tree, size, IsItemAt};
ghost use Rattle.leaf_trees.specs.Arena.{IsFreeSlot};
ghost use Rattle.child_trees.specs.Cells.{map_at, AddsSlots};
ghost use Rattle.child_trees.specs.Lists.{Entry, entry, AreEntries};
ghost use Rattle.child_trees.specs.Sums.{entries};
ghost use Rattle.child_trees.specs.Kept.{AreOfFree, IsKept, HasList, KeepsLists};

use crate::cells::Cells;
use crate::leaf::Leaf;
use crate::summary::Summary;
use crate::sums::{sum_along, write_leaves};
use leaf_trees::{Flags, Inserted, Trees};
use std::alloc::AllocError;
use xsv_steps::{Ledger, Steps};

/// Makes sure of so many free slots, and of a cell for each slot.
pub fn reserve<M: Summary>(
    trees: &mut Trees,
    cells: &mut Cells<M>,
    slots: u32,
) -> Result<(), AllocError>
    requires { length trees.old.nodes ≤ length cells.old.maps }
    ensures ok { OnOk result (slots ≤ trees.new.spare) }
    ensures in_use { length trees.new.nodes + trees.old.spare ≡ length trees.old.nodes + trees.new.spare }
    ensures lists { KeepsLists M.unit M.join cells.old trees.old.nodes cells.new trees.new.nodes (λ _. ⊥) }
    ensures cells { length trees.new.nodes ≤ length cells.new.maps }
{
    let missing = slots.saturating_sub(trees.spare());
    fill(cells, trees.nodes().len() + missing as usize)?;
    trees.reserve(slots)
}

/// Makes sure of so many cells.
fn fill<M: Summary>(cells: &mut Cells<M>, slots: usize) -> Result<(), AllocError>
    ensures ok { OnOk result (slots ≤ length cells.new.maps) }
    ensures cells { AddsSlots M.unit cells.old cells.new }
{
    'more: while cells.len() < slots {
        cells.add()?;
    }
    Ok(())
}

/// Makes a tree of one leaf for a list, and answers the leaf's item.
pub fn plant<M: Summary, L: Ledger>(
    trees: &mut Trees,
    cells: &mut Cells<M>,
    list: u32,
    leaf: Leaf<M::Letter>,
    source: &M::Source,
    steps: &mut Steps<L>,
) -> u32
    requires room { 1 ≤ trees.old.spare }
    requires cells { length trees.old.nodes ≤ length cells.old.maps }
    requires fits { ForSome leaf.letter (M.fits cells.old.shape source.now) }
    ensures fresh { IsFreeSlot trees.old.nodes result }
    ensures list { HasList M.unit M.join cells.new trees.new.nodes list result (entry (M.unit cells.old.shape) (M.leaf source.now) result leaf ∷ []) }
    ensures lists { KeepsLists M.unit M.join cells.old trees.old.nodes cells.new trees.new.nodes (λ _. ⊥) }
    ensures slots { (trees.new.spare + 1 ≡ trees.old.spare) × (length trees.new.nodes ≡ length trees.old.nodes) }
    ensures cells { length trees.new.nodes ≤ length cells.new.maps }
    ensures least { steps.old ≤ steps.new }
    ensures steps { steps.new ≤ steps.old + 1 }
{
    let item = trees.plant(list, leaf.flags());
    cells.set(item, leaf.letter, source, steps);
    item
}

/// Puts a leaf before a place of the tree below `top`.
pub fn insert_leaf<M: Summary, L: Ledger>(
    trees: &mut Trees,
    cells: &mut Cells<M>,
    top: u32,
    place: u32,
    leaf: Leaf<M::Letter>,
    source: &M::Source,
    steps: &mut Steps<L>,
) -> Inserted
    requires tree { (list : ℕ) × (t : Tree) × IsKept M.unit M.join cells.old trees.old.nodes list top t × (place ≤ size t) × (size t + 1 < 2 ^ 32) }
    requires room { 2 ≤ trees.old.spare }
    requires cells { length trees.old.nodes ≤ length cells.old.maps }
    requires fits { ForSome leaf.letter (M.fits cells.old.shape source.now) }
    ensures fresh { IsFreeSlot trees.old.nodes result.item }
    ensures list { (list : ℕ) (t : Tree) → IsKept M.unit M.join cells.old trees.old.nodes list top t → place ≤ size t
        → HasList M.unit M.join cells.new trees.new.nodes list result.top
        (insert (entries (map_at M.unit cells.old) t) place (entry (M.unit cells.old.shape) (M.leaf source.now) result.item leaf)) }
    ensures lists { (list : ℕ) (t : Tree) → IsKept M.unit M.join cells.old trees.old.nodes list top t → place ≤ size t
        → KeepsLists M.unit M.join cells.old trees.old.nodes cells.new trees.new.nodes (λ p. p ≡ list) }
    ensures slots { (trees.new.spare + 2 ≡ trees.old.spare) × (length trees.new.nodes ≡ length trees.old.nodes) }
    ensures cells { length trees.new.nodes ≤ length cells.new.maps }
    ensures least { steps.old ≤ steps.new }
    ensures steps { (list : ℕ) (t : Tree) → IsKept M.unit M.join cells.old trees.old.nodes list top t → place ≤ size t
        → (k : ℕ) → size t + 1 < 2 ^ k → steps.new ≤ steps.old + 4 * k }
{
    let inserted = trees.insert(top, place, leaf.flags());
    cells.set(inserted.item, leaf.letter, source, steps);
    sum_along(cells, trees.nodes(), inserted.top, place, steps);
    inserted
}

/// Takes the leaf at a place out of the tree below `top`, and answers the top of what is left.
pub fn remove_leaf<M: Summary, L: Ledger>(
    trees: &mut Trees,
    cells: &mut Cells<M>,
    top: u32,
    place: u32,
    steps: &mut Steps<L>,
) -> Option<u32>
    requires tree { (list : ℕ) × (t : Tree) × IsKept M.unit M.join cells.old trees.old.nodes list top t × (place < size t) }
    requires cells { length trees.old.nodes ≤ length cells.old.maps }
    ensures list { (list : ℕ) (t : Tree) → IsKept M.unit M.join cells.old trees.old.nodes list top t → place < size t
        → MatchOption result (remove (entries (map_at M.unit cells.old) t) place ≡ [])
        (λ rest. HasList M.unit M.join cells.new trees.new.nodes list rest (remove (entries (map_at M.unit cells.old) t) place)) }
    ensures lists { (list : ℕ) (t : Tree) → IsKept M.unit M.join cells.old trees.old.nodes list top t → place < size t
        → KeepsLists M.unit M.join cells.old trees.old.nodes cells.new trees.new.nodes (λ p. p ≡ list) }
    ensures slots { (list : ℕ) (t : Tree) → IsKept M.unit M.join cells.old trees.old.nodes list top t → place < size t
        → (trees.new.spare + (2 * (size t - 1) - 1) ≡ trees.old.spare + (2 * size t - 1)) × (length trees.new.nodes ≡ length trees.old.nodes) }
    ensures cells { length trees.new.nodes ≤ length cells.new.maps }
    ensures least { steps.old ≤ steps.new }
    ensures steps { (list : ℕ) (t : Tree) → IsKept M.unit M.join cells.old trees.old.nodes list top t → place < size t
        → (k : ℕ) → size t < 2 ^ k → steps.new ≤ steps.old + 4 * k }
{
    let rest = trees.remove(top, place)?;
    sum_along(cells, trees.nodes(), rest.top, rest.place, steps);
    Some(rest.top)
}

/// Writes a leaf in the place of an item of the tree below `top`.
pub fn write_leaf<M: Summary, L: Ledger>(
    trees: &mut Trees,
    cells: &mut Cells<M>,
    top: u32,
    place: u32,
    item: u32,
    leaf: Leaf<M::Letter>,
    source: &M::Source,
    steps: &mut Steps<L>,
)
    requires tree { (list : ℕ) × (t : Tree) × IsKept M.unit M.join cells.old trees.old.nodes list top t × IsItemAt t place item }
    requires cells { length trees.old.nodes ≤ length cells.old.maps }
    requires fits { ForSome leaf.letter (M.fits cells.old.shape source.now) }
    ensures list { (list : ℕ) (t : Tree) → IsKept M.unit M.join cells.old trees.old.nodes list top t → IsItemAt t place item
        → HasList M.unit M.join cells.new trees.new.nodes list top
        (set (entries (map_at M.unit cells.old) t) place (entry (M.unit cells.old.shape) (M.leaf source.now) item leaf)) }
    ensures lists { (list : ℕ) (t : Tree) → IsKept M.unit M.join cells.old trees.old.nodes list top t → IsItemAt t place item
        → KeepsLists M.unit M.join cells.old trees.old.nodes cells.new trees.new.nodes (λ p. p ≡ list) }
    ensures slots { (trees.new.spare ≡ trees.old.spare) × (length trees.new.nodes ≡ length trees.old.nodes) }
    ensures cells { length trees.new.nodes ≤ length cells.new.maps }
    ensures least { steps.old ≤ steps.new }
    ensures steps { (list : ℕ) (t : Tree) → IsKept M.unit M.join cells.old trees.old.nodes list top t → IsItemAt t place item
        → (k : ℕ) → size t < 2 ^ k → steps.new ≤ steps.old + 4 * k }
{
    trees.set_flags(top, place, leaf.flags());
    cells.set(item, leaf.letter, source, steps);
    sum_along(cells, trees.nodes(), top, place, steps);
}

/// Makes a balanced tree of these leaves for a list, and answers its top.
pub fn build_tree<M: Summary, L: Ledger>(
    trees: &mut Trees,
    cells: &mut Cells<M>,
    list: u32,
    leaves: &[Leaf<M::Letter>],
    flags: &[Flags],
    source: &M::Source,
    steps: &mut Steps<L>,
) -> u32
    requires some { 0 < length leaves.now }
    requires few { length leaves.now < 2 ^ 31 }
    requires flags { flags.now ≡ map (λ l. record { element = l.element; marked = l.marked }) leaves.now }
    requires room { 2 * length leaves.now ≤ trees.old.spare }
    requires cells { length trees.old.nodes ≤ length cells.old.maps }
    requires fits { All (λ l. ForSome l.letter (M.fits cells.old.shape source.now)) leaves.now }
    ensures list { (xs : List (Entry M.Map)) × AreEntries (M.unit cells.old.shape) (M.leaf source.now) leaves.now xs × AreOfFree trees.old.nodes xs × HasList M.unit M.join cells.new trees.new.nodes list result xs }
    ensures lists { KeepsLists M.unit M.join cells.old trees.old.nodes cells.new trees.new.nodes (λ _. ⊥) }
    ensures slots { (trees.new.spare + 2 * length leaves.now ≡ trees.old.spare + 1) × (length trees.new.nodes ≡ length trees.old.nodes) }
    ensures cells { length trees.new.nodes ≤ length cells.new.maps }
    ensures least { steps.old ≤ steps.new }
    ensures steps { steps.new ≤ steps.old + 2 * length leaves.now }
{
    let top = trees.build(list, flags);
    write_leaves(cells, trees.nodes(), top, leaves, source, steps);
    top
}
