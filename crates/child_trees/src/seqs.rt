//! Many lists under their numbers.

ghost use Rattle.std.specs.Prelude.{◌≡◌, ℕ, ◌+◌, ◌*◌, ◌^◌, ◌<◌, ◌≤◌, Bool, List, [], length, map, filter, take, drop, insert, remove, slice_get, slice_set, Option, Some, None, All, MatchOption, IfOk, OnErr, vec_len};
ghost use Rattle.std.specs.Option.{ForSome};
ghost use Rattle.child_trees.specs.Bits.{bits};
ghost use Rattle.child_trees.specs.Lists.{Entry, get, IsLive, IsUpTo, Updates, IsAt, HasItem, IsEntryOf, LiesOnce, entry, AreEntries, AreNew, items, acts_along, IsFirstDead, NoneIsDead, slots_used};

use crate::cells::Cells;
use crate::edits::{build_tree, insert_leaf, plant, remove_leaf, reserve, write_leaf};
use crate::find::find;
use crate::leaf::{ItemId, Leaf, SeqId, flags_of};
use crate::order::push_items;
use crate::summary::Summary;
use crate::tops::Tops;
use crate::walks::{first_dead, run_between};
use leaf_trees::Trees;
use std::alloc::{AllocError, Global};
use std::marker::Model;
use xsv_steps::{Ledger, Steps};

/// Slots, which hold the leaves of lists and the forks of their trees.
#[derive(Clone, Copy, Debug, PartialEq)]
pub struct Slots {
    /// How many there are. The number of every item is below it.
    pub count: usize,
    /// How many hold nothing. A list of `n` leaves takes `2 * n - 1` slots, an empty one none.
    pub free: usize,
}

/// Many lists of leaves, each seen under its number as its leaves with the maps that their sources gave their letters.
///
/// A call changes one list at most. An item keeps its number for as long as its leaf lies in the list, whatever becomes of the leaves around it.
#[derive(Drop)]
pub struct Seqs<M: Summary> {
    alloc: Global,
    cells: Cells<M>,
    trees: Trees,
    /// The top of each list's tree.
    tops: Tops,
}

impl<M: Summary> Model for Seqs<M> {
    ghost use Rattle.child_trees.specs.Lists.{Lists};

    ghost Value = { Lists M.Shape M.Map };

    ghost use Rattle.child_trees.specs.Cells.{map_at};
    ghost use Rattle.child_trees.specs.Kept.{lists_of, IsSound};

    ghost view = { λ s. record { shape = s.cells.shape; lists = lists_of (map_at M.unit s.cells) s.trees.nodes s.tops } };

    ghost invariant = { λ s. IsSound M.unit M.join s.cells s.trees.nodes s.trees.spare s.tops };
}

impl<M: Summary> Seqs<M> {
    /// No lists yet.
    pub fn new(alloc: Global, summary: M) -> Seqs<M>
        ensures { result ≡ record { shape = M.shape summary; lists = [] } }
    {
        Seqs {
            alloc,
            cells: Cells::new(alloc, summary),
            trees: Trees::new(alloc),
            tops: Tops::new(alloc),
        }
    }

    /// A new empty list.
    ///
    /// # Errors
    /// When memory runs out, or the numbers of lists do.
    pub fn new_seq(&mut self) -> Result<SeqId, AllocError>
        ensures fresh { IfOk result (λ q. ¬ IsLive self.old q) }
        ensures ok { IfOk result (λ q. Updates self.old self.new q (Some [])) }
        ensures err { OnErr result (self.new ≡ self.old) }
    {
        let number = self.tops.add()?;
        Ok(SeqId { number })
    }

    /// A new list of these leaves, in order. It takes at most two steps a leaf.
    ///
    /// # Errors
    /// When memory runs out, or the numbers of lists or items do. All lists are as before then.
    pub fn build<L: Ledger>(
        &mut self,
        leaves: Vec<Leaf<M::Letter>>,
        source: &M::Source,
        steps: &mut Steps<L>,
    ) -> Result<SeqId, AllocError>
        requires { All (λ l. ForSome l.letter (M.fits self.old.shape source.now)) leaves.items }
        ensures fresh { IfOk result (λ q. ¬ IsLive self.old q) }
        ensures ok { IfOk result (λ q. (xs : List (Entry M.Map)) × AreEntries (M.unit self.old.shape) (M.leaf source.now) leaves.items xs × AreNew self.old xs × Updates self.old self.new q (Some xs)) }
        ensures err { OnErr result (self.new ≡ self.old) }
        ensures least { steps.old ≤ steps.new }
        ensures steps { steps.new ≤ steps.old + 2 * vec_len leaves }
    {
        if leaves.len() > 0x7fff_ffff {
            return Err(AllocError);
        }
        let count = leaves.len() as u32;
        let flags = flags_of(self.alloc, leaves.as_slice())?;
        reserve(&mut self.trees, &mut self.cells, 2 * count)?;
        let number = self.tops.add()?;
        if count == 0 {
            return Ok(SeqId { number });
        }
        let top = build_tree(
            &mut self.trees,
            &mut self.cells,
            number,
            leaves.as_slice(),
            flags.as_slice(),
            source,
            steps,
        );
        self.tops.set(number, Some(top));
        Ok(SeqId { number })
    }

    /// Puts a leaf before a place of a list, or at its end.
    ///
    /// It takes at most `16 * (bits(n + 1) + 1)` steps, where the list then has `n` leaves, and `bits` is the number of binary digits.
    ///
    /// # Errors
    /// When memory runs out, or the numbers of items do. All lists are as before then.
    pub fn insert<L: Ledger>(
        &mut self,
        seq: SeqId,
        place: u32,
        leaf: Leaf<M::Letter>,
        source: &M::Source,
        steps: &mut Steps<L>,
    ) -> Result<ItemId, AllocError>
        requires live { IsLive self.old seq }
        requires place { IsUpTo self.old seq place }
        requires fits { ForSome leaf.letter (M.fits self.old.shape source.now) }
        ensures fresh { IfOk result (λ i. ¬ HasItem self.old i) }
        ensures ok { IfOk result (λ i. (xs : List (Entry M.Map)) → get self.old seq ≡ Some xs → Updates self.old self.new seq (Some (insert xs place (entry (M.unit self.old.shape) (M.leaf source.now) i leaf)))) }
        ensures err { OnErr result (self.new ≡ self.old) }
        ensures least { steps.old ≤ steps.new }
        ensures steps { (xs : List (Entry M.Map)) → get self.old seq ≡ Some xs → steps.new ≤ steps.old + 16 * (bits (length xs + 2) + 1) }
    {
        reserve(&mut self.trees, &mut self.cells, 2)?;
        match self.tops.top(seq.number) {
            None => {
                let number = plant(
                    &mut self.trees,
                    &mut self.cells,
                    seq.number,
                    leaf,
                    source,
                    steps,
                );
                self.tops.set(seq.number, Some(number));
                Ok(ItemId { number })
            }
            Some(top) => {
                if self.trees.nodes()[top as usize].counts.leaves == u32::MAX {
                    return Err(AllocError);
                }
                let inserted = insert_leaf(
                    &mut self.trees,
                    &mut self.cells,
                    top,
                    place,
                    leaf,
                    source,
                    steps,
                );
                self.tops.set(seq.number, Some(inserted.top));
                Ok(ItemId {
                    number: inserted.item,
                })
            }
        }
    }

    /// Takes a leaf out of its list. Its number may be given out again.
    ///
    /// It takes at most `16 * (bits(n + 1) + 1)` steps, where the list had `n` leaves.
    pub fn remove<L: Ledger>(&mut self, item: ItemId, steps: &mut Steps<L>)
        requires { HasItem self.old item }
        ensures change { (q p : ℕ) (xs : List (Entry M.Map)) → IsAt self.old item q p xs → Updates self.old self.new q (Some (remove xs p)) }
        ensures least { steps.old ≤ steps.new }
        ensures steps { (q p : ℕ) (xs : List (Entry M.Map)) → IsAt self.old item q p xs → steps.new ≤ steps.old + 16 * (bits (length xs + 1) + 1) }
    {
        let at = find(&self.trees, &self.tops, item.number);
        let rest = remove_leaf(&mut self.trees, &mut self.cells, at.top, at.place, steps);
        self.tops.set(at.list, rest);
    }

    /// Writes another leaf in an item's place. The item keeps its number.
    ///
    /// It takes at most `16 * (bits(n + 1) + 1)` steps, where the list has `n` leaves.
    pub fn update<L: Ledger>(
        &mut self,
        item: ItemId,
        leaf: Leaf<M::Letter>,
        source: &M::Source,
        steps: &mut Steps<L>,
    )
        requires item { HasItem self.old item }
        requires fits { ForSome leaf.letter (M.fits self.old.shape source.now) }
        ensures change { (q p : ℕ) (xs : List (Entry M.Map)) → IsAt self.old item q p xs → Updates self.old self.new q (Some (slice_set xs p (entry (M.unit self.old.shape) (M.leaf source.now) item leaf))) }
        ensures least { steps.old ≤ steps.new }
        ensures steps { (q p : ℕ) (xs : List (Entry M.Map)) → IsAt self.old item q p xs → steps.new ≤ steps.old + 16 * (bits (length xs + 1) + 1) }
    {
        let at = find(&self.trees, &self.tops, item.number);
        write_leaf(
            &mut self.trees,
            &mut self.cells,
            at.top,
            at.place,
            item.number,
            leaf,
            source,
            steps,
        );
    }

    /// Gives a list back, and the cells of its leaves for other lists to use. Its number, and those of its items, may be given out again.
    pub fn drop_seq(&mut self, seq: SeqId)
        requires { IsLive self.old seq }
        ensures { Updates self.old self.new seq None }
    {
        let top = self.tops.top(seq.number);
        self.tops.give(seq.number);
        if let Some(top) = top {
            self.trees.drop_tree(top);
        }
    }

    /// How many slots there are, and how many of them are free. Slots that leaves gave back are taken again before new ones are
    /// made.
    pub fn slots(&self) -> Slots
        ensures items { (i : ℕ) → HasItem self.now i → i < result.count }
        ensures used { result.count ≡ result.free + slots_used self.now }
    {
        Slots {
            count: self.trees.nodes().len(),
            free: self.trees.spare() as usize,
        }
    }

    /// The place of an item in its list. It lies at no other place, and in no other list.
    pub fn place_of(&self, item: ItemId) -> u32
        requires { HasItem self.now item }
        ensures place { (q p : ℕ) (xs : List (Entry M.Map)) → IsAt self.now item q p xs → result ≡ p }
        ensures once { LiesOnce self.now item }
    {
        find(&self.trees, &self.tops, item.number).place
    }

    /// The item at a place, or none past the end.
    pub fn at(&self, seq: SeqId, place: u32) -> Option<ItemId>
        requires { IsLive self.now seq }
        ensures { (xs : List (Entry M.Map)) → get self.now seq ≡ Some xs → result ≡ slice_get (items xs) place }
    {
        let top = self.tops.top(seq.number)?;
        if place < self.trees.nodes()[top as usize].counts.leaves {
            let number = self.trees.item_at(top, place);
            Some(ItemId { number })
        } else {
            None
        }
    }

    /// The items of a list, in order. Each leaf and each fork of its tree is come to once, so it takes work in proportion to the leaves.
    ///
    /// # Errors
    /// When memory runs out.
    pub fn items(&self, seq: SeqId) -> Result<Vec<ItemId>, AllocError>
        requires { IsLive self.now seq }
        ensures { (xs : List (Entry M.Map)) → get self.now seq ≡ Some xs → IfOk result (λ found. found.items ≡ items xs) }
    {
        match self.tops.top(seq.number) {
            None => Ok(Vec::new(self.alloc)),
            Some(top) => {
                let count = self.trees.nodes()[top as usize].counts.leaves;
                let mut found = Vec::with_capacity(self.alloc, count as usize)?;
                push_items(self.trees.nodes(), top, &mut found)?;
                Ok(found)
            }
        }
    }

    /// The state after the leaf of an item alone. It takes one step at most.
    pub fn act<L: Ledger>(&self, item: ItemId, state: M::State, steps: &mut Steps<L>) -> M::State
        requires item { HasItem self.now item }
        requires state { M.is_state self.now.shape state }
        ensures value { (e : Entry M.Map) → IsEntryOf self.now item e → result ≡ M.acts e.act state }
        ensures state { M.is_state self.now.shape result }
        ensures least { steps.old ≤ steps.new }
        ensures steps { steps.new ≤ steps.old + 1 }
    {
        self.cells.act(item.number, state, steps)
    }

    /// The item of a marked leaf, by its number among the marked leaves of the list, from 0, or none past the last.
    pub fn nth_marked(&self, seq: SeqId, k: u32) -> Option<ItemId>
        requires { IsLive self.now seq }
        ensures { (xs : List (Entry M.Map)) → get self.now seq ≡ Some xs → result ≡ slice_get (items (filter (λ e. e.marked) xs)) k }
    {
        let top = self.tops.top(seq.number)?;
        if k < self.trees.nodes()[top as usize].counts.marked {
            let number = self.trees.nth_marked(top, k);
            Some(ItemId { number })
        } else {
            None
        }
    }

    /// How many leaves before a place are elements.
    pub fn elements_upto(&self, seq: SeqId, place: u32) -> u32
        requires live { IsLive self.now seq }
        requires place { IsUpTo self.now seq place }
        ensures { (xs : List (Entry M.Map)) → get self.now seq ≡ Some xs → result ≡ length (filter (λ e. e.element) (take place xs)) }
    {
        match self.tops.top(seq.number) {
            None => 0,
            Some(top) => self.trees.elements_before(top, place),
        }
    }

    /// The state after all leaves of a list. It takes one step at most, and none where the list is empty.
    pub fn whole<L: Ledger>(&self, seq: SeqId, state: M::State, steps: &mut Steps<L>) -> M::State
        requires live { IsLive self.now seq }
        requires state { M.is_state self.now.shape state }
        ensures value { (xs : List (Entry M.Map)) → get self.now seq ≡ Some xs → result ≡ acts_along M.acts state xs }
        ensures state { M.is_state self.now.shape result }
        ensures least { steps.old ≤ steps.new }
        ensures steps { steps.new ≤ steps.old + 1 }
        ensures none { get self.now seq ≡ Some [] → steps.new ≡ steps.old }
    {
        match self.tops.top(seq.number) {
            None => state,
            Some(top) => self.cells.act(top, state, steps),
        }
    }

    /// The state after all leaves before an item. It takes at most `8 * (bits(n + 1) + 1)` steps in a list of `n` leaves.
    pub fn prefix<L: Ledger>(&self, item: ItemId, state: M::State, steps: &mut Steps<L>) -> M::State
        requires item { HasItem self.now item }
        requires state { M.is_state self.now.shape state }
        ensures value { (q p : ℕ) (xs : List (Entry M.Map)) → IsAt self.now item q p xs → result ≡ acts_along M.acts state (take p xs) }
        ensures state { M.is_state self.now.shape result }
        ensures least { steps.old ≤ steps.new }
        ensures steps { (q p : ℕ) (xs : List (Entry M.Map)) → IsAt self.now item q p xs → steps.new ≤ steps.old + 8 * (bits (length xs + 1) + 1) }
    {
        let at = find(&self.trees, &self.tops, item.number);
        let list = SeqId { number: at.list };
        self.upto(list, at.place, state, steps)
    }

    /// The state after all leaves before a place. It takes at most `8 * (bits(n + 1) + 1)` steps in a list of `n` leaves.
    pub fn upto<L: Ledger>(
        &self,
        seq: SeqId,
        place: u32,
        state: M::State,
        steps: &mut Steps<L>,
    ) -> M::State
        requires live { IsLive self.now seq }
        requires place { IsUpTo self.now seq place }
        requires state { M.is_state self.now.shape state }
        ensures value { (xs : List (Entry M.Map)) → get self.now seq ≡ Some xs → result ≡ acts_along M.acts state (take place xs) }
        ensures state { M.is_state self.now.shape result }
        ensures least { steps.old ≤ steps.new }
        ensures steps { (xs : List (Entry M.Map)) → get self.now seq ≡ Some xs → steps.new ≤ steps.old + 8 * (bits (length xs + 1) + 1) }
    {
        self.between(seq, 0, place, state, steps)
    }

    /// The state after the leaves from a place on. It takes at most `8 * (bits(n + 1) + 1)` steps in a list of `n` leaves.
    pub fn from<L: Ledger>(
        &self,
        seq: SeqId,
        place: u32,
        state: M::State,
        steps: &mut Steps<L>,
    ) -> M::State
        requires live { IsLive self.now seq }
        requires place { IsUpTo self.now seq place }
        requires state { M.is_state self.now.shape state }
        ensures value { (xs : List (Entry M.Map)) → get self.now seq ≡ Some xs → result ≡ acts_along M.acts state (drop place xs) }
        ensures state { M.is_state self.now.shape result }
        ensures least { steps.old ≤ steps.new }
        ensures steps { (xs : List (Entry M.Map)) → get self.now seq ≡ Some xs → steps.new ≤ steps.old + 8 * (bits (length xs + 1) + 1) }
    {
        self.between(seq, place, u32::MAX, state, steps)
    }

    /// The first place through which the leaves lead to a dead state, or none where they lead to no dead state.
    ///
    /// It takes at most `8 * (bits(n + 1) + 1)` steps in a list of `n` leaves.
    pub fn descend<L: Ledger>(
        &self,
        seq: SeqId,
        state: M::State,
        steps: &mut Steps<L>,
    ) -> Option<u32>
        requires live { IsLive self.now seq }
        requires state { M.is_state self.now.shape state }
        ensures place { (xs : List (Entry M.Map)) → get self.now seq ≡ Some xs → MatchOption result (NoneIsDead M.acts (M.is_dead self.now.shape) state xs) (IsFirstDead M.acts (M.is_dead self.now.shape) state xs) }
        ensures least { steps.old ≤ steps.new }
        ensures steps { (xs : List (Entry M.Map)) → get self.now seq ≡ Some xs → steps.new ≤ steps.old + 8 * (bits (length xs + 1) + 1) }
    {
        let top = self.tops.top(seq.number)?;
        let after = self.cells.act(top, state, steps);
        if self.cells.dead(after) {
            Some(first_dead(&self.cells, self.trees.nodes(), top, state, steps))
        } else {
            None
        }
    }

    /// The state after the leaves of a list from a place on, up to another place.
    fn between<L: Ledger>(
        &self,
        seq: SeqId,
        from: u32,
        to: u32,
        state: M::State,
        steps: &mut Steps<L>,
    ) -> M::State
        requires live { IsLive self.now seq }
        requires state { M.is_state self.now.shape state }
        ensures value { (xs : List (Entry M.Map)) → get self.now seq ≡ Some xs → result ≡ acts_along M.acts state (drop from (take to xs)) }
        ensures state { M.is_state self.now.shape result }
        ensures few { (xs : List (Entry M.Map)) → get self.now seq ≡ Some xs → length xs < 2 ^ 32 }
        ensures least { steps.old ≤ steps.new }
        ensures steps { (xs : List (Entry M.Map)) → get self.now seq ≡ Some xs → steps.new ≤ steps.old + 8 * (bits (length xs + 1) + 1) }
    {
        match self.tops.top(seq.number) {
            None => state,
            Some(top) => run_between(&self.cells, self.trees.nodes(), top, from, to, state, steps),
        }
    }
}
