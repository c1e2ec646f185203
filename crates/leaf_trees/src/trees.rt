//! The trees of many lists.

ghost use Rattle.std.specs.Prelude.{◌≡◌, ℕ, ◌+◌, ◌-◌, ◌*◌, ◌^◌, ◌<◌, ◌≤◌, List, [], length, map, insert, remove, set, slice_index, MatchOption, OnOk, OnErr, is_some, if◌then◌else◌};
ghost use Rattle.leaf_trees.specs.Tree.{Tree, leaf, size, leaves, leaves as leaves_of, items, item_of, flags_of, marked_items, elements_before, IsItemAt};
ghost use Rattle.leaf_trees.specs.Arena.{IsTreeOf, HasTree, IsFreeSlot, IsInUse};
ghost use Rattle.leaf_trees.specs.Slots.{Takes, Gives, Builds, Frees};
ghost use Rattle.leaf_trees.specs.Change.{KeepsOthers, KeepsAll, Changes, Makes, Grows};

use crate::link::link;
use crate::node::{Above, Flags, Node};
use crate::read::{elements_under, item_under, marked_under, spot_of};
use crate::whole::{flag_leaf, plant_leaf, put_leaf, set_above, take_leaf, write_leaf};
use std::alloc::{AllocError, Global};
use std::marker::Model;

/// Where an item lies.
#[derive(Clone, Copy)]
pub struct Spot {
    /// The number of its list.
    pub list: u32,
    pub place: u32,
}

/// What an insertion made.
#[derive(Clone, Copy)]
pub struct Inserted {
    /// The top of the list's tree.
    pub top: u32,
    /// The new item.
    pub item: u32,
}

/// What a removal left.
#[derive(Clone, Copy)]
pub struct Rest {
    /// The top of the list's tree.
    pub top: u32,
    /// A leaf beside the one that went: sums on the way to it, and beside that way, are to be made anew.
    pub place: u32,
}

/// Trees in one arena.
#[derive(Drop)]
pub struct Trees {
    nodes: Vec<Node>,
    /// The slot that came free last. Each free slot names the one before it.
    free: Option<u32>,
    /// How many slots are free.
    spare: u32,
}

impl Model for Trees {
    ghost use Rattle.leaf_trees.specs.Change.{Slots, AreFree};

    ghost Value = { Slots };

    ghost view = { λ s. record { nodes = s.nodes.items; spare = s.spare } };

    ghost invariant = { λ s. AreFree s.nodes.items s.free s.spare };
}

impl Trees {
    /// No slot yet.
    pub fn new(alloc: Global) -> Trees
        ensures { result ≡ record { nodes = []; spare = 0 } }
    {
        Trees {
            nodes: Vec::new(alloc),
            free: None,
            spare: 0,
        }
    }

    /// All slots, by number.
    pub fn nodes(&self) -> &[Node]
        ensures { result.now ≡ self.now.nodes }
    {
        self.nodes.as_slice()
    }

    /// How many slots are free.
    pub fn spare(&self) -> u32
        ensures { result ≡ self.now.spare }
    {
        self.spare
    }

    /// Makes sure of so many free slots. It makes no more slots than are missing.
    ///
    /// # Errors
    /// When memory runs out, or slot numbers do. There may be more free slots then, too.
    pub fn reserve(&mut self, slots: u32) -> Result<(), AllocError>
        ensures ok { OnOk result (slots ≤ self.new.spare) }
        ensures grows { Grows self.old.nodes self.new.nodes }
        ensures others { KeepsAll self.old.nodes self.new.nodes }
        ensures in_use { length self.new.nodes + self.old.spare ≡ length self.old.nodes + self.new.spare }
        ensures most { length self.new.nodes ≤ length self.old.nodes + (slots - self.old.spare) }
    {
        while self.spare < slots {
            self.grow()?;
        }
        Ok(())
    }

    /// Makes a tree of one leaf for a list, and answers the item.
    pub fn plant(&mut self, list: u32, flags: Flags) -> u32
        requires { 1 ≤ self.old.spare }
        ensures tree { Makes self.old.nodes self.new.nodes list result (leaf (item_of result flags)) }
        ensures spare { self.new.spare + 1 ≡ self.old.spare }
        ensures len { length self.new.nodes ≡ length self.old.nodes }
    {
        let item = self.take();
        plant_leaf(self.nodes.as_mut_slice(), item, list, flags);
        item
    }

    /// Makes a balanced tree of these leaves for a list, and answers its top.
    pub fn build(&mut self, list: u32, leaves: &[Flags]) -> u32
        requires some { 0 < length leaves.now }
        requires few { length leaves.now < 2 ^ 32 }
        requires spare { 2 * length leaves.now ≤ self.old.spare + 1 }
        ensures tree { (t : Tree) × Makes self.old.nodes self.new.nodes list result t × (map flags_of (leaves_of t) ≡ leaves.now) }
        ensures spare { self.new.spare + 2 * length leaves.now ≡ self.old.spare + 1 }
        ensures len { length self.new.nodes ≡ length self.old.nodes }
    {
        let top = self.build_part(leaves);
        set_above(self.nodes.as_mut_slice(), top, Above::Top(list));
        top
    }

    /// Puts an item before a place of the tree below `top`.
    pub fn insert(&mut self, top: u32, place: u32, flags: Flags) -> Inserted
        requires tree { (list : ℕ) × (t : Tree) × IsTreeOf self.old.nodes list top t × (place ≤ size t) × (size t + 1 < 2 ^ 32) }
        requires spare { 2 ≤ self.old.spare }
        ensures fresh { IsFreeSlot self.old.nodes result.item }
        ensures tree { (list : ℕ) (t : Tree) → IsTreeOf self.old.nodes list top t → place ≤ size t
            → Changes self.old.nodes self.new.nodes list t result.top place (insert (leaves t) place (item_of result.item flags)) }
        ensures spare { self.new.spare + 2 ≡ self.old.spare }
        ensures len { length self.new.nodes ≡ length self.old.nodes }
    {
        let item = self.take();
        let fork = self.take();
        let top = put_leaf(self.nodes.as_mut_slice(), top, place, fork, item, flags);
        Inserted { top, item }
    }

    /// Takes the item at a place out of the tree below `top`, and frees its slot and a fork's. Without another item, nothing is
    /// left.
    pub fn remove(&mut self, top: u32, place: u32) -> Option<Rest>
        requires { (list : ℕ) × (t : Tree) × IsTreeOf self.old.nodes list top t × (place < size t) }
        ensures tree { (list : ℕ) (t : Tree) → IsTreeOf self.old.nodes list top t → place < size t
            → MatchOption result ((size t ≡ 1) × KeepsOthers self.old.nodes self.new.nodes list)
            (λ rest. Changes self.old.nodes self.new.nodes list t rest.top rest.place (remove (leaves t) place)) }
        ensures spare { self.new.spare ≡ (if is_some result then self.old.spare + 2 else self.old.spare + 1) }
        ensures len { length self.new.nodes ≡ length self.old.nodes }
    {
        match take_leaf(self.nodes.as_mut_slice(), top, place) {
            None => {
                self.give(top);
                None
            }
            Some(cut) => {
                self.give(cut.fork);
                self.give(cut.item);
                Some(Rest {
                    top: cut.top,
                    place: cut.place,
                })
            }
        }
    }

    /// Gives the item at a place of the tree below `top` these flags.
    pub fn set_flags(&mut self, top: u32, place: u32, flags: Flags)
        requires { (list : ℕ) × (t : Tree) × IsTreeOf self.old.nodes list top t × (place < size t) }
        ensures tree { (list : ℕ) (t : Tree) → IsTreeOf self.old.nodes list top t → place < size t
            → Changes self.old.nodes self.new.nodes list t top place (set (leaves t) place (item_of (slice_index (items t) place) flags)) }
        ensures spare { self.new.spare ≡ self.old.spare }
        ensures len { length self.new.nodes ≡ length self.old.nodes }
    {
        flag_leaf(self.nodes.as_mut_slice(), top, place, flags);
    }

    /// Frees all slots of the tree below `top`.
    pub fn drop_tree(&mut self, top: u32)
        requires { (list : ℕ) × (t : Tree) × IsTreeOf self.old.nodes list top t }
        ensures others { (list : ℕ) (t : Tree) → IsTreeOf self.old.nodes list top t → KeepsOthers self.old.nodes self.new.nodes list }
        ensures spare { (list : ℕ) (t : Tree) → IsTreeOf self.old.nodes list top t → self.new.spare + 1 ≡ self.old.spare + 2 * size t }
        ensures len { length self.new.nodes ≡ length self.old.nodes }
    {
        self.free_under(top);
    }

    /// The list that an item is in, and its place there.
    pub fn spot(&self, item: u32) -> Spot
        requires { (list top place : ℕ) × (t : Tree) × IsTreeOf self.now.nodes list top t × IsItemAt t place item }
        ensures { (list top place : ℕ) (t : Tree) → IsTreeOf self.now.nodes list top t → IsItemAt t place item
            → result ≡ record { list = list; place = place } }
    {
        spot_of(self.nodes.as_slice(), item)
    }

    /// The item at a place of the tree below `top`.
    pub fn item_at(&self, top: u32, place: u32) -> u32
        requires { (list : ℕ) × (t : Tree) × IsTreeOf self.now.nodes list top t × (place < size t) }
        ensures { (list : ℕ) (t : Tree) → IsTreeOf self.now.nodes list top t → place < size t → IsItemAt t place result }
    {
        item_under(self.nodes.as_slice(), top, place)
    }

    /// The item of the marked leaf of this number, from 0 on, in the tree below `top`.
    pub fn nth_marked(&self, top: u32, number: u32) -> u32
        requires { (list : ℕ) × (t : Tree) × IsTreeOf self.now.nodes list top t × (number < length (marked_items t)) }
        ensures { (list : ℕ) (t : Tree) → IsTreeOf self.now.nodes list top t → number < length (marked_items t)
            → result ≡ slice_index (marked_items t) number }
    {
        marked_under(self.nodes.as_slice(), top, number)
    }

    /// How many leaves before a place of the tree below `top` are elements.
    pub fn elements_before(&self, top: u32, place: u32) -> u32
        requires { (list : ℕ) × (t : Tree) × IsTreeOf self.now.nodes list top t × (place ≤ size t) }
        ensures { (list : ℕ) (t : Tree) → IsTreeOf self.now.nodes list top t → place ≤ size t → result ≡ elements_before t place }
    {
        elements_under(self.nodes.as_slice(), top, place)
    }

    /// One more free slot.
    fn grow(&mut self) -> Result<(), AllocError>
        ensures ok { OnOk result (self.new.spare ≡ self.old.spare + 1) }
        ensures err { OnErr result (self.new ≡ self.old) }
        ensures grows { Grows self.old.nodes self.new.nodes }
        ensures balance { length self.new.nodes + self.old.spare ≡ length self.old.nodes + self.new.spare }
    {
        if self.nodes.len() >= u32::MAX as usize {
            return Err(AllocError);
        }
        let slot = self.nodes.len() as u32;
        self.nodes.push(Node::free(self.free))?;
        self.free = Some(slot);
        self.spare += 1;
        Ok(())
    }

    /// Takes a free slot, and leaves it as it is: the caller makes a node of it.
    fn take(&mut self) -> u32
        requires { 1 ≤ self.old.spare }
        ensures { Takes self.old self.new result }
    {
        let slot = self.free.unwrap();
        self.free = self.nodes[slot as usize].above.next_free();
        self.nodes[slot as usize].above = Above::Fork(slot);
        self.spare -= 1;
        slot
    }

    /// Frees a slot.
    fn give(&mut self, slot: u32)
        requires { IsInUse self.old.nodes slot }
        ensures { Gives self.old self.new slot }
    {
        self.nodes[slot as usize] = Node::free(self.free);
        self.free = Some(slot);
        self.spare += 1;
    }

    /// Makes a balanced tree of these leaves, and answers its top.
    fn build_part(&mut self, leaves: &[Flags]) -> u32
        requires some { 0 < length leaves.now }
        requires few { length leaves.now < 2 ^ 32 }
        requires spare { 2 * length leaves.now ≤ self.old.spare + 1 }
        ensures { Builds self.old self.new result leaves.now }
    {
        if leaves.len() == 1 {
            let item = self.take();
            write_leaf(self.nodes.as_mut_slice(), item, leaves[0]);
            return item;
        }
        let (front, back) = leaves.split_at(leaves.len() / 2);
        let left = self.build_part(front);
        let right = self.build_part(back);
        let fork = self.take();
        link(self.nodes.as_mut_slice(), fork, left, right);
        fork
    }

    /// Frees all slots of the tree below `top`.
    fn free_under(&mut self, top: u32)
        requires { (t : Tree) × HasTree self.old.nodes top t × IsInUse self.old.nodes top }
        ensures { (t : Tree) → HasTree self.old.nodes top t → Frees self.old self.new t }
    {
        let node = self.nodes[top as usize];
        if node.height == 0 {
            self.give(top);
            return;
        }
        self.free_under(node.left);
        self.free_under(node.right);
        self.give(top);
    }
}
