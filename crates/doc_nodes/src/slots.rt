//! The nodes in a slab, each found by its number.

ghost use Rattle.std.specs.Prelude.{◌≡◌, ◌≢◌, ℕ, ◌+◌, ◌-◌, ◌^◌, ◌<◌, ◌≤◌, ◌++◌, ◌∷◌, [], length, take, None, Some, IfOk, OnOk, OnErr};
ghost use Rattle.std.specs.Option.{option_copied};

use crate::Content;
use child_trees::{ItemId, SeqId};
use slab::Slab;
use std::alloc::{AllocError, Global};
use std::marker::Model;

/// Where a node hangs: the number of its parent, and its item in the parent's list.
#[derive(Clone, Copy)]
pub struct Hook {
    pub parent: u32,
    pub item: ItemId,
}

/// A node, with its number and the list of its children, of which there are `count`.
#[derive(Drop)]
pub struct Slot {
    pub number: u32,
    /// `None` for the root.
    pub hook: Option<Hook>,
    pub depth: u32,
    pub list: SeqId,
    pub count: u32,
    pub content: Content,
}

/// What a node is to its children: their list, how many there are, and how deep the node stands.
#[derive(Clone, Copy)]
pub struct Owner {
    pub list: SeqId,
    pub depth: u32,
    pub count: u32,
}

/// The nodes by number. Contracts see the node of each number that was given out, and how many more nodes there is room for.
#[derive(Drop)]
pub struct Slots {
    keys: Vec<Option<usize>>,
    slab: Slab<Slot>,
}

impl Model for Slots {
    ghost use Rattle.doc_nodes.specs.Slots.{Held, held_of, AreKept};

    ghost Value = { Held };

    ghost view = { λ s. held_of s.keys.items s.slab };

    ghost invariant = { λ s. AreKept s.keys.items s.slab };
}

impl Slots {
    ghost use Rattle.doc_nodes.specs.declared.slots.Slot.{Slot};
    ghost use Rattle.doc_nodes.specs.Slots.{slot as slot_of, owner_of, Writes};

    /// No numbers.
    pub fn new(alloc: Global) -> Slots
        ensures { length result.slots ≡ 0 }
    {
        Slots {
            keys: Vec::new(alloc),
            slab: Slab::new(alloc),
        }
    }

    /// How many numbers were given out; the next one.
    pub fn len(&self) -> usize
        ensures { result ≡ length self.now.slots }
    {
        self.keys.len()
    }

    /// Makes sure that there is room for so many nodes more.
    pub fn reserve(&mut self, nodes: usize) -> Result<(), AllocError>
        ensures ok { OnOk result (nodes ≤ self.new.room) }
        ensures slots { self.new.slots ≡ self.old.slots }
    {
        self.slab.reserve(nodes)
    }

    /// The node of a number.
    pub fn get(&self, number: u32) -> Option<&Slot>
        ensures { option_copied result ≡ slot_of self.now.slots number }
    {
        match self.keys.get(number as usize) {
            Some(Some(key)) => self.slab.get(*key),
            _ => None,
        }
    }

    /// What the node of a number is to its children.
    pub fn owner(&self, number: u32) -> Owner
        requires { (s : Slot) × (slot_of self.now.slots number ≡ Some s) }
        ensures { (s : Slot) → slot_of self.now.slots number ≡ Some s → result ≡ owner_of s }
    {
        match self.get(number) {
            None => unreachable!(),
            Some(slot) => Owner {
                list: slot.list,
                depth: slot.depth,
                count: slot.count,
            },
        }
    }

    /// Puts a node under its number.
    pub fn put(&mut self, slot: Slot)
        requires within { slot.number < length self.old.slots }
        requires free { slot_of self.old.slots slot.number ≡ None }
        requires room { 1 ≤ self.old.room }
        ensures change { Writes self.old.slots self.new.slots slot.number (Some slot) }
        ensures room { self.old.room ≤ self.new.room + 1 }
    {
        let number = slot.number;
        let key = self.slab.insert_reserved(slot);
        self.keys[number as usize] = Some(key);
    }

    /// Takes the node of a number out.
    pub fn take(&mut self, number: u32) -> Slot
        requires { (s : Slot) × (slot_of self.old.slots number ≡ Some s) }
        ensures value { slot_of self.old.slots number ≡ Some result }
        ensures change { Writes self.old.slots self.new.slots number None }
        ensures room { 1 ≤ self.new.room }
    {
        match self.keys[number as usize] {
            Some(key) => {
                self.keys[number as usize] = None;
                self.slab.remove(key)
            }
            None => unreachable!(),
        }
    }

    /// Writes what a node holds, and answers what it held.
    pub fn replace(&mut self, number: u32, content: Content) -> Content
        requires { (s : Slot) × (slot_of self.old.slots number ≡ Some s) × (s.number ≡ number) }
        ensures content { (s : Slot) → slot_of self.old.slots number ≡ Some s → result ≡ s.content }
        ensures change { (s : Slot) → slot_of self.old.slots number ≡ Some s → Writes self.old.slots self.new.slots number (Some (record s { content = content })) }
    {
        let Slot {
            number,
            hook,
            depth,
            list,
            count,
            content: held,
        } = self.take(number);
        self.put(Slot {
            number,
            hook,
            depth,
            list,
            count,
            content,
        });
        held
    }

    /// Writes how many children a node has.
    pub fn set_count(&mut self, number: u32, count: u32)
        requires { (s : Slot) × (slot_of self.old.slots number ≡ Some s) × (s.number ≡ number) }
        ensures { (s : Slot) → slot_of self.old.slots number ≡ Some s → Writes self.old.slots self.new.slots number (Some (record s { count = count })) }
    {
        let list = self.owner(number).list;
        self.set_list(number, list, count);
    }

    /// Writes the list of a node's children, and how many it has.
    pub fn set_list(&mut self, number: u32, list: SeqId, count: u32)
        requires { (s : Slot) × (slot_of self.old.slots number ≡ Some s) × (s.number ≡ number) }
        ensures { (s : Slot) → slot_of self.old.slots number ≡ Some s → Writes self.old.slots self.new.slots number (Some (record s { list = list; count = count })) }
    {
        match self.keys[number as usize] {
            Some(key) => {
                if let Some(slot) = self.slab.get_mut(key) {
                    slot.list = list;
                    slot.count = count;
                }
            }
            None => unreachable!(),
        }
    }

    /// Writes that a node has a child less.
    pub fn drop_child(&mut self, number: u32)
        requires { (s : Slot) × (slot_of self.old.slots number ≡ Some s) × (s.number ≡ number) × (1 ≤ s.count) }
        ensures { (s : Slot) → slot_of self.old.slots number ≡ Some s → Writes self.old.slots self.new.slots number (Some (record s { count = s.count - 1 })) }
    {
        let own = self.owner(number);
        self.set_list(number, own.list, own.count - 1);
    }

    /// Gives out one number more, which no node has.
    pub fn add_number(&mut self) -> Result<u32, AllocError>
        ensures number { IfOk result (λ n. n ≡ length self.old.slots) }
        ensures ok { OnOk result (self.new.slots ≡ self.old.slots ++ None ∷ []) }
        ensures few { OnOk result (length self.new.slots < 2 ^ 32) }
        ensures err { OnErr result (self.new.slots ≡ self.old.slots) }
        ensures room { self.new.room ≡ self.old.room }
    {
        if self.keys.len() >= u32::MAX as usize {
            return Err(AllocError);
        }
        let number = self.keys.len() as u32;
        self.keys.push(None)?;
        Ok(number)
    }

    /// Takes the numbers from this one on back, of which none is a node's.
    pub fn cut_numbers(&mut self, until: u32)
        ensures { self.new.slots ≡ take until self.old.slots }
    {
        self.keys.truncate(until as usize);
    }
}
