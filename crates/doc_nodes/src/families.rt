//! New children of a node, put all at once.

ghost use Rattle.std.specs.Prelude.{◌≡◌, ℕ, ◌^◌, ◌+◌, ◌<◌, ◌≤◌, [], length, map, Some, IfOk, OnOk, OnErr};
ghost use Rattle.child_trees.specs.Lists.{get, IsLive, items as items_of};
ghost use Rattle.doc_nodes.specs.declared.slots.Slot.{Slot};
ghost use Rattle.doc_nodes.specs.Nodes.{Lacks, Distinct, InsertsAll};
ghost use Rattle.doc_nodes.specs.Slots.{slot};
ghost use Rattle.doc_nodes.specs.Linked.{entries, nodes_of, IsLinked, KeepsLists};
ghost use Rattle.doc_nodes.specs.Families.{leaf_of, AreEmpty, AreOwn, AddsList, OwnLists, HangsAll, AreUnused, new_slots, PutsSlots, Settles};

use crate::NewNode;
use crate::firsts::{Child, Firsts};
use crate::links::Hung;
use crate::slots::{Hook, Slot, Slots};
use child_trees::{ItemId, Leaf, SeqId, Seqs};
use std::alloc::{AllocError, Global};
use xsv_steps::{Silent, Steps};

/// A list of new children, and for each of them its item and a list for its own children.
#[derive(Drop)]
pub struct Family {
    pub list: SeqId,
    pub hung: Vec<Hung>,
}

/// The leaf of a new child.
fn leaf(child: &NewNode) -> Leaf<Child>
    ensures { result ≡ leaf_of child.now }
{
    let is_element = child.content.is_element();
    Leaf {
        letter: Some(Child {
            number: child.number,
            is_element,
        }),
        element: is_element,
        marked: is_element,
    }
}

/// The leaves of new children.
fn leaves(alloc: Global, children: &[NewNode]) -> Result<Vec<Leaf<Child>>, AllocError>
    ensures { IfOk result (λ made. made.items ≡ map leaf_of children.now) }
{
    let mut made = Vec::with_capacity(alloc, children.len())?;
    for child in children {
        made.push(leaf(child))?;
    }
    Ok(made)
}

/// Gives empty lists back.
fn drop_lists(lists: &mut Seqs<Firsts>, hung: &[Hung])
    requires own { AreEmpty lists.old hung.now }
    requires apart { Distinct (map (λ h. h.list) hung.now) }
    ensures { (q : ℕ) → Lacks q (map (λ h. h.list) hung.now) → get lists.new q ≡ get lists.old q }
{
    for one in hung {
        lists.drop_seq(one.list);
    }
}

/// Adds a new list for an item. Where memory is wanting, there is none.
fn push_list(lists: &mut Seqs<Firsts>, hung: &mut Vec<Hung>, item: ItemId) -> Result<(), AllocError>
    ensures ok { OnOk result (AddsList lists.old lists.new hung.old.items hung.new.items item) }
    ensures same { OnErr result (hung.new.items ≡ hung.old.items) }
    ensures keeps { OnErr result (KeepsLists lists.old lists.new) }
{
    let list = lists.new_seq()?;
    match hung.push(Hung { list, item }) {
        Ok(()) => Ok(()),
        Err(_) => {
            lists.drop_seq(list);
            Err(AllocError)
        }
    }
}

/// Adds a new list for each item. Where memory is wanting, the first of them were made.
fn push_lists(
    lists: &mut Seqs<Firsts>,
    items: &[ItemId],
    hung: &mut Vec<Hung>,
) -> Result<(), AllocError>
    requires { hung.old.items ≡ [] }
    ensures ok { OnOk result (OwnLists lists.old lists.new items.now hung.new.items) }
    ensures own { AreOwn lists.old lists.new hung.new.items }
    ensures keeps { KeepsLists lists.old lists.new }
{
    for item in items {
        push_list(lists, hung, *item)?;
    }
    Ok(())
}

/// A new list for each item of a list.
fn own_lists(alloc: Global, lists: &mut Seqs<Firsts>, list: SeqId) -> Result<Vec<Hung>, AllocError>
    requires { IsLive lists.old list }
    ensures ok { IfOk result (λ hung. OwnLists lists.old lists.new (items_of (entries lists.old list)) hung.items) }
    ensures keeps { KeepsLists lists.old lists.new }
{
    let items = lists.items(list)?;
    let mut hung = Vec::with_capacity(alloc, items.len())?;
    match push_lists(lists, items.as_slice(), &mut hung) {
        Ok(()) => Ok(hung),
        Err(error) => {
            drop_lists(lists, hung.as_slice());
            Err(error)
        }
    }
}

/// Makes a list of new children, and one for each of them.
fn hang_all(
    alloc: Global,
    lists: &mut Seqs<Firsts>,
    children: &[NewNode],
) -> Result<Family, AllocError>
    ensures ok { IfOk result (HangsAll lists.old lists.new children.now) }
    ensures err { OnErr result (KeepsLists lists.old lists.new) }
{
    let leaves = leaves(alloc, children)?;
    let list = lists.build(leaves, &(), &mut Steps::new(Silent))?;
    match own_lists(alloc, lists, list) {
        Ok(hung) => Ok(Family { list, hung }),
        Err(error) => {
            lists.drop_seq(list);
            Err(error)
        }
    }
}

/// Makes room for new children, a list of them, and one for each of them.
fn found(
    alloc: Global,
    slots: &mut Slots,
    lists: &mut Seqs<Firsts>,
    children: &[NewNode],
) -> Result<Family, AllocError>
    ensures ok { IfOk result (HangsAll lists.old lists.new children.now) }
    ensures few { OnOk result (length children.now < 2 ^ 32) }
    ensures room { OnOk result (length children.now ≤ slots.new.room) }
    ensures slots { slots.new.slots ≡ slots.old.slots }
    ensures err { OnErr result (KeepsLists lists.old lists.new) }
{
    if children.len() > u32::MAX as usize {
        return Err(AllocError);
    }
    slots.reserve(children.len())?;
    hang_all(alloc, lists, children)
}

/// Puts the slots of new children, from the last to the first.
fn put_slots(slots: &mut Slots, parent: u32, depth: u32, children: Vec<NewNode>, hung: &[Hung])
    requires many { length hung.now ≡ length children.items }
    requires free { AreUnused slots.old.slots children.items }
    requires distinct { Distinct (map (λ c. c.number) children.items) }
    requires room { length children.items ≤ slots.old.room }
    ensures { PutsSlots slots.old.slots slots.new.slots (new_slots parent depth children.items hung.now) }
{
    let mut left = children;
    let mut n = hung.len();
    'left: while let Some(child) = left.pop() {
        n -= 1;
        let own = hung[n];
        let NewNode { number, content } = child;
        slots.put(Slot {
            number,
            hook: Some(Hook {
                parent,
                item: own.item,
            }),
            depth,
            list: own.list,
            count: 0,
            content,
        });
    }
}

/// Puts new children, for whom all was made, below a node without children.
fn settle(
    slots: &mut Slots,
    lists: &mut Seqs<Firsts>,
    parent: u32,
    children: Vec<NewNode>,
    family: &Family,
    count: u32,
)
    requires many { length family.now.hung.items ≡ length children.items }
    requires count { count ≡ length children.items }
    requires free { AreUnused slots.old.slots children.items }
    requires distinct { Distinct (map (λ c. c.number) children.items) }
    requires room { length children.items ≤ slots.old.room }
    requires parent { (s : Slot) × (slot slots.old.slots parent ≡ Some s) × (s.number ≡ parent) × (s.depth + 1 < 2 ^ 32) × IsLive lists.old s.list }
    ensures { (s : Slot) → slot slots.old.slots parent ≡ Some s → Settles slots.old.slots slots.new.slots lists.old lists.new parent s children.items family.now }
{
    let above = slots.owner(parent);
    let depth = above.depth + 1;
    put_slots(slots, parent, depth, children, family.hung.as_slice());
    slots.set_list(parent, family.list, count);
    lists.drop_seq(above.list);
}

/// Puts new children below a node that has none.
pub fn put_family(
    alloc: Global,
    slots: &mut Slots,
    lists: &mut Seqs<Firsts>,
    parent: u32,
    children: Vec<NewNode>,
) -> Result<(), AllocError>
    requires linked { IsLinked slots.old.slots lists.old }
    requires free { AreUnused slots.old.slots children.items }
    requires distinct { Distinct (map (λ c. c.number) children.items) }
    requires parent { (s : Slot) × (slot slots.old.slots parent ≡ Some s) × (entries lists.old s.list ≡ []) × (s.depth + 1 < 2 ^ 32) }
    ensures ok { OnOk result (InsertsAll (nodes_of slots.old.slots lists.old) (nodes_of slots.new.slots lists.new) parent children.items) }
    ensures linked { IsLinked slots.new.slots lists.new }
    ensures err { OnErr result (nodes_of slots.new.slots lists.new ≡ nodes_of slots.old.slots lists.old) }
{
    let family = found(alloc, slots, lists, children.as_slice())?;
    let count = children.len() as u32;
    settle(slots, lists, parent, children, &family, count);
    Ok(())
}
