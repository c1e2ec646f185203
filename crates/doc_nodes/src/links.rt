//! Nodes by number, linked.

ghost use Rattle.std.specs.Prelude.{◌≡◌, ◌≢◌, ℕ, ◌+◌, ◌^◌, ◌<◌, ◌≤◌, ◌++◌, [], ◌∷◌, length, map, drop, take, filter, find, slice_get, None, Some, OnOk, OnErr, IfOk};
ghost use Rattle.std.specs.Option.{option_map, option_and_then, option_copied};
ghost use Rattle.child_trees.specs.Lists.{Entry, IsLive, IsUpTo, IsEntryOf, acts_along};
ghost use Rattle.doc_nodes.specs.Firsts.{no_child, first_found};
ghost use Rattle.doc_nodes.specs.declared.firsts.First.{First};
ghost use Rattle.doc_nodes.specs.Nodes.{Has};
ghost use Rattle.doc_nodes.specs.Linked.{entries, number_of, numbers, HangsMore, KeepsLists};

use crate::families::put_family;
use crate::firsts::{Child, First, Firsts, NO_CHILD};
use crate::slots::{Hook, Slot, Slots};
use crate::{Content, NewNode};
use child_trees::{ItemId, Leaf, SeqId, Seqs};
use std::alloc::{AllocError, Global};
use std::marker::Model;
use xsv_steps::{Silent, Steps};

/// The nodes of a document by number. Contracts see the node of each number that was given out: its parent, its depth,
/// what it holds, and the numbers of its children in order.
///
/// A number that was given out and has no node may be given a node once more by `put`, and by no other call.
#[derive(Drop)]
pub struct NodeLinks {
    slots: Slots,
    lists: Seqs<Firsts>,
}

impl Model for NodeLinks {
    ghost use Rattle.doc_nodes.specs.Nodes.{Nodes};
    ghost use Rattle.doc_nodes.specs.Linked.{nodes_of, IsLinked};

    ghost Value = { Nodes };

    ghost view = { λ t. nodes_of t.slots.slots t.lists };

    ghost invariant = { λ t. IsLinked t.slots.slots t.lists };
}

/// The first child from a place on, and the first element.
fn first_from(lists: &Seqs<Firsts>, list: SeqId, place: u32) -> First
    requires live { IsLive lists.now list }
    requires place { IsUpTo lists.now list place }
    ensures { result ≡ acts_along first_found no_child (drop place (entries lists.now list)) }
{
    lists.from(list, place, NO_CHILD, &mut Steps::new(Silent))
}

/// A new list, and an item of another one.
#[derive(Clone, Copy)]
pub struct Hung {
    pub list: SeqId,
    pub item: ItemId,
}

/// Makes a list for a child's own children, and puts the child into another list at a place.
fn hang(
    lists: &mut Seqs<Firsts>,
    order: SeqId,
    place: u32,
    child: Child,
) -> Result<Hung, AllocError>
    requires live { IsLive lists.old order }
    requires place { place ≤ length (entries lists.old order) }
    ensures ok { IfOk result (λ hung. HangsMore lists.old lists.new order place child hung) }
    ensures err { OnErr result (KeepsLists lists.old lists.new) }
{
    let list = lists.new_seq()?;
    let leaf = Leaf {
        letter: Some(child),
        element: child.is_element,
        marked: child.is_element,
    };
    match lists.insert(order, place, leaf, &(), &mut Steps::new(Silent)) {
        Ok(item) => Ok(Hung { list, item }),
        Err(error) => {
            lists.drop_seq(list);
            Err(error)
        }
    }
}

/// The child of an item.
fn child_of(lists: &Seqs<Firsts>, item: ItemId) -> u32
    requires { (e : Entry First) × IsEntryOf lists.now item e × (e.act.child ≡ Some (number_of e)) }
    ensures { (e : Entry First) → IsEntryOf lists.now item e → result ≡ number_of e }
{
    match lists.act(item, NO_CHILD, &mut Steps::new(Silent)).child {
        Some(child) => child,
        None => unreachable!(),
    }
}

/// The element that has this place among the elements of a list, counted from 0.
fn nth_element(lists: &Seqs<Firsts>, list: SeqId, place: u32) -> Option<u32>
    requires live { IsLive lists.now list }
    requires full { (e : Entry First) → Has e (entries lists.now list) → e.act.child ≡ Some (number_of e) }
    ensures { result ≡ slice_get (numbers (filter (λ e. e.marked) (entries lists.now list))) place }
{
    match lists.nth_marked(list, place) {
        None => None,
        Some(item) => Some(child_of(lists, item)),
    }
}

/// The children of a list, in order.
fn children_in(alloc: Global, lists: &Seqs<Firsts>, list: SeqId) -> Result<Vec<u32>, AllocError>
    requires live { IsLive lists.now list }
    requires full { (e : Entry First) → Has e (entries lists.now list) → e.act.child ≡ Some (number_of e) }
    ensures { IfOk result (λ children. children.items ≡ numbers (entries lists.now list)) }
{
    let items = lists.items(list)?;
    let mut children = Vec::with_capacity(alloc, items.len())?;
    for item in &items {
        children.push(child_of(lists, *item))?;
    }
    Ok(children)
}

impl NodeLinks {
    ghost use Rattle.doc_nodes.specs.Nodes.{Node, node, IsNode, IsChildAt, IsSound, Inserts, InsertsAll, AreFree, Distinct, Removes, Holds, is_element, is_element_at, depth_by, children_by, element_children, alone};

    /// A root alone, which has the number 1 and depth 1.
    ///
    /// # Errors
    ///
    /// `AllocError` is want of memory.
    pub fn with_root(alloc: Global, content: Content) -> Result<NodeLinks, AllocError>
        ensures root { IfOk result (λ t. t ≡ alone content) }
        ensures sound { IfOk result IsSound }
    {
        let mut links = NodeLinks {
            slots: Slots::new(alloc),
            lists: Seqs::new(alloc, Firsts::new(alloc)),
        };
        links.plant(content)?;
        Ok(links)
    }

    /// Puts a root under the number 1 where there is nothing.
    fn plant(&mut self, content: Content) -> Result<(), AllocError>
        requires { self.old ≡ [] }
        ensures root { OnOk result (self.new ≡ alone content) }
        ensures sound { OnOk result (IsSound self.new) }
    {
        self.slots.add_number()?;
        self.slots.add_number()?;
        self.slots.reserve(1)?;
        let list = self.lists.new_seq()?;
        self.slots.put(Slot {
            number: 1,
            hook: None,
            depth: 1,
            list,
            count: 0,
            content,
        });
        Ok(())
    }

    /// The number that the next new node gets.
    pub fn next_free(&self) -> u32
        ensures next { result ≡ length self.now }
        ensures sound { IsSound self.now }
    {
        self.slots.len() as u32
    }

    /// What a node holds; `None` where the number is of no node.
    pub fn content(&self, number: u32) -> Option<&Content>
        ensures content { option_copied result ≡ option_map (λ it. it.content) (node self.now number) }
        ensures sound { IsSound self.now }
    {
        match self.slots.get(number) {
            None => None,
            Some(slot) => Some(&slot.content),
        }
    }

    /// The parent of a node; `None` for a root, and where the number is of no node.
    pub fn parent(&self, number: u32) -> Option<u32>
        ensures parent { result ≡ option_and_then (λ it. it.parent) (node self.now number) }
        ensures sound { IsSound self.now }
    {
        match self.slots.get(number) {
            None => None,
            Some(slot) => match slot.hook {
                None => None,
                Some(hook) => Some(hook.parent),
            },
        }
    }

    /// How deep a node stands, a root having depth 1; 0 where the number is of no node.
    pub fn depth(&self, number: u32) -> u32
        ensures depth { result ≡ depth_by (node self.now number) }
        ensures sound { IsSound self.now }
    {
        match self.slots.get(number) {
            None => 0,
            Some(slot) => slot.depth,
        }
    }

    /// How many children a node has; 0 where the number is of no node.
    pub fn child_count(&self, number: u32) -> u32
        ensures count { result ≡ length (children_by (node self.now number)) }
        ensures sound { IsSound self.now }
    {
        match self.slots.get(number) {
            None => 0,
            Some(slot) => slot.count,
        }
    }

    /// The child at a place, counted from 0; `None` where there is none. It takes steps logarithmic in the number of
    /// children.
    pub fn child_at(&self, number: u32, place: u32) -> Option<u32>
        ensures child { result ≡ slice_get (children_by (node self.now number)) place }
        ensures sound { IsSound self.now }
    {
        match self.slots.get(number) {
            None => None,
            Some(slot) => {
                if place < slot.count {
                    first_from(&self.lists, slot.list, place).child
                } else {
                    None
                }
            }
        }
    }

    /// The children of a node, in order; none where the number is of no node. It takes work in proportion to their number.
    ///
    /// # Errors
    ///
    /// `AllocError` is want of memory.
    pub fn children(&self, alloc: Global, number: u32) -> Result<Vec<u32>, AllocError>
        ensures children { IfOk result (λ children. children.items ≡ children_by (node self.now number)) }
        ensures sound { IsSound self.now }
    {
        match self.slots.get(number) {
            None => Ok(Vec::new(alloc)),
            Some(slot) => children_in(alloc, &self.lists, slot.list),
        }
    }

    /// The place of a node among the children of its parent, counted from 0; `None` for a root, and where the number is of
    /// no node.
    pub fn place(&self, number: u32) -> Option<u32>
        ensures place { (p place : ℕ) → IsChildAt self.now p place number → result ≡ Some place }
        ensures none { option_and_then (λ it. it.parent) (node self.now number) ≡ None → result ≡ None }
        ensures sound { IsSound self.now }
    {
        match self.slots.get(number) {
            None => None,
            Some(slot) => match slot.hook {
                None => None,
                Some(hook) => Some(self.lists.place_of(hook.item)),
            },
        }
    }

    /// The first of the children of a node from a place on that is an element; `None` where there is none. It takes steps
    /// logarithmic in the number of children.
    pub fn element_from(&self, number: u32, place: u32) -> Option<u32>
        ensures element { result ≡ find (is_element_at self.now) (drop place (children_by (node self.now number))) }
        ensures sound { IsSound self.now }
    {
        match self.slots.get(number) {
            None => None,
            Some(slot) => {
                if place < slot.count {
                    first_from(&self.lists, slot.list, place).element
                } else {
                    None
                }
            }
        }
    }

    /// The child element that has this place among the child elements of a node, counted from 0; `None` where there is none.
    /// It takes steps logarithmic in the number of children.
    pub fn element_at(&self, number: u32, place: u32) -> Option<u32>
        ensures element { result ≡ slice_get (element_children self.now number) place }
        ensures sound { IsSound self.now }
    {
        match self.slots.get(number) {
            None => None,
            Some(slot) => nth_element(&self.lists, slot.list, place),
        }
    }

    /// How many of the children of a node before a place are elements. It takes steps logarithmic in the number of children.
    pub fn elements_upto(&self, number: u32, place: u32) -> u32
        ensures count { result ≡ length (filter (is_element_at self.now) (take place (children_by (node self.now number)))) }
        ensures sound { IsSound self.now }
    {
        match self.slots.get(number) {
            None => 0,
            Some(slot) => self.lists.elements_upto(slot.list, place.min(slot.count)),
        }
    }

    /// Writes what a node holds, and answers what it held: an element's place is taken by an element's, a text's by a
    /// text's. It takes no memory.
    pub fn replace(&mut self, number: u32, content: Content) -> Content
        requires { (it : Node) × IsNode self.old number it × (is_element it.content ≡ is_element content) }
        ensures content { (it : Node) → IsNode self.old number it → result ≡ it.content }
        ensures change { Holds self.old self.new number content }
        ensures sound { IsSound self.new }
    {
        self.slots.replace(number, content)
    }

    /// Gives out one number more, which no node has yet.
    ///
    /// # Errors
    ///
    /// `AllocError` is want of memory, or of numbers below 4,294,967,296. All is then as it was.
    pub fn add_number(&mut self) -> Result<u32, AllocError>
        ensures number { IfOk result (λ n. n ≡ length self.old) }
        ensures ok { OnOk result (self.new ≡ self.old ++ None ∷ []) }
        ensures err { OnErr result (self.new ≡ self.old) }
        ensures sound { IsSound self.new }
    {
        self.slots.add_number()
    }

    /// Takes back the numbers from this one on, of which none is a node's.
    pub fn cut_numbers(&mut self, until: u32)
        requires { (n : ℕ) → until ≤ n → node self.old n ≡ None }
        ensures change { self.new ≡ take until self.old }
        ensures sound { IsSound self.new }
    {
        self.slots.cut_numbers(until);
    }

    /// Puts a node without children under a number that no node has, as the child of a node at a place.
    ///
    /// # Errors
    ///
    /// `AllocError` is want of memory. All is then as it was.
    pub fn put(
        &mut self,
        number: u32,
        parent: u32,
        place: u32,
        content: Content,
    ) -> Result<(), AllocError>
        requires given { number < length self.old }
        requires free { node self.old number ≡ None }
        requires parent { (it : Node) × IsNode self.old parent it × (place ≤ length it.children) × (it.depth + 1 < 2 ^ 32) }
        ensures ok { OnOk result (Inserts self.old self.new parent place number content) }
        ensures err { OnErr result (self.new ≡ self.old) }
        ensures sound { IsSound self.new }
    {
        let above = self.slots.owner(parent);
        if above.count == u32::MAX {
            return Err(AllocError);
        }
        self.slots.reserve(1)?;
        let is_element = content.is_element();
        let child = Child { number, is_element };
        let hung = hang(&mut self.lists, above.list, place, child)?;
        let Hung { list, item } = hung;
        self.slots.put(Slot {
            number,
            hook: Some(Hook { parent, item }),
            depth: above.depth + 1,
            list,
            count: 0,
            content,
        });
        self.slots.set_count(parent, above.count + 1);
        Ok(())
    }

    /// Puts nodes without children under numbers that no nodes have, as the children of a node that has none, in this order. It
    /// takes work in proportion to their number.
    ///
    /// # Errors
    ///
    /// `AllocError` is want of memory. All is then as it was.
    pub fn put_children(
        &mut self,
        alloc: Global,
        parent: u32,
        children: Vec<NewNode>,
    ) -> Result<(), AllocError>
        requires parent { (it : Node) × IsNode self.old parent it × (it.children ≡ []) × (it.depth + 1 < 2 ^ 32) }
        requires free { AreFree self.old children.items }
        requires distinct { Distinct (map (λ c. c.number) children.items) }
        ensures ok { OnOk result (InsertsAll self.old self.new parent children.items) }
        ensures err { OnErr result (self.new ≡ self.old) }
        ensures sound { IsSound self.new }
    {
        if children.len() == 1 {
            return self.put_only(parent, children);
        }
        put_family(alloc, &mut self.slots, &mut self.lists, parent, children)
    }

    /// The same for a single node.
    fn put_only(&mut self, parent: u32, children: Vec<NewNode>) -> Result<(), AllocError>
        requires parent { (it : Node) × IsNode self.old parent it × (it.children ≡ []) × (it.depth + 1 < 2 ^ 32) }
        requires free { AreFree self.old children.items }
        requires one { length children.items ≡ 1 }
        ensures ok { OnOk result (InsertsAll self.old self.new parent children.items) }
        ensures err { OnErr result (self.new ≡ self.old) }
        ensures sound { IsSound self.new }
    {
        let mut only = children;
        match only.pop() {
            Some(NewNode { number, content }) => self.put(number, parent, 0, content),
            None => unreachable!(),
        }
    }

    /// Takes a node away that is no root and has no children, and answers what it held. It takes no memory.
    pub fn take(&mut self, number: u32) -> Content
        requires { (it : Node) × IsNode self.old number it × (it.children ≡ []) × (it.parent ≢ None) }
        ensures content { (it : Node) → IsNode self.old number it → result ≡ it.content }
        ensures change { (p place : ℕ) → IsChildAt self.old p place number → Removes self.old self.new p place number }
        ensures sound { IsSound self.new }
    {
        let Slot {
            hook,
            list,
            content,
            ..
        } = self.slots.take(number);
        self.lists.drop_seq(list);
        match hook {
            None => unreachable!(),
            Some(hook) => {
                self.lists.remove(hook.item, &mut Steps::new(Silent));
                self.slots.drop_child(hook.parent);
                content
            }
        }
    }
}
