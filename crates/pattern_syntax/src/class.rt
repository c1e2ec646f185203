//! Classes of characters.

ghost use Rattle.std.specs.Prelude.{◌≡◌, map, IfOk};
ghost use Rattle.std.specs.List.{list_any};
ghost use Rattle.pattern_syntax.specs.Classes.{is_item, in_group, has, group_of, class_of};

use crate::set::CharSet;
use std::alloc::{AllocError, Global};

/// An item of a group: a character, a range from one character to another, or a set that an escape names.
#[derive(Clone, Copy)]
pub enum ClassItem {
    /// The character itself.
    One(char),
    /// The characters from the first to the last.
    Range(char, char),
    /// The characters of the set.
    In(CharSet),
    /// The characters outside the set.
    NotIn(CharSet),
}

/// The characters of the items or, where it is negated, all others (Datatypes, appendix F.1, positive and negative
/// character groups).
#[derive(Drop)]
pub struct CharGroup {
    /// Whether the group stands for the characters that no item has.
    pub negated: bool,
    /// The items.
    pub items: Vec<ClassItem>,
}

/// A class of characters. Contracts see the list of its groups: the characters of the first, less those of the class of
/// the groups after it.
#[derive(Drop)]
pub enum CharClass {
    /// The characters of one item.
    Item(ClassItem),
    /// The characters of the first group, less those of the class of the groups after it (Datatypes, appendix F.1,
    /// character class subtraction). Without groups there are none.
    Groups(Vec<CharGroup>),
}

impl ClassItem {
    /// Whether the character is one of the item.
    pub fn contains(self, c: char) -> bool
        ensures { result ≡ is_item self c }
    {
        match self {
            ClassItem::One(other) => c == other,
            ClassItem::Range(first, last) => first <= c && c <= last,
            ClassItem::In(set) => set.contains(c),
            ClassItem::NotIn(set) => !set.contains(c),
        }
    }
}

impl CharGroup {
    /// Whether the character is one of the group.
    pub fn contains(&self, c: char) -> bool
        ensures { result ≡ in_group (group_of self.now) c }
    {
        some_item(&self.items, c) != self.negated
    }

    /// A copy with memory of its own.
    ///
    /// # Errors
    /// When memory runs out.
    pub fn try_clone(&self, alloc: Global) -> Result<CharGroup, AllocError>
        ensures { IfOk result (λ group. group_of group ≡ group_of self.now) }
    {
        Ok(CharGroup {
            negated: self.negated,
            items: Vec::from_slice(alloc, &self.items)?,
        })
    }
}

fn some_item(items: &[ClassItem], c: char) -> bool
    ensures { result ≡ list_any (λ item. is_item item c) items.now }
{
    items.iter().any(|item| item.contains(c))
}

impl CharClass {
    /// Whether the character is one of the class.
    pub fn contains(&self, c: char) -> bool
        ensures { result ≡ has (class_of self.now) c }
    {
        match self {
            CharClass::Item(item) => item.contains(c),
            CharClass::Groups(groups) => groups_contain(groups, c),
        }
    }

    /// A copy with memory of its own.
    ///
    /// # Errors
    /// When memory runs out.
    pub fn try_clone(&self, alloc: Global) -> Result<CharClass, AllocError>
        ensures { IfOk result (λ class. class_of class ≡ class_of self.now) }
    {
        match self {
            CharClass::Item(item) => Ok(CharClass::Item(*item)),
            CharClass::Groups(groups) => Ok(CharClass::Groups(clone_groups(alloc, groups)?)),
        }
    }
}

/// Whether the first group has the character and the class of those after it lacks it.
fn groups_contain(groups: &[CharGroup], c: char) -> bool
    ensures { result ≡ has (map group_of groups.now) c }
{
    let mut inside = false;
    for group in groups {
        if !group.contains(c) {
            return inside;
        }
        inside = !inside;
    }
    inside
}

fn clone_groups(alloc: Global, groups: &[CharGroup]) -> Result<Vec<CharGroup>, AllocError>
    ensures { IfOk result (λ copy. map group_of copy.items ≡ map group_of groups.now) }
{
    let mut copy = Vec::new(alloc);
    for group in groups {
        copy.push(group.try_clone(alloc)?)?;
    }
    Ok(copy)
}
