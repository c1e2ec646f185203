//! Values of simple types: equality, order, length and keys.
ghost use Rattle.std.specs.Prelude.{◌≡◌, ◌↔◌, IfOk, IsTrue, true, false};
ghost use Rattle.std.specs.Cmp.Lexicographic.{pointwise};
ghost use Rattle.simple_values.specs.Same as spec;

use crate::{Atom, Atoms, Key, KeyItems, TypedAtom};
use std::alloc::{AllocError, Global};
use std::cmp::Ordering;
use xs_codes::Builtin;

/// A value of a simple type.
#[derive(Drop)]
pub enum Value {
    /// An atom, and the built-in type that accepted it, or the nearest one that the accepting type is derived from.
    Atom { builtin: Builtin, atom: Atom },
    /// A list of atoms.
    List(Atoms),
}

/// A clone is the same value, and of the same type.
impl Clone for Value {
    ghost is_clone = { λ value made. made ≡ value };

    fn clone(&self) -> Result<Self, AllocError> {
        match self {
            Value::Atom { builtin, atom } => Ok(Value::Atom {
                builtin: *builtin,
                atom: atom.clone()?,
            }),
            Value::List(items) => Ok(Value::List(items.clone()?)),
        }
    }
}

/// Whether two values are the same, whatever types accepted them. Values of different primitive types never are, nor a
/// list and an atom (Datatypes 2.2 and 3.2).
pub fn same(a: &Value, b: &Value) -> bool
    ensures { result ≡ spec.same a.now b.now }
{
    match (a, b) {
        (Value::Atom { atom: x, .. }, Value::Atom { atom: y, .. }) => same_atom(x, y),
        (Value::List(x), Value::List(y)) => same_items(x.as_slice(), y.as_slice()),
        _ => false,
    }
}

/// Whether one value is less than another; `None` where that is not decided, or where the values have no order
/// (Datatypes 3.2).
pub fn less(a: &Value, b: &Value) -> Option<bool>
    ensures { result ≡ spec.less a.now b.now }
{
    match (a, b) {
        (Value::Atom { atom: x, .. }, Value::Atom { atom: y, .. }) => less_atom(x, y),
        _ => None,
    }
}

/// The length of a value, in characters, octets or items; `None` where it has none (Datatypes 4.3.1).
pub fn length(value: &Value) -> Option<u32>
    ensures { result ≡ spec.length_of value.now }
{
    match value {
        Value::Atom { atom, .. } => atom_length(atom),
        Value::List(items) => Some(items.len()),
    }
}

// Whether two atoms are the same.
fn same_atom(a: &Atom, b: &Atom) -> bool
    ensures { result ≡ spec.same_atom a.now b.now }
{
    match (a, b) {
        (Atom::Untyped(x), Atom::Untyped(y)) => x == y,
        (Atom::Text(x), Atom::Text(y)) => x == y,
        (Atom::Uri(x), Atom::Uri(y)) => x == y,
        (Atom::Name(x), Atom::Name(y)) => x == y,
        (Atom::Boolean(x), Atom::Boolean(y)) => x == y,
        (Atom::Number(x), Atom::Number(y)) => x == y,
        (Atom::Hex(x), Atom::Hex(y)) => x == y,
        (Atom::Base64(x), Atom::Base64(y)) => x == y,
        (Atom::Instant { kind: j, moment: x }, Atom::Instant { kind: k, moment: y }) => j == k
            && x == y,
        (Atom::Duration(x), Atom::Duration(y)) => x == y,
        _ => false,
    }
}

// Whether two lists have the same items.
fn same_items(a: &[TypedAtom], b: &[TypedAtom]) -> bool
    ensures { result ≡ pointwise spec.same_item a.now b.now }
{
    if a.len() != b.len() {
        return false;
    }
    for (x, y) in a.iter().zip(b) {
        if !same_atom(&x.atom, &y.atom) {
            return false;
        }
    }
    true
}

// Whether one atom is less than another.
fn less_atom(a: &Atom, b: &Atom) -> Option<bool>
    ensures { result ≡ spec.less_atom a.now b.now }
{
    match (a, b) {
        (Atom::Number(x), Atom::Number(y)) => Some(x.cmp(y) == Ordering::Less),
        (Atom::Instant { kind: j, moment: x }, Atom::Instant { kind: k, moment: y }) => {
            if j == k {
                Some(x.compare(y)? == Ordering::Less)
            } else {
                None
            }
        }
        (Atom::Duration(x), Atom::Duration(y)) => Some(x.compare(y)? == Ordering::Less),
        _ => None,
    }
}

// The length of an atom.
fn atom_length(atom: &Atom) -> Option<u32>
    ensures { result ≡ spec.atom_length atom.now }
{
    match atom {
        Atom::Text(text) => Some(text.len()),
        Atom::Uri(text) => Some(text.len()),
        Atom::Hex(octets) => Some(octets.len()),
        Atom::Base64(octets) => Some(octets.len()),
        _ => None,
    }
}

/// The key of a value: two values are the same exactly where their keys are equal, and `==` of any two keys is that.
pub fn key_of(alloc: Global, value: &Value) -> Result<Key, AllocError>
    ensures value { IfOk result (λ key. key ≡ spec.key_value value.now) }
    ensures equal { IfOk result (λ key. (other : Value) → ⟦<Key as PartialEq>⟧.eq key (spec.key_value other) ≡ spec.same value.now other) }
    ensures decides { (a b : Key) → IsTrue (⟦<Key as PartialEq>⟧.eq a b) ↔ (a ≡ b) }
    ensures identical { IfOk result (λ key. (other : Value) → IsTrue (spec.same value.now other) ↔ (key ≡ spec.key_value other)) }
{
    match value {
        Value::Atom { atom, .. } => Ok(Key::Atom(atom.clone()?)),
        Value::List(items) => Ok(Key::List(copied_items(alloc, items.as_slice())?)),
    }
}

// Copies of the items' atoms.
fn copied_items(alloc: Global, items: &[TypedAtom]) -> Result<KeyItems, AllocError>
    ensures { IfOk result (λ copies. copies ≡ spec.atoms_of items.now) }
{
    let mut copies = KeyItems::new(alloc);
    for item in items {
        copies.push(item.atom.clone()?)?;
    }
    Ok(copies)
}
