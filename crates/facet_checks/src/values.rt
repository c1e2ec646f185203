//! The values of an enumeration, ready to be looked for.
ghost use Rattle.std.specs.Prelude.{◌≡◌, ◌<◌, ◌%◌, [], ℕ, length, slice_index_or, IfOk, OnOk};
ghost use Rattle.facet_checks.specs.Check.{is_among};
ghost use Rattle.facet_checks.specs.inside.Buckets as inside;

use crate::{Shared, ValueList};
use simple_values::{Atom, Value, same};
use std::alloc::{AllocError, Global};
use std::marker::Model;

/// The values of an enumeration, in the order of the document. Contracts see the list of them. A value is looked for among
/// those of its bucket alone.
#[derive(Drop)]
pub struct ValueSet {
    values: ValueList,
    /// The same values by buckets, of which there is one at least.
    buckets: Vec<ValueList>,
}

impl Model for ValueSet {
    ghost use Rattle.std.specs.Prelude.{List};
    ghost use Rattle.simple_values.specs.declared.value.Value.{Value as AnyValue};

    ghost Value = { List AnyValue };

    ghost use Rattle.facet_checks.specs.inside.Buckets.{AreBuckets};

    ghost view = { λ set. set.values };

    ghost invariant = { λ set. AreBuckets set.values set.buckets.items };
}

impl ValueSet {
    /// These values.
    pub fn new(alloc: Global, values: ValueList) -> Result<ValueSet, AllocError>
        ensures { IfOk result (λ set. set ≡ values) }
    {
        let buckets = buckets_of(alloc, values.as_slice())?;
        Ok(ValueSet { values, buckets })
    }

    /// Whether the value is the same as one of these. It takes no memory.
    pub fn has(&self, value: &Value) -> bool
        ensures { result ≡ is_among self.now value.now }
    {
        let at = bucket_of(self.buckets.len(), value);
        is_among(self.buckets[at].as_slice(), value)
    }
}

// Whether the value is the same as one of these.
fn is_among(values: &[Shared<Value>], value: &Value) -> bool
    ensures { result ≡ is_among values.now value.now }
{
    for other in values {
        if same(other.get(), value) {
            return true;
        }
    }
    false
}

// The values by buckets, as many as there are values.
fn buckets_of(alloc: Global, values: &[Shared<Value>]) -> Result<Vec<ValueList>, AllocError>
    ensures { IfOk result (λ buckets. inside.AreBuckets values.now buckets.items) }
{
    let mut buckets = empty_buckets(alloc, values.len().max(1))?;
    for value in values {
        put(&mut buckets, value.try_clone()?)?;
    }
    Ok(buckets)
}

fn empty_buckets(alloc: Global, count: usize) -> Result<Vec<ValueList>, AllocError>
    ensures count { IfOk result (λ buckets. length buckets.items ≡ count) }
    ensures empty { IfOk result (λ buckets. (b : ℕ) → slice_index_or buckets.items b [] ≡ []) }
{
    let mut buckets = Vec::new(alloc);
    for _ in 0..count {
        buckets.push(ValueList::new(alloc))?;
    }
    Ok(buckets)
}

// Puts the value at the end of its bucket.
fn put(buckets: &mut Vec<ValueList>, value: Shared<Value>) -> Result<(), AllocError>
    requires { 0 < length buckets.old.items }
    ensures { OnOk result (inside.IsPut value buckets.old.items buckets.new.items) }
{
    let at = bucket_of(buckets.len(), value.get());
    buckets[at].push(value)
}

// The bucket of a value, of so many.
fn bucket_of(count: usize, value: &Value) -> usize
    requires { 0 < count }
    ensures bucket { result ≡ inside.value_number value.now % count }
    ensures there { result < count }
{
    number_of(value) as usize % count
}

fn number_of(value: &Value) -> u32
    ensures { result ≡ inside.value_number value.now }
{
    match value {
        Value::Atom { atom, .. } => atom_number(atom),
        Value::List(_) => 0,
    }
}

fn atom_number(atom: &Atom) -> u32
    ensures { result ≡ inside.atom_number atom.now }
{
    match atom {
        Atom::Untyped(text) | Atom::Text(text) | Atom::Uri(text) => text_number(text.as_str()),
        Atom::Number(number) => integer_number(number.as_integer()),
        _ => 0,
    }
}

fn integer_number(integer: Option<i128>) -> u32
    ensures { result ≡ inside.integer_number integer }
{
    match integer {
        Some(n) => (n.unsigned_abs() % 4_294_967_291) as u32,
        None => 0,
    }
}

// A prime below 2 ^ 32.
const PRIME: u64 = 4_294_967_291;

// A number that the same texts have.
fn text_number(text: &str) -> u32
    ensures { result ≡ inside.text_number 0 text.now }
{
    let mut number = 0u64;
    for byte in text.as_bytes() {
        number = (number * 31 + u64::from(*byte)) % PRIME;
    }
    number as u32
}
