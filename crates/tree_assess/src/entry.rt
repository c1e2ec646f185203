//! What is found out about an element.

ghost use Rattle.std.specs.Prelude.{◌≡◌};

use assess_records::{Attempted, AttrRecords, ElementRecord, Validity, ValueSource};
use attr_assess::AttrValues;
use elem_governing::Governing;
use simple_values::Value;
use std::alloc::Global;
use xs_lists::Listed;
use xs_names::NameId;

/// What is found out about an element, under its number.
pub struct ElementEntry {
    pub number: u32,
    /// The number of the element that bears the IDs of its text: its parent, or the element itself where it is the root
    /// (Structures 3.15.5).
    pub bearer: u32,
    /// How many of the next entries are of elements below it.
    pub below: usize,
    /// What governs it.
    pub governing: Governing,
    pub element: ElementRecord,
    /// The value of its text, where that is valid by a simple type.
    pub value: Option<Value>,
    pub attrs: AttrRecords,
    /// The values of its attributes, where they are valid by simple types.
    pub attr_values: AttrValues,
}

impl ElementEntry {
    /// What governs the element.
    pub(crate) fn governing(&self) -> &Governing
        ensures { result.now ≡ self.now.governing }
    {
        &self.governing
    }
}

/// What of an element enters its parent's record.
#[derive(Clone, Copy)]
pub(crate) struct ChildOutcome {
    pub validity: Validity,
    pub attempted: Attempted,
}

/// What of this record enters the parent's.
pub(crate) fn outcome_of(record: &ElementRecord) -> ChildOutcome
    ensures validity { result.validity ≡ record.now.validity }
    ensures attempted { result.attempted ≡ record.now.attempted }
{
    ChildOutcome {
        validity: record.validity,
        attempted: record.attempted,
    }
}

/// The entry of an element of which no more is known than what governs it.
pub(crate) fn begun(alloc: Global, number: u32, governing: Governing, name: NameId) -> ElementEntry
    ensures { result.governing ≡ governing }
{
    ElementEntry {
        number,
        bearer: number,
        below: 0,
        governing,
        element: ElementRecord {
            name,
            of: governing.of,
            validity: Validity::NotKnown,
            attempted: Attempted::Untried,
            source: ValueSource::Given,
            codes: Listed::new(alloc),
        },
        value: None,
        attrs: Listed::new(alloc),
        attr_values: AttrValues::new(alloc),
    }
}

impl Drop for ElementEntry {
    fn drop(self) {
        let ElementEntry {
            number: _,
            bearer: _,
            below: _,
            governing: _,
            element,
            value,
            attrs,
            attr_values,
        } = self;
        drop(element);
        drop(value);
        drop(attrs);
        drop(attr_values);
    }
}
