//! The facets in force for a type.
ghost use Rattle.std.specs.Prelude.{◌≡◌, IfOk, OnOk};
ghost use Rattle.std.specs.Option.{option_copied};
ghost use Rattle.facet_checks.specs.List.{no_facets, plain_part};

use crate::{PatternText, Shared, ValueSet};
use simple_values::Value;
use std::alloc::{AllocError, Global};
use xs_lists::Listed;
use xs_names::WhiteSpace;

/// A number that limits a length or a count of digits, and whether the types derived from this one have to keep it
/// (Datatypes 4.3.1 to 4.3.3, 4.3.11 and 4.3.12).
#[derive(Clone, Copy)]
pub struct Count {
    pub value: u32,
    pub fixed: bool,
}

/// What is done with white space, and whether the types derived from this one have to keep it (Datatypes 4.3.6).
#[derive(Clone, Copy)]
pub struct Handling {
    pub value: WhiteSpace,
    pub fixed: bool,
}

/// The value of a bound, and whether the types derived from this one have to keep it (Datatypes 4.3.7 to 4.3.10).
pub struct Bound {
    pub value: Value,
    pub fixed: bool,
}

/// A clone is the same bound.
impl Clone for Bound {
    ghost is_clone = { λ bound made. made ≡ bound };

    fn clone(&self) -> Result<Self, AllocError> {
        Ok(Bound {
            value: self.value.clone()?,
            fixed: self.fixed,
        })
    }
}

/// The patterns of one step of restriction, of which a text matches one at least.
pub type Alternatives = Listed<PatternText>;

/// Values, in the order of the document.
pub type ValueList = Listed<Shared<Value>>;

/// The facets in force for a simple type, those of its steps of restriction merged (Structures 3.14.6). What is absent
/// restricts nothing. A type whose steps have no fault has one upper and one lower bound at most.
#[derive(Drop)]
pub struct FacetList {
    /// Absent for unions, which leave white space to their members.
    pub white_space: Option<Handling>,
    /// Those of each step that has some, the last step last; shared with the types that are derived from the one whose step has them.
    pub patterns: Listed<Shared<Alternatives>>,
    pub length: Option<Count>,
    pub min_length: Option<Count>,
    pub max_length: Option<Count>,
    /// Shared with the types that are derived from the one whose step has it.
    pub enumeration: Option<Shared<ValueSet>>,
    pub max_inclusive: Option<Bound>,
    pub max_exclusive: Option<Bound>,
    pub min_inclusive: Option<Bound>,
    pub min_exclusive: Option<Bound>,
    pub total_digits: Option<Count>,
    pub fraction_digits: Option<Count>,
}

impl FacetList {
    /// No facets.
    pub fn new(alloc: Global) -> FacetList
        ensures { result ≡ no_facets }
    {
        FacetList {
            white_space: None,
            patterns: Listed::new(alloc),
            length: None,
            min_length: None,
            max_length: None,
            enumeration: None,
            max_inclusive: None,
            max_exclusive: None,
            min_inclusive: None,
            min_exclusive: None,
            total_digits: None,
            fraction_digits: None,
        }
    }

    /// The same facets, with memory of their own for matching.
    pub fn try_clone(&self, alloc: Global) -> Result<FacetList, AllocError>
        ensures { IfOk result (λ copy. copy ≡ self.now) }
    {
        let mut copy = self.plain_copy(alloc);
        match self.copy_to(alloc, &mut copy) {
            Ok(()) => Ok(copy),
            Err(error) => Err(error),
        }
    }

    // The facets that have no memory of their own.
    fn plain_copy(&self, alloc: Global) -> FacetList
        ensures { result ≡ plain_part self.now }
    {
        FacetList {
            white_space: self.white_space,
            patterns: Listed::new(alloc),
            length: self.length,
            min_length: self.min_length,
            max_length: self.max_length,
            enumeration: None,
            max_inclusive: None,
            max_exclusive: None,
            min_inclusive: None,
            min_exclusive: None,
            total_digits: self.total_digits,
            fraction_digits: self.fraction_digits,
        }
    }

    // Adds those that have.
    fn copy_to(&self, alloc: Global, copy: &mut FacetList) -> Result<(), AllocError>
        requires { copy.old ≡ plain_part self.now }
        ensures { OnOk result (copy.new ≡ self.now) }
    {
        copy.patterns = same_steps(alloc, self.patterns.as_slice())?;
        copy.enumeration = same_values(self.enumeration.as_ref())?;
        copy.max_inclusive = copied_bound(self.max_inclusive.as_ref())?;
        copy.max_exclusive = copied_bound(self.max_exclusive.as_ref())?;
        copy.min_inclusive = copied_bound(self.min_inclusive.as_ref())?;
        copy.min_exclusive = copied_bound(self.min_exclusive.as_ref())?;
        Ok(())
    }
}

fn copied_bound(bound: Option<&Bound>) -> Result<Option<Bound>, AllocError>
    ensures { IfOk result (λ copy. copy ≡ option_copied bound.entry) }
{
    match bound {
        Some(bound) => Ok(Some(bound.clone()?)),
        None => Ok(None),
    }
}

fn same_values(values: Option<&Shared<ValueSet>>) -> Result<Option<Shared<ValueSet>>, AllocError>
    ensures { IfOk result (λ copy. copy ≡ option_copied values.entry) }
{
    match values {
        Some(values) => Ok(Some(values.try_clone()?)),
        None => Ok(None),
    }
}

fn same_steps(
    alloc: Global,
    steps: &[Shared<Alternatives>],
) -> Result<Listed<Shared<Alternatives>>, AllocError>
    ensures { IfOk result (λ copies. copies ≡ steps.now) }
{
    let mut copies = Vec::with_capacity(alloc, steps.len())?;
    for patterns in steps {
        copies.push(patterns.try_clone()?)?;
    }
    Ok(Listed::from_vec(copies))
}

impl Drop for Bound {
    fn drop(self) {
        let Bound { value, fixed: _ } = self;
        drop(value);
    }
}
