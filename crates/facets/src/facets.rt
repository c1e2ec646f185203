//! The facets of a simple type.
ghost use Rattle.std.specs.Prelude.{◌≡◌, IfOk};
ghost use Rattle.facet_checks.specs.Check.{IsChecked};
ghost use Rattle.facets.specs.Facets as spec;

use crate::Accepted;
use crate::atomic::judged_value;
use crate::builtin::facets_of;
use crate::known::{Judged, Known, judged_step};
use crate::making::{choices_of, list_facets};
use crate::members::{Literals, Members, Source};
use crate::reading::read_step;
use crate::trying::{read_literal, read_union};
use facet_checks::{FacetList, Shared};
use facet_rules::{Family, restricted};
use simple_values::Value;
use std::alloc::{AllocError, Global};
use xs_codes::{Builtin, Code, Fault};
use xs_components::FacetStep;
use xs_names::Scope;

/// What restricting a type by a step gives: the facets behind the step, or its first fault.
pub type Restricted = Result<Facets, Fault>;

/// The facets in force for a simple type, and what its literals are.
#[derive(Drop)]
pub struct Facets {
    pub(crate) source: Source,
    pub(crate) list: FacetList,
}

impl Facets {
    /// The facets of a built-in type: what it does with white space, and the bounds of the types of integers. None of them is
    /// fixed.
    pub fn of_builtin(alloc: Global, kind: Builtin) -> Facets
        ensures { result ≡ spec.of_builtin kind }
    {
        Facets {
            source: Source::Literals(Literals::OfBuiltin(kind)),
            list: facets_of(alloc, kind),
        }
    }

    /// The facets of a list of items of a type; `None` where that is a list, or a union that holds one
    /// (`cos-list-of-atomic`).
    pub fn list_of(alloc: Global, item: &Facets) -> Result<Option<Facets>, AllocError>
        ensures { IfOk result (λ facets. facets ≡ spec.list_of item.now) }
    {
        match choices_of(alloc, item)? {
            Some(choices) => Ok(Some(Facets {
                source: Source::Literals(Literals::OfList(Shared::new(alloc, choices)?)),
                list: list_facets(alloc),
            })),
            None => Ok(None),
        }
    }

    /// The facets of a union of these members: none, and white space is left to the members.
    pub fn union_of(alloc: Global, members: Members) -> Result<Facets, AllocError>
        ensures { IfOk result (λ facets. facets ≡ spec.union_of members) }
    {
        Ok(Facets {
            source: Source::Union(members.finished(alloc)?),
            list: FacetList::new(alloc),
        })
    }

    /// The facets of a restriction of a type by a step (Structures 3.14.6; Datatypes 4.3). The texts of the step are read in
    /// the scope of each: bounds by the built-in type, values of an enumeration by the base.
    ///
    /// # Errors
    ///
    /// The first fault of the step among those of simple types, by the places of its facets and then by the order of the
    /// codes. What a refused facet leaves undefined breaks nothing else.
    pub fn restrict(
        alloc: Global,
        base: &Facets,
        step: &FacetStep,
    ) -> Result<Restricted, AllocError>
        ensures { IfOk result (λ outcome. spec.IsRestricted base.now step.now outcome) }
    {
        let step = read_step(alloc, base, Known::Whole, step.as_slice())?;
        let Facets { source, list } = base.try_clone(alloc)?;
        match restricted(alloc, list, step)? {
            Ok(list) => Ok(Ok(Facets { source, list })),
            Err(fault) => Ok(Err(fault)),
        }
    }

    /// What judging a step comes to, by what is defined of its base: the first fault of those rules that read nothing
    /// undefined, and the facets behind the step, where those are defined. A type may be derived from one that is at fault.
    pub fn judge(
        alloc: Global,
        base: &Facets,
        known: Known,
        step: &FacetStep,
    ) -> Result<Judged, AllocError>
        ensures { IfOk result (λ judged. spec.IsStepJudged base.now known step.now judged) }
    {
        let step = read_step(alloc, base, known, step.as_slice())?;
        judged_step(alloc, base.try_clone(alloc)?, known, step)
    }

    /// The code of the first facet that a value does not meet; `None` where it meets all (Datatypes 4.1.4). The text is the one
    /// that the value was read from, its white space treated.
    pub fn check(
        &self,
        alloc: Global,
        value: &Value,
        text: &str,
    ) -> Result<Option<Code>, AllocError>
        ensures code { IfOk result (IsChecked self.now.list value.now text.now) }
    {
        self.list.check(alloc, value, text)
    }

    /// What a text reads to as a literal of the type, or the code of why it is none.
    pub fn read(
        &self,
        alloc: Global,
        text: &str,
        scope: &Scope,
    ) -> Result<Result<Accepted, Code>, AllocError>
        ensures { IfOk result (λ outcome. spec.IsRead self.now scope.now text.now outcome) }
    {
        read_source(alloc, &self.source, &self.list, text, scope)
    }

    /// The same facets, with memory of their own for `check`.
    pub fn try_clone(&self, alloc: Global) -> Result<Facets, AllocError>
        ensures { IfOk result (λ copy. copy ≡ self.now) }
    {
        Ok(Facets {
            source: self.source.try_clone()?,
            list: self.list.try_clone(alloc)?,
        })
    }

    // Which facets fit the type.
    pub(crate) fn family(&self) -> Family
        ensures { result ≡ spec.family self.now }
    {
        self.source.family()
    }

    // The built-in type that bounds are read by.
    pub(crate) fn builtin(&self) -> Builtin
        ensures { result ≡ spec.builtin self.now }
    {
        self.source.builtin()
    }
}

// What a text reads to as a literal of a source with these facets.
fn read_source(
    alloc: Global,
    source: &Source,
    list: &FacetList,
    text: &str,
    scope: &Scope,
) -> Result<Result<Accepted, Code>, AllocError>
    ensures { IfOk result (λ outcome. spec.IsSourceRead source.now list.now scope.now text.now outcome) }
{
    match source {
        Source::Literals(literals) => read_literal(alloc, literals, list, text, scope),
        Source::Union(members) => match read_union(alloc, members, text, scope)? {
            Ok(accepted) => judged_value(alloc, list, accepted.value, accepted.text),
            Err(code) => Ok(Err(code)),
        },
    }
}
