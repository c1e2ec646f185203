//! Lists of a type, and unions of types.
ghost use Rattle.std.specs.Prelude.{◌≡◌, [], IfOk};
ghost use Rattle.facets.specs.Making as spec;
ghost use Rattle.facets.specs.declared.members.Source.TheVariants as sources;

use crate::Facets;
use crate::members::{
    Choices, Gate, Literals, Member, Members, Plain, Source, Union, gates_of, same_literals,
};
use facet_checks::{FacetList, Handling, Shared};
use shared_lists::SharedTree;
use simple_values::item_type;
use std::alloc::{AllocError, Global};
use xs_codes::Builtin;
use xs_lists::Listed;
use xs_names::WhiteSpace;

impl Members {
    /// No members.
    pub fn new(alloc: Global) -> Members
        ensures { result ≡ spec.no_members }
    {
        Members {
            front: SharedTree::new(alloc),
            run: Listed::new(alloc),
        }
    }

    /// These members, and a type behind them; of a union, its members, which stay one union among them.
    pub fn with(self, alloc: Global, member: &Facets) -> Result<Members, AllocError>
        ensures { IfOk result (λ all. all ≡ spec.with_member self member.now) }
    {
        match &member.source {
            Source::Literals(literals) => with_one(alloc, self, literals, &member.list),
            Source::Union(others) => with_union(alloc, self, others, &member.list),
        }
    }

    /// The union of these members.
    pub(crate) fn finished(self, alloc: Global) -> Result<Union, AllocError>
        ensures { IfOk result (λ union_of. union_of ≡ self) }
    {
        let Members { front, run } = self;
        let run = SharedTree::run(alloc, run.into_vec())?;
        Ok(Union {
            parts: front.joined(&run)?,
        })
    }
}

#[tactic(auto, using(crate::proofs::Laying::one_with))]
fn with_one(
    alloc: Global,
    all: Members,
    literals: &Literals,
    list: &FacetList,
) -> Result<Members, AllocError>
    ensures { IfOk result (λ made. made ≡ spec.with_source all (sources.Literals literals.now) list.now) }
{
    let Members { front, mut run } = all;
    run.push(Member {
        literals: same_literals(literals)?,
        list: shared_list(alloc, list)?,
    })?;
    Ok(Members { front, run })
}

#[tactic(auto, using(crate::proofs::Laying::union_with))]
fn with_union(
    alloc: Global,
    all: Members,
    others: &Union,
    list: &FacetList,
) -> Result<Members, AllocError>
    ensures { IfOk result (λ made. made ≡ spec.with_union all others.now list.now) }
{
    let front = all.finished(alloc)?;
    let group = others.parts.grouped(shared_list(alloc, list)?)?;
    Ok(Members {
        front: front.parts.joined(&group)?,
        run: Listed::new(alloc),
    })
}

// These facets, to be shared by the unions and the lists that are made from the type.
fn shared_list(alloc: Global, list: &FacetList) -> Result<Shared<FacetList>, AllocError>
    ensures { IfOk result (λ shared. shared ≡ list.now) }
{
    Shared::new(alloc, list.try_clone(alloc)?)
}

/// The facets of a list, which collapses white space.
pub(crate) fn list_facets(alloc: Global) -> FacetList
    ensures { result ≡ spec.list_facets }
{
    FacetList {
        white_space: Some(Handling {
            value: WhiteSpace::Collapse,
            fixed: false,
        }),
        ..FacetList::new(alloc)
    }
}

/// What the items of a list of a type are; `None` where the type is a list, or a union that holds one.
pub(crate) fn choices_of(alloc: Global, item: &Facets) -> Result<Option<Choices>, AllocError>
    ensures { IfOk result (λ choices. choices ≡ spec.choices_of item.now) }
{
    match &item.source {
        Source::Literals(literals) => choice_of_one(alloc, literals, &item.list),
        Source::Union(members) => choice_of_union(alloc, members, &item.list),
    }
}

fn choice_of_one(
    alloc: Global,
    literals: &Literals,
    list: &FacetList,
) -> Result<Option<Choices>, AllocError>
    ensures { IfOk result (λ choices. choices ≡ spec.choice_of_one literals.now list.now) }
{
    let Some(kind) = atomic_kind(literals) else {
        return Ok(None);
    };
    let mut members = Listed::new(alloc);
    members.push(Plain {
        kind,
        list: shared_list(alloc, list)?,
    })?;
    Ok(Some(Choices {
        members,
        gates: Listed::new(alloc),
    }))
}

#[tactic(auto, using(crate::proofs::Laying::gates_stay))]
fn choice_of_union(
    alloc: Global,
    members: &Union,
    list: &FacetList,
) -> Result<Option<Choices>, AllocError>
    ensures { IfOk result (λ choices. choices ≡ spec.choice_of_union members.now list.now) }
{
    let Some(plains) = plains_of(alloc, members)? else {
        return Ok(None);
    };
    let mut gates = gates_of(alloc, members)?;
    gates.push(Gate {
        from: 0,
        to: plains.len(),
        list: shared_list(alloc, list)?,
    })?;
    Ok(Some(Choices {
        members: plains,
        gates,
    }))
}

// The members as types that are derived from built-in atomic ones, if they all are.
fn plains_of(alloc: Global, union_of: &Union) -> Result<Option<Listed<Plain>>, AllocError>
    ensures { IfOk result (λ plains. plains ≡ spec.plains_behind [] union_of.now.members) }
{
    let mut plains = Listed::new(alloc);
    let mut members = union_of.parts.leaves()?;
    'members: while let Some(member) = members.next()? {
        let Some(kind) = atomic_kind(&member.literals) else {
            return Ok(None);
        };
        plains.push(Plain {
            kind,
            list: member.list.try_clone()?,
        })?;
    }
    Ok(Some(plains))
}

// The built-in type that an atomic type is derived from.
fn atomic_kind(literals: &Literals) -> Option<Builtin>
    ensures { result ≡ spec.atomic_kind literals.now }
{
    match literals {
        Literals::OfBuiltin(kind) => atomic(*kind),
        Literals::OfList(_) => None,
    }
}

fn atomic(kind: Builtin) -> Option<Builtin>
    ensures { result ≡ spec.atomic kind }
{
    match item_type(kind) {
        Some(_) => None,
        None => Some(kind),
    }
}
