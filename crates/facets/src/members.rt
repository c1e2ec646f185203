//! What the literals of a type are.
ghost use Rattle.std.specs.Prelude.{◌≡◌, IfOk};
ghost use Rattle.facets.specs.Members as spec;

use facet_checks::{FacetList, Shared};
use facet_rules::{Family, family_of};
use shared_lists::SharedTree;
use std::alloc::{AllocError, Global};
use std::marker::Model;
use xs_codes::Builtin;
use xs_lists::Listed;

/// A type that is derived from a built-in one by restriction.
#[derive(Drop)]
pub struct Plain {
    pub(crate) kind: Builtin,
    pub(crate) list: Shared<FacetList>,
}

/// A union among the members of another, which are those from an index and before another: what one of them accepts has to
/// meet its facets too, or else they have all refused.
#[derive(Drop)]
pub struct Gate {
    pub(crate) from: usize,
    pub(crate) to: usize,
    pub(crate) list: Shared<FacetList>,
}

/// What the items of a list are of: the first of these types that accepts an item.
#[derive(Drop)]
pub struct Choices {
    pub(crate) members: Listed<Plain>,
    pub(crate) gates: Listed<Gate>,
}

/// What the literals of a type are that is no union.
pub enum Literals {
    /// Those of a built-in type.
    OfBuiltin(Builtin),
    /// Lists of items.
    OfList(Shared<Choices>),
}

/// A member of a union, which is no union itself.
pub struct Member {
    pub(crate) literals: Literals,
    pub(crate) list: Shared<FacetList>,
}

/// The members of a union that is made, those of its unions among them (Structures 3.14.1): each tries a text in turn, and the
/// first that accepts it decides. Contracts see them as one list, with a gate for each union among them.
#[derive(Drop)]
pub struct Members {
    // Those up to the last union among them, and those behind it.
    pub(crate) front: UnionParts,
    pub(crate) run: Listed<Member>,
}

impl Model for Members {
    ghost use Rattle.facets.specs.UnionMembers.{Members, members_of};
    ghost use Rattle.shared_lists.specs.Trees.{joined, run as in_a_run};

    ghost Value = { Members };

    ghost view = { λ all. members_of (joined all.front (in_a_run all.run)) };
}

/// A union, seen as its members. A union that is a member is shared with its own type.
#[derive(Drop)]
pub struct Union {
    pub(crate) parts: UnionParts,
}

/// The members of a union, in groups by the unions among them, with the facets of these.
pub(crate) type UnionParts = SharedTree<Member, Shared<FacetList>>;

impl Model for Union {
    ghost use Rattle.facets.specs.UnionMembers.{Members, members_of};

    ghost Value = { Members };

    ghost view = { λ union_of. members_of union_of.parts };
}

impl Union {
    /// The same union, which is shared.
    pub(crate) fn try_clone(&self) -> Result<Union, AllocError>
        ensures { IfOk result (λ copy. copy ≡ self.now) }
    {
        Ok(Union {
            parts: self.parts.try_clone()?,
        })
    }
}

/// What the literals of a type are.
pub enum Source {
    Literals(Literals),
    Union(Union),
}

impl Source {
    /// Which facets fit the type.
    pub(crate) fn family(&self) -> Family
        ensures { result ≡ spec.family_of_source self.now }
    {
        match self {
            Source::Literals(Literals::OfBuiltin(kind)) => family_of(*kind),
            Source::Literals(Literals::OfList(_)) => Family::Measured,
            Source::Union(_) => Family::Unions,
        }
    }

    /// The built-in type that bounds are read by; `anySimpleType` where none fits.
    pub(crate) fn builtin(&self) -> Builtin
        ensures { result ≡ spec.builtin_of_source self.now }
    {
        match self {
            Source::Literals(Literals::OfBuiltin(kind)) => *kind,
            _ => Builtin::AnySimpleType,
        }
    }

    /// The same, whose members and items are shared.
    pub(crate) fn try_clone(&self) -> Result<Source, AllocError>
        ensures { IfOk result (λ copy. copy ≡ self.now) }
    {
        match self {
            Source::Literals(literals) => Ok(Source::Literals(same_literals(literals)?)),
            Source::Union(members) => Ok(Source::Union(members.try_clone()?)),
        }
    }
}

/// The same literals, whose items are shared.
pub(crate) fn same_literals(literals: &Literals) -> Result<Literals, AllocError>
    ensures { IfOk result (λ copy. copy ≡ literals.now) }
{
    match literals {
        Literals::OfBuiltin(kind) => Ok(Literals::OfBuiltin(*kind)),
        Literals::OfList(items) => Ok(Literals::OfList(items.try_clone()?)),
    }
}

/// The gates of a union; their facets are shared.
pub(crate) fn gates_of(alloc: Global, union_of: &Union) -> Result<Listed<Gate>, AllocError>
    ensures { IfOk result (λ gates. gates ≡ union_of.now.gates) }
{
    let mut gates = Listed::new(alloc);
    let mut groups = union_of.parts.groups()?;
    'groups: while let Some(group) = groups.next()? {
        gates.push(Gate {
            from: group.from,
            to: group.to,
            list: group.label.try_clone()?,
        })?;
    }
    Ok(gates)
}

impl Drop for Source {
    fn drop(self) {
        match self {
            Source::Literals(literals) => drop(literals),
            Source::Union(union) => drop(union),
        }
    }
}

impl Drop for Member {
    fn drop(self) {
        let Member { literals, list } = self;
        drop(literals);
        drop(list);
    }
}

impl Drop for Literals {
    fn drop(self) {
        match self {
            Literals::OfBuiltin(_) => {}
            Literals::OfList(of_list) => drop(of_list),
        }
    }
}
