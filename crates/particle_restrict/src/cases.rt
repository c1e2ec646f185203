//! The cases of one particle over another.

ghost use Rattle.std.specs.Prelude.{◌≡◌, List, slice_get};
ghost use Rattle.particle_models.specs.Trees.{Tree};
ghost use Rattle.particle_models.specs.Parts.{IsForm, form_in, tree_of};
ghost use Rattle.particle_restrict.specs.Codes as codes;
ghost use Rattle.particle_restrict.specs.Codes.{case_of, form_case};

use crate::terms::Term;
use particle_models::{Compositor, Form, Part};
use xs_codes::Code;

/// The cases of Particle Valid (Restriction) (Structures 3.9.6).
#[derive(Clone, Copy)]
pub(crate) enum Case {
    /// The one never restricts the other.
    Forbidden,
    NameAndTypeOk,
    NsCompat,
    RecurseAsIfGroup,
    NsSubset,
    NsRecurseCheckCardinality,
    Recurse,
    RecurseUnordered,
    RecurseLax,
    MapAndSum,
}

impl Case {
    /// The code where the one does not restrict the other.
    pub(crate) fn code(self) -> Code
        ensures { result ≡ codes.code_of self }
    {
        match self {
            Case::Forbidden => Code::CosParticleRestrict2,
            Case::NameAndTypeOk => Code::RcaseNameAndTypeOk,
            Case::NsCompat => Code::RcaseNsCompat,
            Case::RecurseAsIfGroup => Code::RcaseRecurseAsIfGroup,
            Case::NsSubset => Code::RcaseNsSubset,
            Case::NsRecurseCheckCardinality => Code::RcaseNsRecurseCheckCardinality,
            Case::Recurse => Code::RcaseRecurse,
            Case::RecurseUnordered => Code::RcaseRecurseUnordered,
            Case::RecurseLax => Code::RcaseRecurseLax,
            Case::MapAndSum => Code::RcaseMapAndSum,
        }
    }
}

/// The case of the two particles.
pub(crate) fn case_of_forms(derived: &Form, base: &Form, terms: &[Term]) -> Case
    requires derived { IsForm derived.now.parts.items derived.now.root }
    requires base { IsForm base.now.parts.items base.now.root }
    ensures { result ≡ form_case terms.now (form_in derived.now.parts.items derived.now.root) (form_in base.now.parts.items base.now.root) }
{
    let Some(d) = derived.root else {
        return Case::Forbidden;
    };
    let Some(b) = base.root else {
        return Case::Forbidden;
    };
    part_case(&derived.parts[d as usize], &base.parts[b as usize], terms)
}

/// The case of two parts.
fn part_case(derived: &Part, base: &Part, terms: &[Term]) -> Case
    ensures { (trees base_trees : List Tree) → result ≡ case_of terms.now (tree_of trees derived.now) (tree_of base_trees base.now) }
{
    match derived {
        Part::Leaf(_, t) => match base {
            Part::Leaf(_, u) => leaf_case(terms, *t, *u),
            Part::Group(..) => leaf_group_case(terms, *t),
        },
        Part::Group(_, compositor, _) => match base {
            Part::Leaf(_, u) => group_leaf_case(terms, *u),
            Part::Group(_, base_compositor, _) => group_case(*compositor, *base_compositor),
        },
    }
}

/// The case of an element or a wildcard over one.
fn leaf_case(terms: &[Term], t: u32, u: u32) -> Case
    ensures { result ≡ codes.leaf_case (slice_get terms.now t) (slice_get terms.now u) }
{
    let Some(term) = terms.get(t as usize) else {
        return Case::Forbidden;
    };
    let Some(base) = terms.get(u as usize) else {
        return Case::Forbidden;
    };
    match term {
        Term::Element(_) => match base {
            Term::Element(_) => Case::NameAndTypeOk,
            Term::Any(_) => Case::NsCompat,
        },
        Term::Any(_) => match base {
            Term::Element(_) => Case::Forbidden,
            Term::Any(_) => Case::NsSubset,
        },
    }
}

/// The case of an element or a wildcard over a group.
fn leaf_group_case(terms: &[Term], t: u32) -> Case
    ensures { result ≡ codes.leaf_group_case (slice_get terms.now t) }
{
    match terms.get(t as usize) {
        Some(Term::Element(_)) => Case::RecurseAsIfGroup,
        _ => Case::Forbidden,
    }
}

/// The case of a group over an element or a wildcard.
fn group_leaf_case(terms: &[Term], u: u32) -> Case
    ensures { result ≡ codes.group_leaf_case (slice_get terms.now u) }
{
    match terms.get(u as usize) {
        Some(Term::Any(_)) => Case::NsRecurseCheckCardinality,
        _ => Case::Forbidden,
    }
}

/// The case of a group over a group.
fn group_case(compositor: Compositor, base: Compositor) -> Case
    ensures { result ≡ codes.group_case compositor base }
{
    match compositor {
        Compositor::Sequence => match base {
            Compositor::Sequence => Case::Recurse,
            Compositor::Choice => Case::MapAndSum,
            Compositor::All => Case::RecurseUnordered,
        },
        Compositor::Choice => match base {
            Compositor::Choice => Case::RecurseLax,
            Compositor::Sequence | Compositor::All => Case::Forbidden,
        },
        Compositor::All => match base {
            Compositor::All => Case::Recurse,
            Compositor::Sequence | Compositor::Choice => Case::Forbidden,
        },
    }
}
