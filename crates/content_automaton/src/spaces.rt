//! The namespaces that a wildcard lists.

ghost use Rattle.std.specs.Prelude.{◌≡◌, ℕ, nat_eq, IfOk};
ghost use Rattle.std.specs.HashSet.{contains};
ghost use Rattle.xs_components.specs.Sets.{admits, has};
ghost use Rattle.content_automaton.specs.Rows.{AreListed};

use std::alloc::{AllocError, Global};
use std::collections::HashSet;
use xs_components::NsConstraint;
use xs_names::NsId;

/// The namespaces that a constraint lists, if it does, as a set: a list may be long, and is asked for each symbol.
pub(crate) fn listed_spaces(
    alloc: Global,
    namespaces: &NsConstraint,
) -> Result<HashSet<NsId>, AllocError>
    ensures { IfOk result (AreListed namespaces.now) }
{
    match namespaces {
        NsConstraint::In(listed) => space_set(alloc, listed.as_slice()),
        _ => Ok(HashSet::new(alloc)),
    }
}

fn space_set(alloc: Global, listed: &[NsId]) -> Result<HashSet<NsId>, AllocError>
    ensures { IfOk result (λ set. (ns : ℕ) → contains nat_eq set ns ≡ has listed.now ns) }
{
    let mut set = HashSet::new(alloc);
    for space in listed {
        set.insert(*space)?;
    }
    Ok(set)
}

/// Whether a constraint that lists these admits a namespace.
pub(crate) fn admits(namespaces: &NsConstraint, listed: &HashSet<NsId>, ns: NsId) -> bool
    requires { AreListed namespaces.now listed.now }
    ensures { result ≡ admits namespaces.now ns }
{
    match namespaces {
        NsConstraint::In(_) => listed.contains(&ns),
        _ => namespaces.admits(ns),
    }
}
