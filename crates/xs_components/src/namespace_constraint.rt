ghost use Rattle.std.specs.Prelude.{◌≡◌, ◌++◌, ◌&&◌, ◌||◌, ◌↔◌, not, ℕ, ◌≢◌, true, false, filter, IsTrue, IsNone, IfSome, IfNone, IfOk};
ghost use Rattle.std.specs.List.{list_all};
ghost use Rattle.xs_components.specs.Sets as sets;
ghost use Rattle.xs_components.specs.Sets.{IsIntersection, IsUnion, IsSubset, HasNoIntersection, HasNoUnion, has};
ghost use Rattle.xs_names.specs.Names.{absent_space};
ghost use Rattle.xs_components.specs.declared.namespace_constraint.NsConstraint.{NsConstraint};
ghost use Rattle.xs_components.specs.declared.namespace_constraint.NsConstraint.TheVariants.{Any, Not};

use std::alloc::{AllocError, Global};
use xs_lists::Listed;
use xs_names::NsId;

/// Namespaces in a list. The absent one may stand in it.
pub type NsIdList = Listed<NsId>;

/// The namespaces that a wildcard admits (Structures 3.10.1). Contracts see the set of them.
#[derive(Clone)]
pub enum NsConstraint {
    /// Every namespace, and the absent one.
    Any,
    /// Every namespace but this one and the absent one.
    Not(NsId),
    /// Those of the list.
    In(NsIdList),
}

impl NsConstraint {
    /// Whether the namespace is admitted (Structures 3.10.4).
    pub fn admits(&self, ns: NsId) -> bool
        ensures admitted { result ≡ sets.admits self.now ns }
    {
        match self {
            NsConstraint::Any => true,
            NsConstraint::Not(excluded) => ns != NsId::ABSENT && ns != *excluded,
            NsConstraint::In(listed) => has_namespace(listed.as_slice(), ns),
        }
    }

    /// The constraint that admits what both admit (Structures 3.10.6); `None` exactly where no constraint does.
    pub fn intersect(
        &self,
        alloc: Global,
        other: &NsConstraint,
    ) -> Result<Option<NsConstraint>, AllocError>
        ensures set { IfOk result (λ found. IfSome found (IsIntersection self.now other.now)) }
        ensures none { IfOk result (λ found. IsNone found ↔ HasNoIntersection self.now other.now) }
        ensures no_form { IfOk result (λ found. IfNone found ((c : NsConstraint) → ¬ (IsIntersection self.now other.now c))) }
    {
        match self {
            NsConstraint::Any => Ok(Some(other.clone()?)),
            NsConstraint::Not(excluded) => other.without(alloc, *excluded),
            NsConstraint::In(listed) => {
                let kept = other.admitted(alloc, listed.as_slice())?;
                Ok(Some(NsConstraint::In(kept)))
            }
        }
    }

    /// The constraint that admits what one of them admits (Structures 3.10.6); `None` exactly where no constraint does.
    pub fn unite(
        &self,
        alloc: Global,
        other: &NsConstraint,
    ) -> Result<Option<NsConstraint>, AllocError>
        ensures set { IfOk result (λ found. IfSome found (IsUnion self.now other.now)) }
        ensures none { IfOk result (λ found. IsNone found ↔ HasNoUnion self.now other.now) }
        ensures no_form { IfOk result (λ found. IfNone found ((c : NsConstraint) → ¬ (IsUnion self.now other.now c))) }
    {
        match self {
            NsConstraint::Any => Ok(Some(NsConstraint::Any)),
            NsConstraint::Not(excluded) => Ok(other.with_all_but(*excluded)),
            NsConstraint::In(listed) => match other {
                NsConstraint::Any => Ok(Some(NsConstraint::Any)),
                NsConstraint::Not(excluded) => Ok(self.with_all_but(*excluded)),
                NsConstraint::In(more) => {
                    let all = merged(alloc, listed.as_slice(), more.as_slice())?;
                    Ok(Some(NsConstraint::In(all)))
                }
            },
        }
    }

    /// Whether all that this admits is admitted by the other (Structures 3.10.6).
    pub fn subset(&self, other: &NsConstraint) -> bool
        ensures subset { IsTrue result ↔ IsSubset self.now other.now }
    {
        match self {
            NsConstraint::Any => other.is_any(),
            NsConstraint::Not(excluded) => other.has_all_but(*excluded),
            NsConstraint::In(listed) => other.has_all(listed.as_slice()),
        }
    }

    // Whether every namespace is admitted.
    fn is_any(&self) -> bool
        ensures { IsTrue result ↔ IsSubset Any self.now }
    {
        matches!(self, NsConstraint::Any)
    }

    // Whether every namespace but this one and the absent one is admitted.
    fn has_all_but(&self, excluded: NsId) -> bool
        ensures { IsTrue result ↔ IsSubset (Not excluded) self.now }
    {
        match self {
            NsConstraint::Any => true,
            NsConstraint::Not(other) => *other == excluded || *other == NsId::ABSENT,
            NsConstraint::In(_) => false,
        }
    }

    // Whether every namespace of the list is admitted.
    fn has_all(&self, listed: &[NsId]) -> bool
        ensures { result ≡ list_all (sets.admits self.now) listed.now }
    {
        listed.iter().all(|ns| self.admits(*ns))
    }

    // What this admits, but for one namespace and the absent one; `None` where that has no form.
    fn without(&self, alloc: Global, excluded: NsId) -> Result<Option<NsConstraint>, AllocError>
        ensures set { IfOk result (λ found. IfSome found (IsIntersection (Not excluded) self.now)) }
        ensures none { IfOk result (λ found. IsNone found ↔ HasNoIntersection (Not excluded) self.now) }
        ensures no_form { IfOk result (λ found. IfNone found ((c : NsConstraint) → ¬ (IsIntersection (Not excluded) self.now c))) }
    {
        match self {
            NsConstraint::Any => Ok(Some(NsConstraint::Not(excluded))),
            NsConstraint::Not(other) => Ok(both_excluded(excluded, *other)),
            NsConstraint::In(listed) => {
                let kept = NsConstraint::Not(excluded).admitted(alloc, listed.as_slice())?;
                Ok(Some(NsConstraint::In(kept)))
            }
        }
    }

    // The namespaces of the list that are admitted.
    fn admitted(&self, alloc: Global, listed: &[NsId]) -> Result<NsIdList, AllocError>
        ensures { IfOk result (λ kept. kept ≡ filter (sets.admits self.now) listed.now) }
    {
        let mut kept = Listed::new(alloc);
        for ns in listed {
            if self.admits(*ns) {
                kept.push(*ns)?;
            }
        }
        Ok(kept)
    }

    // What this admits, and every namespace but one and the absent one; `None` where that has no form.
    fn with_all_but(&self, excluded: NsId) -> Option<NsConstraint>
        ensures set { IfSome result (IsUnion (Not excluded) self.now) }
        ensures none { IsNone result ↔ ((excluded ≢ absent_space) × (sets.admits self.now absent_space ≡ true) × (sets.admits self.now excluded ≡ false)) }
        ensures no_form { IfNone result ((c : NsConstraint) → ¬ (IsUnion (Not excluded) self.now c)) }
    {
        match (self.admits(excluded), self.admits(NsId::ABSENT)) {
            (true, true) => Some(NsConstraint::Any),
            (true, false) => Some(NsConstraint::Not(NsId::ABSENT)),
            (false, true) => None,
            (false, false) => Some(NsConstraint::Not(excluded)),
        }
    }
}

// Whether the list has the namespace.
fn has_namespace(listed: &[NsId], ns: NsId) -> bool
    ensures { result ≡ has listed.now ns }
{
    listed.iter().any(|x| *x == ns)
}

// Every namespace but two and the absent one; `None` where that has no form.
fn both_excluded(first: NsId, second: NsId) -> Option<NsConstraint>
    ensures set { IfSome result (IsIntersection (Not first) (Not second)) }
    ensures none { IsNone result ↔ HasNoIntersection (Not first) (Not second) }
    ensures no_form { IfNone result ((c : NsConstraint) → ¬ (IsIntersection (Not first) (Not second) c)) }
{
    if first == second || second == NsId::ABSENT {
        return Some(NsConstraint::Not(first));
    }
    if first == NsId::ABSENT {
        return Some(NsConstraint::Not(second));
    }
    None
}

// The namespaces of one list and of another.
fn merged(alloc: Global, first: &[NsId], second: &[NsId]) -> Result<NsIdList, AllocError>
    ensures { IfOk result (λ all. all ≡ first.now ++ filter (λ ns. not (has first.now ns)) second.now) }
{
    let mut all = Listed::from_vec(first.to_vec(alloc)?);
    for ns in second {
        if !has_namespace(first, *ns) {
            all.push(*ns)?;
        }
    }
    Ok(all)
}

impl Drop for NsConstraint {
    fn drop(self) {
        match self {
            NsConstraint::Any => {}
            NsConstraint::Not(_) => {}
            NsConstraint::In(in_) => drop(in_),
        }
    }
}
