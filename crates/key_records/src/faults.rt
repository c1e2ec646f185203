//! Counts of the faults of targets.

ghost use Rattle.std.specs.Prelude.{◌≡◌, ℕ, IfSome, OnOk};
ghost use Rattle.key_records.specs.declared.faults.Faults.{Faults};
ghost use Rattle.key_records.specs.Faults.{AreMoreFaults, Sets, faults_at, has_none, more_faults, no_faults};

use std::alloc::{AllocError, Global};
use std::collections::HashMap;

// An element with constraints, and one of them.
#[derive(Clone, Copy, PartialEq, Eq, Hash)]
struct ScopeId {
    scope: u32,
    constraint: u32,
}

/// How many targets have each fault (cvc-identity-constraint.3, .4.2.1, .4.2.3).
#[derive(Clone, Copy)]
pub(crate) struct Faults {
    pub misused: u32,
    pub lacking: u32,
    pub nillable: u32,
}

/// Which faults a target has.
#[derive(Clone, Copy)]
pub(crate) struct TargetFaults {
    pub misused: bool,
    pub lacking: bool,
    pub nillable: bool,
}

/// The faults of targets, by scope and constraint.
#[derive(Drop)]
pub(crate) struct FaultCounts {
    counts: HashMap<ScopeId, Faults>,
}

impl Faults {
    // These and those of one target more; `None` where there would be more than 4,294,967,295.
    fn with(self, found: TargetFaults) -> Option<Faults>
        ensures { IfSome result (λ more. more ≡ more_faults self found) }
    {
        let misused = self.misused.checked_add(u32::from(found.misused))?;
        let lacking = self.lacking.checked_add(u32::from(found.lacking))?;
        let nillable = self.nillable.checked_add(u32::from(found.nillable))?;
        Some(Faults {
            misused,
            lacking,
            nillable,
        })
    }

    // These without those of one target, which are among them.
    fn without(self, found: TargetFaults) -> Faults
        requires { (fewer : Faults) × (self ≡ more_faults fewer found) }
        ensures { self ≡ more_faults result found }
    {
        Faults {
            misused: self.misused - u32::from(found.misused),
            lacking: self.lacking - u32::from(found.lacking),
            nillable: self.nillable - u32::from(found.nillable),
        }
    }
}

impl TargetFaults {
    // Whether there is none.
    fn is_none(self) -> bool
        ensures { result ≡ has_none self }
    {
        !self.misused && !self.lacking && !self.nillable
    }
}

impl FaultCounts {
    /// No faults.
    pub(crate) fn new(alloc: Global) -> Self
        ensures { (scope constraint : ℕ) → faults_at result scope constraint ≡ no_faults }
    {
        FaultCounts {
            counts: HashMap::new(alloc),
        }
    }

    /// The faults of the targets of a constraint of an element.
    pub(crate) fn at(&self, scope: u32, constraint: u32) -> Faults
        ensures { result ≡ faults_at self.now scope constraint }
    {
        self.counts
            .get(&ScopeId { scope, constraint })
            .copied()
            .unwrap_or(Faults {
                misused: 0,
                lacking: 0,
                nillable: 0,
            })
    }

    // Other faults of the targets of a constraint of an element.
    fn set(&mut self, scope: u32, constraint: u32, faults: Faults) -> Result<(), AllocError>
        ensures { OnOk result (Sets self.old self.new scope constraint faults) }
    {
        self.counts.insert(ScopeId { scope, constraint }, faults)?;
        Ok(())
    }

    /// Counts the faults of one target more.
    pub(crate) fn add(
        &mut self,
        scope: u32,
        constraint: u32,
        found: TargetFaults,
    ) -> Result<(), AllocError>
        ensures { OnOk result (AreMoreFaults self.old self.new scope constraint found) }
    {
        if found.is_none() {
            return Ok(());
        }
        let Some(more) = self.at(scope, constraint).with(found) else {
            return Err(AllocError);
        };
        self.set(scope, constraint, more)?;
        Ok(())
    }

    /// Counts the faults of a target no more.
    pub(crate) fn remove(
        &mut self,
        scope: u32,
        constraint: u32,
        found: TargetFaults,
    ) -> Result<(), AllocError>
        requires { (fewer : Faults) × (faults_at self.old scope constraint ≡ more_faults fewer found) }
        ensures { OnOk result (AreMoreFaults self.new self.old scope constraint found) }
    {
        if found.is_none() {
            return Ok(());
        }
        let fewer = self.at(scope, constraint).without(found);
        self.set(scope, constraint, fewer)?;
        Ok(())
    }
}
