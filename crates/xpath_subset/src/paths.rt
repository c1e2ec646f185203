//! The paths of an identity constraint.

ghost use Rattle.std.specs.Prelude.{◌≡◌};
ghost use Rattle.xs_components.specs.declared.constraint.Constraint.{Constraint};
ghost use Rattle.xpath_subset.specs.Reads.{ArePathsOf};
ghost use Rattle.xpath_subset.specs.declared.paths.IdentityPaths.{IdentityPaths as IdentityPathsData};

use crate::Paths;
use xs_lists::Listed;

/// The paths of an identity constraint, read in the scopes of the elements in which they are written.
pub struct IdentityPaths {
    /// Those of the selector.
    pub selector: Paths,
    /// Those of each field, in order.
    pub fields: Listed<Paths>,
}

/// A constraint is read in one way.
pub fn paths_go_by_the_constraint()
    ensures one { (c : Constraint) (one other : IdentityPathsData) → ArePathsOf c one → ArePathsOf c other → one ≡ other }
{}

impl Drop for IdentityPaths {
    fn drop(self) {
        let IdentityPaths { selector, fields } = self;
        drop(selector);
        drop(fields);
    }
}
