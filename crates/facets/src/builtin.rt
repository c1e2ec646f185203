//! The facets of the built-in types.
ghost use Rattle.std.specs.Prelude.{◌≡◌};
ghost use Rattle.facets.specs.BuiltIn as spec;

use dec_value::Dec;
use facet_checks::{Bound, FacetList, Handling};
use simple_values::{Atom, Value, bounds_of, white_space_of};
use std::alloc::Global;
use xs_codes::Builtin;

/// The facets of a built-in type: what it does with white space, and the bounds of the types of integers. None is fixed.
pub(crate) fn facets_of(alloc: Global, kind: Builtin) -> FacetList
    ensures { result ≡ spec.facets_of kind }
{
    let bounds = bounds_of(kind);
    FacetList {
        white_space: Some(Handling {
            value: white_space_of(kind),
            fixed: false,
        }),
        max_inclusive: bound_at(kind, bounds.greatest),
        min_inclusive: bound_at(kind, bounds.least),
        ..FacetList::new(alloc)
    }
}

/// The bound at a number.
pub(crate) fn bound_at(kind: Builtin, number: Option<Dec>) -> Option<Bound>
    ensures { result ≡ spec.bound_at kind number }
{
    match number {
        Some(number) => Some(Bound {
            value: Value::Atom {
                builtin: kind,
                atom: Atom::Number(number),
            },
            fixed: false,
        }),
        None => None,
    }
}
