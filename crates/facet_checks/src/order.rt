//! The order of values.
ghost use Rattle.std.specs.Prelude.{◌≡◌};
ghost use Rattle.facet_checks.specs.Order as spec;

use simple_values::{Value, less, same};

/// Whether a value is less than another, where that is decided.
pub fn is_below(a: &Value, b: &Value) -> bool
    ensures { result ≡ spec.is_below a.now b.now }
{
    matches!(less(a, b), Some(true))
}

/// Whether a value is less than another or the same.
pub fn is_at_most(a: &Value, b: &Value) -> bool
    ensures { result ≡ spec.is_at_most a.now b.now }
{
    is_below(a, b) || same(a, b)
}
