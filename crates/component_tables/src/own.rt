//! The types of every schema.

ghost use Rattle.std.specs.Prelude.{◌≡◌};
ghost use Rattle.component_tables.specs.Named as spec;

use xs_codes::builtin_named;
use xs_components::TypeId;

/// The type of every schema that has this local name in the namespace of schema documents.
pub(crate) fn own_type(local: &str) -> Option<TypeId>
    ensures { result ≡ spec.own_type local.now }
{
    if local == "anyType" {
        return Some(TypeId::AnyType);
    }
    match builtin_named(local) {
        None => None,
        Some(builtin) => Some(TypeId::Builtin(builtin)),
    }
}
