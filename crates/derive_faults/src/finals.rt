ghost use Rattle.std.specs.Prelude.{◌≡◌};
ghost use Rattle.component_references.specs.Heights.{IsType};
ghost use Rattle.derive_faults.specs.Finals as spec;

use xs_components::{Components, Methods, TypeId};

/// The methods by which no type is derived from a type (Structures 3.4.1, 3.14.1).
pub fn finals_of(parts: &Components, of: TypeId) -> Methods
    requires there { IsType parts.now of }
    ensures finals { result ≡ spec.finals_of parts.now of }
{
    match of {
        TypeId::AnyType | TypeId::Builtin(_) => no_methods(),
        TypeId::Simple(id) => parts.simple(id).finals,
        TypeId::Complex(id) => parts.complex(id).finals,
    }
}

/// No methods.
pub fn no_methods() -> Methods
    ensures { result ≡ spec.no_methods }
{
    Methods {
        extension: false,
        restriction: false,
        substitution: false,
        by_list: false,
        by_union: false,
    }
}
