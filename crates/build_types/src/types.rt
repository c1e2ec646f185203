ghost use Rattle.std.specs.Prelude.{◌≡◌};
ghost use Rattle.build_types.specs.Types as spec;

use representations::{Source, TypeName, first_type};
use xs_components::TypeId;

/// The type at a place, anyType where there is none.
pub fn type_at(types: &[TypeId], place: u32) -> TypeId
    ensures of { result ≡ spec.type_at types.now place }
{
    match types.get(place as usize) {
        None => TypeId::AnyType,
        Some(of) => *of,
    }
}

/// The type that a name means, anyType where it means none.
pub fn meant_type(source: &Source, types: &[TypeId], name: TypeName) -> TypeId
    ensures of { result ≡ spec.meant_type source.now types.now name }
{
    match name {
        TypeName::AnyType => TypeId::AnyType,
        TypeName::Builtin(of) => TypeId::Builtin(of),
        TypeName::Named(name) => match source.spaces.types.first(name) {
            None => TypeId::AnyType,
            Some(place) => type_at(types, place),
        },
    }
}

/// The first type among members.
pub fn child_type(source: &Source, types: &[TypeId], members: &[u32]) -> Option<TypeId>
    ensures of { result ≡ spec.child_type source.now types.now members.now }
{
    match first_type(source.reps, members) {
        None => None,
        Some(place) => Some(type_at(types, place)),
    }
}

/// The type of a name, or without one the first type among members.
pub fn given_type(
    source: &Source,
    types: &[TypeId],
    name: Option<TypeName>,
    members: &[u32],
) -> Option<TypeId>
    ensures of { result ≡ spec.given_type source.now types.now name members.now }
{
    match name {
        Some(name) => Some(meant_type(source, types, name)),
        None => child_type(source, types, members),
    }
}
