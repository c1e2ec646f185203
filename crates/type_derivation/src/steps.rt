ghost use Rattle.std.specs.Prelude.{◌≡◌};
ghost use Rattle.component_references.specs.Heights.{IsType};
ghost use Rattle.component_references.specs.Ranked.{IsRanked};
ghost use Rattle.type_derivation.specs.Derives as spec;

use xs_codes::Builtin;
use xs_components::{ComplexType, Components, Methods, SimpleForm, TypeId};

// The type that a built-in type is derived from.
fn builtin_base(of: Builtin) -> TypeId
    ensures { result ≡ spec.builtin_base of }
{
    match simple_values::base_of(of) {
        None => TypeId::AnyType,
        Some(base) => TypeId::Builtin(base),
    }
}

// The type that a simple type is derived from, by how it is made.
fn simple_base(form: &SimpleForm) -> TypeId
    ensures { result ≡ spec.simple_base form.now }
{
    match form {
        SimpleForm::Restrict { base, .. } => *base,
        SimpleForm::ListOf { .. } => TypeId::Builtin(Builtin::AnySimpleType),
        SimpleForm::UnionOf { .. } => TypeId::Builtin(Builtin::AnySimpleType),
    }
}

/// The member types of a union (Structures 3.14.1), or of the union that a type restricts; none of other types.
pub fn members_of(parts: &Components, of: TypeId) -> &[TypeId]
    requires ranked { IsRanked parts.now }
    requires there { IsType parts.now of }
    ensures { result.now ≡ spec.members_of parts.now of }
{
    let mut at = of;
    'up: while let TypeId::Simple(id) = at {
        match &parts.simple(id).form {
            SimpleForm::Restrict { base, .. } => at = *base,
            SimpleForm::ListOf { .. } => return &[],
            SimpleForm::UnionOf { members } => return members.as_slice(),
        }
    }
    &[]
}

// A type, unless the method is excluded.
fn unless(is_excluded: bool, base: TypeId) -> Option<TypeId>
    ensures { result ≡ spec.unless is_excluded base }
{
    if is_excluded { None } else { Some(base) }
}

// The base of a complex type that is not derived by one of these methods.
fn above_complex(part: &ComplexType, excluded: &Methods) -> Option<TypeId>
    ensures { result ≡ spec.above_complex excluded.now part.now }
{
    if part.by_extension {
        unless(excluded.extension, part.base)
    } else {
        unless(excluded.restriction, part.base)
    }
}

/// The type that a type is derived from (Structures 3.4.6, 3.14.6), where it is not by one of these methods; none for anyType.
pub fn above(parts: &Components, excluded: &Methods, of: &TypeId) -> Option<TypeId>
    requires { IsType parts.now of.now }
    ensures { result ≡ spec.above parts.now excluded.now of.now }
{
    match of {
        TypeId::AnyType => None,
        TypeId::Builtin(builtin) => unless(excluded.restriction, builtin_base(*builtin)),
        TypeId::Simple(id) => unless(excluded.restriction, simple_base(&parts.simple(*id).form)),
        TypeId::Complex(id) => above_complex(parts.complex(*id), excluded),
    }
}
