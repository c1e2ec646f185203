ghost use Rattle.std.specs.Prelude.{◌≡◌, IfOk};
ghost use Rattle.std.specs.List.{list_any};
ghost use Rattle.schema_faults.specs.Faults.{first_broken, unsupported_tests};
ghost use Rattle.schema_faults.specs.Unsupported as spec;

use schema_values::{AttributeName, Kind, SCHEMA_NAMESPACE, name_of, names_of, value_of};
use std::alloc::{AllocError, Global};
use tag_names::Prefixes;
use tree_rows::{Attribute, Expanded};
use xs_codes::Code;
use xs_lists::Listed;

/// The types that an element refers to.
#[derive(Drop)]
pub(crate) struct TypeNames {
    pub of: Option<Expanded>,
    pub base: Option<Expanded>,
    pub item: Option<Expanded>,
    pub members: Listed<Expanded>,
}

/// Whether the name is of this built-in type.
fn is_builtin(local: &str, name: &Expanded) -> bool
    ensures { result ≡ spec.is_builtin local.now name.now }
{
    match &name.namespace {
        None => false,
        Some(space) => space.as_str() == SCHEMA_NAMESPACE && name.local.as_str() == local,
    }
}

/// Whether there is a name, and it is of this built-in type.
fn names_this(local: &str, name: &Option<Expanded>) -> bool
    ensures { result ≡ spec.names_this local.now name.now }
{
    match name {
        None => false,
        Some(name) => is_builtin(local, name),
    }
}

/// The types that an element refers to.
pub(crate) fn type_names(
    alloc: Global,
    scope: &Prefixes,
    attributes: &[Attribute],
) -> Result<TypeNames, AllocError>
    ensures { IfOk result (λ names. names ≡ spec.type_names scope.now attributes.now) }
{
    Ok(TypeNames {
        of: name_of(alloc, AttributeName::Type, scope, attributes)?,
        base: name_of(alloc, AttributeName::Base, scope, attributes)?,
        item: name_of(alloc, AttributeName::ItemType, scope, attributes)?,
        members: names_of(alloc, AttributeName::MemberTypes, scope, attributes)?,
    })
}

/// Whether one of the members is of this built-in type.
fn any_builtin(local: &str, members: &[Expanded]) -> bool
    ensures { result ≡ list_any (spec.is_builtin local.now) members.now }
{
    members.iter().any(|name| is_builtin(local, name))
}

/// Whether a type reference names this built-in type.
fn names_builtin(local: &str, names: &TypeNames) -> bool
    ensures { result ≡ spec.names_builtin local.now names.now }
{
    names_this(local, &names.of)
        || (names_this(local, &names.base)
            || (names_this(local, &names.item) || any_builtin(local, names.members.as_slice())))
}

/// The code of the first built-in type that is not supported and that a type reference names.
#[tactic(auto, unfolding(crate::specs::Faults::unsupported_tests))]
pub(crate) fn unsupported_type(names: &TypeNames) -> Option<Code>
    ensures { result ≡ first_broken (unsupported_tests names.now) }
{
    if names_builtin("float", names) {
        return Some(Code::XUnsupportedFloat);
    }
    if names_builtin("double", names) {
        return Some(Code::XUnsupportedDouble);
    }
    if names_builtin("ENTITY", names) {
        return Some(Code::XUnsupportedEntity);
    }
    if names_builtin("ENTITIES", names) {
        return Some(Code::XUnsupportedEntities);
    }
    if names_builtin("NOTATION", names) {
        return Some(Code::XUnsupportedNotationType);
    }
    None
}

/// Whether the target namespace is that of schema documents.
pub(crate) fn has_schema_target(
    alloc: Global,
    kind: Kind,
    attributes: &[Attribute],
) -> Result<bool, AllocError>
    ensures { IfOk result (λ found. found ≡ spec.has_schema_target kind attributes.now) }
{
    match kind {
        Kind::Schema => match value_of(alloc, AttributeName::TargetNamespace, attributes)? {
            None => Ok(false),
            Some(target) => Ok(target.as_str() == SCHEMA_NAMESPACE),
        },
        _ => Ok(false),
    }
}
