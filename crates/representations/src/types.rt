ghost use Rattle.std.specs.Prelude.{◌≡◌, IfOk, OnOk};
ghost use Rattle.std.specs.List.{flat_map};
ghost use Rattle.xs_names.specs.Names.{Grown};
ghost use Rattle.representations.specs.Named as named;
ghost use Rattle.representations.specs.Forms.{members_table};
ghost use Rattle.representations.specs.Naming.{with_reference, with_reference_if};
ghost use Rattle.representations.specs.Lasting.{IsLasting};
ghost use Rattle.representations.specs.Types as spec;

use crate::{Naming, TypeName};
use schema_values::SCHEMA_NAMESPACE;
use std::alloc::{AllocError, Global};
use tree_rows::Expanded;
use xs_codes::builtin_named;
use xs_lists::Listed;
use xs_names::Names;

// The type of this local name that every schema has.
fn own_type(local: &str) -> Option<TypeName>
    ensures { result ≡ spec.own_type local.now }
{
    if local == "anyType" {
        return Some(TypeName::AnyType);
    }
    match builtin_named(local) {
        None => None,
        Some(of) => Some(TypeName::Builtin(of)),
    }
}

// The type of this name that every schema has.
fn known_type(name: &Expanded) -> Option<TypeName>
    ensures { result ≡ spec.known_type name.now }
{
    match &name.namespace {
        None => None,
        Some(space) => {
            if space.as_str() == SCHEMA_NAMESPACE {
                own_type(name.local.as_str())
            } else {
                None
            }
        }
    }
}

/// The type of a name that is referred to.
pub(crate) fn type_name(
    naming: &Naming,
    names: &mut Names,
    name: &Expanded,
) -> Result<TypeName, AllocError>
    ensures table { OnOk result (names.new ≡ with_reference naming.now name.now names.old) }
    ensures of { IfOk result (IsLasting names.new (λ t. spec.type_name t naming.now name.now)) }
    ensures named { IfOk result (λ of. named.AreIn names.new (named.type_name of)) }
    ensures grown { Grown names.old names.new }
{
    let number = naming.refer(names, name)?;
    match known_type(name) {
        Some(known) => Ok(known),
        None => Ok(TypeName::Named(number)),
    }
}

/// The type of a name that may be referred to.
pub(crate) fn type_name_if(
    naming: &Naming,
    names: &mut Names,
    name: &Option<Expanded>,
) -> Result<Option<TypeName>, AllocError>
    ensures table { OnOk result (names.new ≡ with_reference_if naming.now name.now names.old) }
    ensures of { IfOk result (IsLasting names.new (λ t. spec.type_name_if t naming.now name.now)) }
    ensures named { IfOk result (λ of. named.AreIn names.new (named.given_type of)) }
    ensures grown { Grown names.old names.new }
{
    match name {
        None => Ok(None),
        Some(name) => Ok(Some(type_name(naming, names, name)?)),
    }
}

/// The types of names that are referred to.
pub(crate) fn type_names(
    alloc: Global,
    naming: &Naming,
    names: &mut Names,
    referred: &[Expanded],
) -> Result<Listed<TypeName>, AllocError>
    ensures table { OnOk result (names.new ≡ members_table naming.now referred.now names.old) }
    ensures of { IfOk result (IsLasting names.new (λ t. spec.type_names t naming.now referred.now)) }
    ensures named { IfOk result (λ found. named.AreIn names.new (flat_map named.type_name found)) }
    ensures grown { Grown names.old names.new }
{
    let mut found = Listed::new(alloc);
    for name in referred {
        found.push(type_name(naming, names, name)?)?;
    }
    Ok(found)
}
