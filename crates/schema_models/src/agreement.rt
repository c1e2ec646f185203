//! Whether names have one type each.

ghost use Rattle.std.specs.Prelude.{◌≡◌, ◌↔◌, IsTrue, nat_eq, IfOk};
ghost use Rattle.std.specs.HashMap.{get};
ghost use Rattle.schema_models.specs.Consistency.{Agree};
ghost use Rattle.schema_models.specs.Found.{Notes};

use std::alloc::{AllocError, Global};
use std::collections::HashMap;
use xs_components::TypeId;
use xs_names::NameId;

/// A name, and the type of a declaration with this name.
#[derive(Clone, Copy)]
pub(crate) struct TypedName {
    pub(crate) name: NameId,
    pub(crate) of: TypeId,
}

/// Whether those with the same name have the same type.
pub(crate) fn agree(alloc: Global, given: &[TypedName]) -> Result<bool, AllocError>
    ensures { IfOk result (λ agrees. IsTrue agrees ↔ Agree given.now) }
{
    let mut types = HashMap::new(alloc);
    for one in given {
        if !note(&mut types, *one)? {
            return Ok(false);
        }
    }
    Ok(true)
}

// Notes the type of a name, and answers whether no other was noted.
fn note(types: &mut HashMap<NameId, TypeId>, one: TypedName) -> Result<bool, AllocError>
    ensures { IfOk result (Notes (get nat_eq types.old) (get nat_eq types.new) one) }
{
    match type_in(types, one.name) {
        Some(of) => Ok(is_same(of, one.of)),
        None => {
            types.insert(one.name, one.of)?;
            Ok(true)
        }
    }
}

// Whether the types are the same.
fn is_same(one: TypeId, other: TypeId) -> bool
    ensures { IsTrue result ↔ (one ≡ other) }
{
    one == other
}

// The type that was noted for a name.
fn type_in(types: &HashMap<NameId, TypeId>, name: NameId) -> Option<TypeId>
    ensures { result ≡ get nat_eq types.now name }
{
    types.get(&name).copied()
}
