//! The numbers of names that stand in the table.

ghost use Rattle.std.specs.Prelude.{◌≡◌, IfOk, IsSome, Some};
ghost use Rattle.xs_names.specs.Names.{space_number};
ghost use Rattle.assess_records.specs.Numbered.{space_in, name_in};
ghost use Rattle.plain_tree.specs.Found.{HasSpace, HasName};

use std::alloc::AllocError;
use tree_rows::Expanded;
use xs_names::{NameId, Names, NsId, Text};

/// The number of a namespace of the table.
pub(crate) fn known_space(names: &mut Names, space: &str) -> Result<NsId, AllocError>
    requires { IsSome (space_number names.old space.now) }
    ensures number { IfOk result (λ ns. ns ≡ space_in names.old (Some space.now)) }
    ensures same { names.new ≡ names.old }
{
    let number = names.namespace_id(space)?;
    Ok(number)
}

// The number of the namespace of a name of the table.
fn namespace_of(names: &mut Names, space: &Option<Text>) -> Result<NsId, AllocError>
    requires { HasSpace names.old space.now }
    ensures number { IfOk result (λ ns. ns ≡ space_in names.old space.now) }
    ensures same { names.new ≡ names.old }
{
    match space {
        None => Ok(NsId::ABSENT),
        Some(space) => known_space(names, space.as_str()),
    }
}

/// The number of a name of the table.
pub(crate) fn known_name(names: &mut Names, name: &Expanded) -> Result<NameId, AllocError>
    requires { HasName names.old name.now }
    ensures number { IfOk result (λ id. id ≡ name_in names.old name.now) }
    ensures same { names.new ≡ names.old }
{
    let space = namespace_of(names, &name.namespace)?;
    match names.lookup(space, name.local.as_str()) {
        Some(id) => Ok(id),
        None => unreachable!(),
    }
}
