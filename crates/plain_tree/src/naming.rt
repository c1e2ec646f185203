//! The names of a document, put into a table.

ghost use Rattle.std.specs.Prelude.{◌≡◌, ◌<◌, length, IfOk, OnOk};
ghost use Rattle.xs_names.specs.Names.{Grown, IsSound};
ghost use Rattle.plain_tree.specs.Numbers.{space_in, name_in};
ghost use Rattle.plain_tree.specs.Table.{with_namespace, with_expanded, with_bindings, with_attributes, document_table};
ghost use Rattle.plain_tree.specs.inside.Rows.{with_row};

use crate::Tree;
use std::alloc::AllocError;
use tree_rows::{Attribute, Binding, Content, Expanded, Row};
use xs_names::{NameId, Names, NsId, Text};

// The number of a namespace, which is the next number where it was not there.
fn add_namespace(names: &mut Names, space: &Option<Text>) -> Result<NsId, AllocError>
    requires sound { IsSound names.old }
    ensures number { IfOk result (λ ns. ns ≡ space_in names.new space.now) }
    ensures within { IfOk result (λ ns. ns < length names.new.spaces) }
    ensures table { OnOk result (names.new ≡ with_namespace names.old space.now) }
    ensures grown { Grown names.old names.new }
    ensures sound { IsSound names.new }
{
    match space {
        None => Ok(NsId::ABSENT),
        Some(space) => names.namespace_id(space.as_str()),
    }
}

/// Adds an expanded name (Namespaces in XML 1.0, 2.1), and answers its number. Where it was there, it keeps its number.
///
/// # Errors
///
/// `AllocError` is want of memory. The namespace of the name may then have been added.
pub fn add_name(names: &mut Names, name: &Expanded) -> Result<NameId, AllocError>
    requires sound { IsSound names.old }
    ensures number { IfOk result (λ id. id ≡ name_in names.new name.now) }
    ensures table { OnOk result (names.new ≡ with_expanded names.old name.now) }
    ensures grown { Grown names.old names.new }
    ensures sound { IsSound names.new }
{
    let space = add_namespace(names, &name.namespace)?;
    let number = names.intern(space, name.local.as_str())?;
    Ok(number)
}

// Adds the namespaces of bindings.
fn add_bindings(names: &mut Names, bindings: &[Binding]) -> Result<(), AllocError>
    requires sound { IsSound names.old }
    ensures table { OnOk result (names.new ≡ with_bindings names.old bindings.now) }
    ensures grown { Grown names.old names.new }
    ensures sound { IsSound names.new }
{
    for binding in bindings {
        names.namespace_id(binding.namespace.as_str())?;
    }
    Ok(())
}

// Adds the names of attributes.
fn add_attributes(names: &mut Names, attributes: &[Attribute]) -> Result<(), AllocError>
    requires sound { IsSound names.old }
    ensures table { OnOk result (names.new ≡ with_attributes names.old attributes.now) }
    ensures grown { Grown names.old names.new }
    ensures sound { IsSound names.new }
{
    for attribute in attributes {
        add_name(names, &attribute.name)?;
    }
    Ok(())
}

// Adds the names of a start tag; a text has none.
fn add_row(names: &mut Names, row: &Row) -> Result<(), AllocError>
    requires sound { IsSound names.old }
    ensures table { OnOk result (names.new ≡ with_row names.old row.now) }
    ensures grown { Grown names.old names.new }
    ensures sound { IsSound names.new }
{
    if let Content::Element(name) = &row.content {
        add_bindings(names, row.bindings.as_slice())?;
        add_name(names, name)?;
        add_attributes(names, row.attributes.as_slice())?;
    }
    Ok(())
}

/// Adds the names that stand in a document, in document order: the namespaces of bindings, the names of elements and those of
/// attributes (Namespaces in XML 1.0, 2.1). Those that are there keep their numbers.
///
/// # Errors
///
/// `AllocError` is want of memory. Some names may then have been added.
pub fn add_names(names: &mut Names, tree: &Tree) -> Result<(), AllocError>
    requires sound { IsSound names.old }
    ensures table { OnOk result (names.new ≡ document_table names.old tree.now.forest) }
    ensures grown { Grown names.old names.new }
    ensures sound { IsSound names.new }
{
    for row in tree.rows() {
        add_row(names, row)?;
    }
    Ok(())
}
