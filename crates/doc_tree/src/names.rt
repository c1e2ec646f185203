//! Names and namespaces from the numbers of a table to texts.

ghost use Rattle.std.specs.Prelude.{◌≡◌, ◌<◌, [], length, map, slice_index_or, All, IfOk};
ghost use Rattle.doc_changes.specs.Stands.{expanded_of, namespace_of, attribute_of, binding_of};

use doc_nodes::{NameAttribute, NameBinding};
use std::alloc::{AllocError, Global};
use tree_rows::{Attribute, Attributes, Binding, Bindings, Expanded};
use xs_names::{NameId, Names, NsId, Text};

/// The name of a namespace, none for the absent one.
fn space_name(alloc: Global, names: &Names, space: NsId) -> Result<Option<Text>, AllocError>
    requires { space < length names.now.spaces }
    ensures { IfOk result (λ name. name ≡ namespace_of names.now space) }
{
    match names.ns_text(space) {
        None => Ok(None),
        Some(name) => Ok(Some(Text::new(alloc, name)?)),
    }
}

/// The expanded name of a number.
pub(crate) fn expanded_name(
    alloc: Global,
    names: &Names,
    name: NameId,
) -> Result<Expanded, AllocError>
    requires { name < length names.now.names }
    ensures { IfOk result (λ expanded. expanded ≡ expanded_of names.now name) }
{
    let namespace = space_name(alloc, names, names.ns(name))?;
    let local = Text::new(alloc, names.local(name))?;
    Ok(Expanded { namespace, local })
}

/// An attribute by the text of its name.
fn read_attribute(
    alloc: Global,
    names: &Names,
    attribute: &NameAttribute,
) -> Result<Attribute, AllocError>
    requires { attribute.now.name < length names.now.names }
    ensures { IfOk result (λ read. read ≡ attribute_of names.now attribute.now) }
{
    let name = expanded_name(alloc, names, attribute.name)?;
    let value = attribute.value.try_clone()?;
    Ok(Attribute { name, value })
}

/// The text of a namespace, which is empty for the absent one.
fn space_text(alloc: Global, names: &Names, space: NsId) -> Result<Text, AllocError>
    requires { space < length names.now.spaces }
    ensures { IfOk result (λ text. text ≡ slice_index_or names.now.spaces space []) }
{
    match names.ns_text(space) {
        None => Text::new(alloc, ""),
        Some(name) => Text::new(alloc, name),
    }
}

/// A binding by the name of its namespace.
fn read_binding(alloc: Global, names: &Names, binding: &NameBinding) -> Result<Binding, AllocError>
    requires { binding.now.namespace < length names.now.spaces }
    ensures { IfOk result (λ read. read ≡ binding_of names.now binding.now) }
{
    let namespace = space_text(alloc, names, binding.namespace)?;
    let prefix = binding.prefix.try_clone()?;
    Ok(Binding { prefix, namespace })
}

/// The attributes of an element by the texts of their names.
pub(crate) fn read_attributes(
    alloc: Global,
    names: &Names,
    attributes: &[NameAttribute],
) -> Result<Attributes, AllocError>
    requires { All (λ a. a.name < length names.now.names) attributes.now }
    ensures { IfOk result (λ read. read ≡ map (attribute_of names.now) attributes.now) }
{
    let mut read = Attributes::new(alloc);
    for attribute in attributes {
        read.push(read_attribute(alloc, names, attribute)?)?;
    }
    Ok(read)
}

/// The bindings of an element by the names of their namespaces.
pub(crate) fn read_bindings(
    alloc: Global,
    names: &Names,
    bindings: &[NameBinding],
) -> Result<Bindings, AllocError>
    requires { All (λ b. b.namespace < length names.now.spaces) bindings.now }
    ensures { IfOk result (λ read. read ≡ map (binding_of names.now) bindings.now) }
{
    let mut read = Bindings::new(alloc);
    for binding in bindings {
        read.push(read_binding(alloc, names, binding)?)?;
    }
    Ok(read)
}
