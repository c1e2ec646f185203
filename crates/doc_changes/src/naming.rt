//! Names and namespaces between texts and the numbers of a table.

ghost use Rattle.std.specs.Prelude.{◌≡◌, ◌<◌, length, map, slice_index_or, All, IfOk, IsSome};
ghost use Rattle.xs_names.specs.Names.{Grown, IsSound, space_number};
ghost use Rattle.tree_rows.specs.Whole.{IsNamespace, AreNamespaces, IsNamed};
ghost use Rattle.doc_changes.specs.Named.{IsCalled, HasAttributes, HasBindings};
ghost use Rattle.doc_changes.specs.Stands.{expanded_of, attribute_of, binding_of};
ghost use Rattle.doc_changes.specs.Named as texts;
ghost use Rattle.plain_tree.specs.Found as found;

use doc_nodes::{Element, NameAttribute, NameBinding};
use std::alloc::{AllocError, Global};
use tree_rows::{Attribute, Binding, Expanded, Row};
use xs_lists::Listed;
use xs_names::{NameId, Names, Text};

/// The text by which a table numbers a namespace.
fn space_text(space: &Option<Text>) -> &str
    ensures { result.now ≡ texts.space_text space.now }
{
    match space {
        None => "",
        Some(name) => name.as_str(),
    }
}

/// The number of an expanded name.
pub(crate) fn name_id(names: &mut Names, name: &Expanded) -> Result<NameId, AllocError>
    requires { IsNamespace name.now.namespace }
    ensures name { IfOk result (λ n. expanded_of names.new n ≡ name.now) }
    ensures within { IfOk result (λ n. n < length names.new.names) }
    ensures grown { Grown names.old names.new }
    ensures known { IsSound names.old → found.HasName names.old name.now → names.new ≡ names.old }
    ensures sound { IsSound names.new }
{
    let space = names.namespace_id(space_text(&name.namespace))?;
    let number = names.intern(space, name.local.as_str())?;
    Ok(number)
}

/// An attribute under the number of its name.
fn name_attribute(names: &mut Names, attribute: &Attribute) -> Result<NameAttribute, AllocError>
    requires { IsNamespace attribute.now.name.namespace }
    ensures attribute { IfOk result (λ a. attribute_of names.new a ≡ attribute.now) }
    ensures within { IfOk result (λ a. a.name < length names.new.names) }
    ensures grown { Grown names.old names.new }
    ensures known { IsSound names.old → found.HasName names.old attribute.now.name → names.new ≡ names.old }
    ensures sound { IsSound names.new }
{
    let name = name_id(names, &attribute.name)?;
    let value = attribute.value.try_clone()?;
    Ok(NameAttribute { name, value })
}

/// A binding under the number of its namespace.
fn name_binding(names: &mut Names, binding: &Binding) -> Result<NameBinding, AllocError>
    ensures binding { IfOk result (λ b. binding_of names.new b ≡ binding.now) }
    ensures within { IfOk result (λ b. b.namespace < length names.new.spaces) }
    ensures grown { Grown names.old names.new }
    ensures known { IsSome (space_number names.old binding.now.namespace) → names.new ≡ names.old }
    ensures sound { IsSound names.new }
{
    let namespace = names.namespace_id(binding.namespace.as_str())?;
    let prefix = binding.prefix.try_clone()?;
    Ok(NameBinding { prefix, namespace })
}

/// The attributes of an element under the numbers of their names.
fn name_attributes(
    alloc: Global,
    names: &mut Names,
    attributes: &[Attribute],
) -> Result<Listed<NameAttribute>, AllocError>
    requires namespaces { AreNamespaces attributes.now }
    requires sound { IsSound names.old }
    ensures named { IfOk result (λ made. HasAttributes names.new made attributes.now) }
    ensures grown { Grown names.old names.new }
    ensures known { found.HasAttributes names.old attributes.now → names.new ≡ names.old }
    ensures sound { IsSound names.new }
{
    let mut made = Listed::from_vec(Vec::with_capacity(alloc, attributes.len())?);
    for attribute in attributes {
        let named = name_attribute(names, attribute)?;
        made.push(named)?;
    }
    Ok(made)
}

/// The bindings of an element under the numbers of their namespaces.
fn name_bindings(
    alloc: Global,
    names: &mut Names,
    bindings: &[Binding],
) -> Result<Listed<NameBinding>, AllocError>
    requires sound { IsSound names.old }
    ensures named { IfOk result (λ made. HasBindings names.new made bindings.now) }
    ensures grown { Grown names.old names.new }
    ensures known { found.HasBindings names.old bindings.now → names.new ≡ names.old }
    ensures sound { IsSound names.new }
{
    let mut made = Listed::from_vec(Vec::with_capacity(alloc, bindings.len())?);
    for binding in bindings {
        let named = name_binding(names, binding)?;
        made.push(named)?;
    }
    Ok(made)
}

/// What an element of this name holds, under the numbers of its names.
pub(crate) fn name_element(
    alloc: Global,
    names: &mut Names,
    name: &Expanded,
    row: &Row,
) -> Result<Element, AllocError>
    requires { IsNamed name.now row.now.bindings row.now.attributes }
    ensures called { IfOk result (λ e. IsCalled names.new e name.now row.now.bindings row.now.attributes) }
    ensures grown { Grown names.old names.new }
    ensures known { IsSound names.old → found.HasTag names.old name.now row.now.bindings row.now.attributes → names.new ≡ names.old }
    ensures sound { IsSound names.new }
{
    let number = name_id(names, name)?;
    let bindings = name_bindings(alloc, names, row.bindings.as_slice())?;
    let attributes = name_attributes(alloc, names, row.attributes.as_slice())?;
    Ok(Element {
        name: number,
        bindings,
        attributes,
    })
}
