//! The names of an edit, resolved in the scope of an element.

ghost use Rattle.std.specs.Prelude.{◌≡◌, ◌<◌, ◌≤◌, ◌+◌, ◌^◌, All, length, Some, Ok, OnOk, IfOk, IfErr};
ghost use Rattle.xs_names.specs.Names.{NameTable};
ghost use Rattle.tree_rows.specs.Forest.{Document};
ghost use Rattle.tree_rows.specs.Naming.{same_name, same_space};
ghost use Rattle.tree_rows.specs.declared.limits.TheConstants.{MAX_ATTRIBUTES};
ghost use Rattle.tree_rows.specs.declared.row.NodeKind.TheVariants as kinds;
ghost use Rattle.tag_names.specs.Resolving.{element_resolved, attribute_resolved};
ghost use Rattle.tree_edits.specs.Edits.{names_scope};
ghost use Rattle.tree_edits.specs.declared.edit.EditError.TheVariants.{TooManyAttributes};
ghost use Rattle.doc_changes.specs.Stands.{StandsFor, namespace_of, expanded_of};
ghost use Rattle.doc_changes.specs.Held.{kind_at, attributes_at, bindings_at};
ghost use Rattle.doc_changes.specs.Held as held;
ghost use Rattle.doc_edits.specs.inside.Tested.{IsReason, IsAmong, IsThere};

use doc_nodes::{Content, NameAttribute};
use doc_tree::DocTree;
use std::alloc::{AllocError, Global};
use tag_names::Prefixes;
use tree_edits::EditError;
use tree_rows::{Expanded, MAX_ATTRIBUTES};
use xs_names::{NameId, Names, NsId, Text, TextPool};

/// The scope inside of an element, by the names of namespaces.
pub(crate) fn scope_inside(
    alloc: Global,
    doc: &DocTree,
    names: &Names,
    node: u32,
) -> Result<Prefixes, AllocError>
    requires stands { (d : Document) × StandsFor names.now doc.now d }
    requires element { kind_at doc.now node ≡ Some kinds.Element }
    ensures { IfOk result (λ scope. (d : Document) → StandsFor names.now doc.now d → scope ≡ names_scope d node) }
{
    let scope = doc.scope_of(names, node)?;
    Prefixes::of_scope(alloc, names, &scope)
}

/// The expanded name that an element gets.
pub(crate) fn element_named(
    alloc: Global,
    doc: &DocTree,
    names: &Names,
    node: u32,
    name: &Text,
) -> Result<Expanded, EditError>
    requires stands { (d : Document) × StandsFor names.now doc.now d }
    requires element { kind_at doc.now node ≡ Some kinds.Element }
    ensures ok { IfOk result (λ own. (d : Document) → StandsFor names.now doc.now d → element_resolved (names_scope d node) name.now ≡ Ok own) }
    ensures err { IfErr result (λ e. (d : Document) → StandsFor names.now doc.now d → IsReason (element_resolved (names_scope d node) name.now) e) }
{
    let scope = scope_inside(alloc, doc, names, node)?;
    let mut pool = TextPool::new(alloc);
    let resolved = scope.element_name(&mut pool, name.as_str())?;
    let own = resolved?;
    Ok(own)
}

/// The expanded name of an attribute of an element.
pub(crate) fn attribute_named(
    alloc: Global,
    doc: &DocTree,
    names: &Names,
    node: u32,
    name: &Text,
) -> Result<Expanded, EditError>
    requires stands { (d : Document) × StandsFor names.now doc.now d }
    requires element { kind_at doc.now node ≡ Some kinds.Element }
    ensures ok { IfOk result (λ own. (d : Document) → StandsFor names.now doc.now d → attribute_resolved (names_scope d node) name.now ≡ Ok own) }
    ensures err { IfErr result (λ e. (d : Document) → StandsFor names.now doc.now d → IsReason (attribute_resolved (names_scope d node) name.now) e) }
{
    let scope = scope_inside(alloc, doc, names, node)?;
    let mut pool = TextPool::new(alloc);
    let resolved = scope.attribute_name(&mut pool, name.as_str())?;
    let own = resolved?;
    Ok(own)
}

/// Whether a namespace of the table is this one.
fn is_space(names: &Names, number: NsId, space: &Option<Text>) -> bool
    requires { number < length names.now.spaces }
    ensures { result ≡ same_space (namespace_of names.now number) space.now }
{
    match names.ns_text(number) {
        None => space.is_none(),
        Some(name) => match space {
            None => false,
            Some(space) => name == space.as_str(),
        },
    }
}

/// Whether a name of the table is this one.
fn is_called(names: &Names, number: NameId, name: &Expanded) -> bool
    requires { number < length names.now.names }
    ensures { result ≡ same_name (expanded_of names.now number) name.now }
{
    is_space(names, names.ns(number), &name.namespace) && names.local(number) == name.local.as_str()
}

/// The attributes of what a node holds.
fn attributes_in(content: &Content) -> &[NameAttribute]
    ensures { result.now ≡ held.attributes_in content.now }
{
    match content {
        Content::Element(element) => element.attributes.as_slice(),
        Content::Chars(_) => &[],
    }
}

/// The attributes of an element.
fn attributes_of(doc: &DocTree, node: u32) -> &[NameAttribute]
    ensures { result.now ≡ attributes_at doc.now node }
{
    match doc.content(node) {
        None => &[],
        Some(content) => attributes_in(content),
    }
}

/// The number of this name, where one of the attributes has it.
fn number_among(names: &Names, attributes: &[NameAttribute], name: &Expanded) -> Option<NameId>
    requires { All (λ a. a.name < length names.now.names) attributes.now }
    ensures { IsAmong names.now attributes.now name.now result }
{
    for attribute in attributes {
        if is_called(names, attribute.name, name) {
            return Some(attribute.name);
        }
    }
    None
}

/// The number of this name, where an attribute of an element has it.
pub(crate) fn find_name(doc: &DocTree, names: &Names, node: u32, own: &Expanded) -> Option<NameId>
    requires stands { (d : Document) × StandsFor names.now doc.now d }
    requires element { kind_at doc.now node ≡ Some kinds.Element }
    ensures { (d : Document) → StandsFor names.now doc.now d → IsThere names.now doc.now d node own.now result }
{
    number_among(names, attributes_of(doc, node), own)
}

/// How many attributes and bindings an element has.
fn count_own(doc: &DocTree, node: u32) -> usize
    requires { length (bindings_at doc.now node) < 2 ^ 32 }
    ensures { result ≡ length (attributes_at doc.now node) + length (bindings_at doc.now node) }
{
    attributes_of(doc, node).len() + doc.binding_count(node) as usize
}

/// Refuses one attribute more of an element that has as many attributes and bindings as it may have.
pub(crate) fn one_more(doc: &DocTree, node: u32) -> Result<(), EditError>
    requires { length (attributes_at doc.now node) + length (bindings_at doc.now node) ≤ MAX_ATTRIBUTES }
    ensures ok { OnOk result (length (attributes_at doc.now node) + length (bindings_at doc.now node) < MAX_ATTRIBUTES) }
    ensures err { IfErr result (λ e. (e ≡ TooManyAttributes) × (MAX_ATTRIBUTES ≤ length (attributes_at doc.now node) + length (bindings_at doc.now node))) }
{
    if count_own(doc, node) < MAX_ATTRIBUTES {
        Ok(())
    } else {
        Err(EditError::TooManyAttributes)
    }
}
