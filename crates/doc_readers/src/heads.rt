//! Heads of elements, and the names of child elements.

ghost use Rattle.std.specs.Prelude.{◌≡◌, ◌<◌, ◌∷◌, [], ◌++◌, All, length, filter, map, Some, None, false, IfOk, IfSome, OnOk};
ghost use Rattle.tree_rows.specs.declared.row.NodeKind.TheVariants as kinds;
ghost use Rattle.doc_nodes.specs.Nodes.{element_children, is_element_at};
ghost use Rattle.doc_changes.specs.Held.{kind_at};
ghost use Rattle.doc_changes.specs.Readers.{name_at, scope_at};
ghost use Rattle.assess_records.specs.Instance.{instance_text};
ghost use Rattle.assess_records.specs.declared.instance_names.InstanceAttribute.TheVariants.{TypeName};
ghost use Rattle.doc_readers.specs.Heads.{text_named, texts_named};

use assess_records::{InstanceAttribute, NamedText, NamedTextList, is_named};
use doc_nodes::{Content, NameAttribute};
use doc_tree::DocTree;
use elem_governing::ElementHead;
use std::alloc::{AllocError, Global};
use xs_lists::Listed;
use xs_names::{NameId, Names};

/// The attributes of an element, by the numbers of their names. Their texts are shared.
fn texts_of(alloc: Global, attributes: &[NameAttribute]) -> Result<NamedTextList, AllocError>
    ensures { IfOk result (λ texts. texts ≡ map text_named attributes.now) }
{
    let mut texts = Listed::from_vec(Vec::with_capacity(alloc, attributes.len())?);
    for attribute in attributes {
        texts.push(NamedText {
            name: attribute.name,
            text: attribute.value.try_clone()?,
        })?;
    }
    Ok(texts)
}

/// The head of an element of a document: the number of its name, its attributes and the prefixes in scope (Namespaces in XML 1.0, 6.1).
///
/// # Errors
///
/// `AllocError` is want of memory.
pub fn head_at(alloc: Global, doc: &DocTree, node: u32) -> Result<ElementHead, AllocError>
    requires { kind_at doc.now node ≡ Some kinds.Element }
    ensures name { IfOk result (λ head. head.name ≡ name_at doc.now node) }
    ensures attributes { IfOk result (λ head. head.attrs ≡ texts_named doc.now node) }
    ensures scope { IfOk result (λ head. head.scope ≡ scope_at doc.now node) }
{
    match doc.content(node) {
        Some(Content::Element(element)) => {
            let scope = doc.scope_at(node)?;
            let attrs = texts_of(alloc, element.attributes.as_slice())?;
            Ok(ElementHead {
                name: element.name,
                attrs,
                scope,
            })
        }
        _ => unreachable!(),
    }
}

/// Whether one of these attributes is xsi:type (Structures 2.6.1).
fn say_type(names: &Names, attributes: &[NameAttribute]) -> bool
    requires { All (λ a. a.name < length names.now.names) (map text_named attributes.now) }
    ensures { result ≡ false → instance_text names.now (map text_named attributes.now) TypeName ≡ None }
{
    for attribute in attributes {
        if is_named(names, InstanceAttribute::TypeName, attribute.name) {
            return true;
        }
    }
    false
}

/// The number of the name of an element that has no attribute xsi:type (Structures 2.6.1); `None` where it has one, or the number is
/// of no element. It takes no memory.
pub fn untyped_name(names: &Names, doc: &DocTree, node: u32) -> Option<NameId>
    requires { All (λ a. a.name < length names.now.names) (texts_named doc.now node) }
    ensures name { IfSome result (λ name. name ≡ name_at doc.now node) }
    ensures untyped { IfSome result (λ _. instance_text names.now (texts_named doc.now node) TypeName ≡ None) }
{
    match doc.content(node) {
        Some(Content::Element(element)) => {
            if say_type(names, element.attributes.as_slice()) {
                None
            } else {
                Some(element.name)
            }
        }
        _ => None,
    }
}

/// Puts the name of a node behind others, where it is an element.
fn push_name(names: &mut Vec<NameId>, doc: &DocTree, node: u32) -> Result<(), AllocError>
    ensures { OnOk result (names.new.items ≡ names.old.items ++ map (name_at doc.now) (filter (is_element_at doc.now) (node ∷ []))) }
{
    match doc.name(node) {
        None => Ok(()),
        Some(name) => {
            names.push(name)?;
            Ok(())
        }
    }
}

/// The numbers of the names of a node's child elements, in order; none where the number is of no node. It takes work in proportion to
/// its children.
///
/// # Errors
///
/// `AllocError` is want of memory.
pub fn names_below(alloc: Global, doc: &DocTree, node: u32) -> Result<Vec<NameId>, AllocError>
    ensures { IfOk result (λ names. names.items ≡ map (name_at doc.now) (element_children doc.now node)) }
{
    let children = doc.children(node)?;
    let mut names = Vec::new(alloc);
    for child in &children {
        push_name(&mut names, doc, *child)?;
    }
    Ok(names)
}
