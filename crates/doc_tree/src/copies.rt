//! What nodes hold, once more. Characters are shared, and not copied.

ghost use Rattle.std.specs.Prelude.{◌≡◌, Some, IfOk};
ghost use Rattle.tree_rows.specs.declared.row.NodeKind.TheVariants as kinds;
ghost use Rattle.doc_nodes.specs.Nodes.{Node, IsNode, IsSound};
ghost use Rattle.doc_nodes.specs.declared.content.Content.TheVariants as contents;
ghost use Rattle.doc_changes.specs.Held.{kind_at};

use doc_nodes::{Content, Element, NameAttribute, NameBinding, NodeLinks};
use std::alloc::{AllocError, Global};
use xs_lists::Listed;

/// The same attributes.
fn copy_attributes(
    alloc: Global,
    attributes: &[NameAttribute],
) -> Result<Listed<NameAttribute>, AllocError>
    ensures { IfOk result (λ made. made ≡ attributes.now) }
{
    let mut made = Listed::new(alloc);
    for attribute in attributes {
        let value = attribute.value.try_clone()?;
        made.push(NameAttribute {
            name: attribute.name,
            value,
        })?;
    }
    Ok(made)
}

/// The same bindings.
fn copy_bindings(alloc: Global, bindings: &[NameBinding]) -> Result<Listed<NameBinding>, AllocError>
    ensures { IfOk result (λ made. made ≡ bindings.now) }
{
    let mut made = Listed::new(alloc);
    for binding in bindings {
        let prefix = binding.prefix.try_clone()?;
        made.push(NameBinding {
            prefix,
            namespace: binding.namespace,
        })?;
    }
    Ok(made)
}

/// The same element.
pub(crate) fn copy_parts(alloc: Global, element: &Element) -> Result<Element, AllocError>
    ensures { IfOk result (λ made. made ≡ element.now) }
{
    let bindings = copy_bindings(alloc, element.bindings.as_slice())?;
    let attributes = copy_attributes(alloc, element.attributes.as_slice())?;
    Ok(Element {
        name: element.name,
        bindings,
        attributes,
    })
}

/// What a node holds, once more.
pub(crate) fn copy_content(alloc: Global, content: &Content) -> Result<Content, AllocError>
    ensures { IfOk result (λ made. made ≡ content.now) }
{
    match content {
        Content::Chars(text) => Ok(Content::Chars(text.try_clone()?)),
        Content::Element(element) => Ok(Content::Element(copy_parts(alloc, element)?)),
    }
}

/// What an element holds, once more.
pub(crate) fn copy_element(
    alloc: Global,
    links: &NodeLinks,
    number: u32,
) -> Result<Element, AllocError>
    requires { kind_at links.now number ≡ Some kinds.Element }
    ensures same { IfOk result (λ made. (it : Node) → IsNode links.now number it → it.content ≡ contents.Element made) }
    ensures sound { IsSound links.now }
{
    match links.content(number) {
        Some(Content::Element(element)) => copy_parts(alloc, element),
        _ => unreachable!(),
    }
}
