//! The attribute of a name, written or taken away.

ghost use Rattle.std.specs.Prelude.{◌≡◌, ◌≤◌, ◌==◌, ℕ, length, Some, IfOk, OnOk, OnErr};
ghost use Rattle.std.specs.List.{position};
ghost use Rattle.tree_rows.specs.declared.row.NodeKind.TheVariants as kinds;
ghost use Rattle.doc_nodes.specs.declared.content.Content.TheVariants as contents;
ghost use Rattle.doc_nodes.specs.declared.content.Element.{Element};
ghost use Rattle.doc_nodes.specs.Nodes.{Node, IsNode, IsSound, Holds};
ghost use Rattle.doc_changes.specs.Held.{kind_at, attributes_at};
ghost use Rattle.doc_tree.specs.Changes.{number_value, written_number};

use crate::copies::copy_element;
use doc_nodes::{Content, Element, NameAttribute, NodeLinks};
use std::alloc::{AllocError, Global};
use std::mem;
use xs_lists::Listed;
use xs_names::{NameId, Text};

/// The place of the attribute of this name.
fn place_of(attributes: &[NameAttribute], name: NameId) -> Option<usize>
    ensures { result ≡ position (λ a. a.name == name) attributes.now }
{
    attributes
        .iter()
        .position(|attribute| attribute.name == name)
}

/// Gives the attribute of this name a value, or takes it out, and answers what its value was; where there is none and it gets one,
/// it is put at this place. Where memory is wanting, all is as it was.
fn write(
    attributes: &mut Vec<NameAttribute>,
    name: NameId,
    place: u32,
    value: Option<Text>,
) -> Result<Option<Text>, AllocError>
    requires { place ≤ length attributes.old.items }
    ensures ok { OnOk result (attributes.new.items ≡ written_number name place value attributes.old.items) }
    ensures old { IfOk result (λ old. old ≡ number_value name attributes.old.items) }
{
    match place_of(attributes.as_slice(), name) {
        Some(at) => match value {
            Some(value) => {
                let new = NameAttribute { name, value };
                let old = mem::replace(&mut attributes[at], new);
                Ok(Some(old.value))
            }
            None => {
                let old = attributes.remove(at);
                Ok(Some(old.value))
            }
        },
        None => match value {
            Some(value) => {
                attributes.insert(place as usize, NameAttribute { name, value })?;
                Ok(None)
            }
            None => Ok(None),
        },
    }
}

/// Gives the attribute of a name of an element a value, or takes it away, and answers what its value was; where there is none and
/// it gets one, it is put at this place.
///
/// # Errors
///
/// `AllocError` is want of memory. All is then as it was.
pub(crate) fn write_attribute(
    alloc: Global,
    links: &mut NodeLinks,
    node: u32,
    name: NameId,
    place: u32,
    value: Option<Text>,
) -> Result<Option<Text>, AllocError>
    requires element { kind_at links.old node ≡ Some kinds.Element }
    requires place { place ≤ length (attributes_at links.old node) }
    ensures change { OnOk result ((it : Node) (e : Element) → IsNode links.old node it → it.content ≡ contents.Element e → Holds links.old links.new node (contents.Element (record e { attributes = written_number name place value e.attributes }))) }
    ensures old { IfOk result (λ old. old ≡ number_value name (attributes_at links.old node)) }
    ensures err { OnErr result (links.new ≡ links.old) }
    ensures sound { IsSound links.new }
{
    let Element {
        name: own,
        bindings,
        attributes,
    } = copy_element(alloc, links, node)?;
    let mut items = attributes.into_vec();
    let old = write(&mut items, name, place, value)?;
    links.replace(
        node,
        Content::Element(Element {
            name: own,
            bindings,
            attributes: Listed::from_vec(items),
        }),
    );
    Ok(old)
}
