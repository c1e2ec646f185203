//! The attributes of an element, changed in place.

ghost use Rattle.std.specs.Prelude.{◌≡◌, ℕ, ◌<◌, ◌==◌, Some, true, length, OnOk, OnErr};
ghost use Rattle.std.specs.List.{position};
ghost use Rattle.xs_names.specs.Names.{NameTable};
ghost use Rattle.tree_rows.specs.Forest.{Document};
ghost use Rattle.tree_rows.specs.declared.row.NodeKind.TheVariants as kinds;
ghost use Rattle.doc_nodes.specs.declared.content.Content.TheVariants as contents;
ghost use Rattle.doc_nodes.specs.declared.content.Element.{Element};
ghost use Rattle.doc_nodes.specs.Nodes.{Node, IsNode, IsSound, Holds};
ghost use Rattle.doc_changes.specs.Stands.{StandsFor, expanded_of};
ghost use Rattle.doc_changes.specs.Held.{kind_at, attributes_at, has_number, set_number, unset_number, HasRoom};
ghost use Rattle.tree_edits.specs.Edits.{attribute_set, attribute_unset};

use crate::contents::take_element;
use doc_nodes::{Content, Element, NameAttribute, NodeLinks};
use std::alloc::{AllocError, Global};
use xs_lists::Listed;
use xs_names::{NameId, Text};

/// The place of the attribute of this name.
fn place_of(attributes: &[NameAttribute], name: NameId) -> Option<usize>
    ensures { result ≡ position (λ a. a.name == name) attributes.now }
{
    attributes
        .iter()
        .position(|attribute| attribute.name == name)
}

/// Gives the attribute of this name a value; where there is none, it is put behind the others.
fn write(attributes: &mut Vec<NameAttribute>, name: NameId, value: Text) -> Result<(), AllocError>
    ensures ok { OnOk result (attributes.new.items ≡ set_number name value attributes.old.items) }
    ensures err { OnErr result (attributes.new.items ≡ attributes.old.items) }
{
    match place_of(attributes.as_slice(), name) {
        Some(place) => attributes[place] = NameAttribute { name, value },
        None => attributes.push(NameAttribute { name, value })?,
    }
    Ok(())
}

/// Takes the attribute of this name out.
fn take_out(attributes: &mut Vec<NameAttribute>, name: NameId)
    requires { has_number name attributes.old.items ≡ true }
    ensures { attributes.new.items ≡ unset_number name attributes.old.items }
{
    match place_of(attributes.as_slice(), name) {
        Some(place) => {
            attributes.remove(place);
        }
        None => unreachable!(),
    }
}

/// Gives an attribute of an element this value. It keeps its place; where there is none of the name, it is put behind the
/// others.
///
/// # Errors
///
/// `AllocError` is want of memory. All is then as it was.
pub fn set_attribute(
    alloc: Global,
    links: &mut NodeLinks,
    number: u32,
    name: NameId,
    value: Text,
) -> Result<(), AllocError>
    requires element { kind_at links.old number ≡ Some kinds.Element }
    requires room { HasRoom links.old number name }
    ensures tree { OnOk result ((t : NameTable) (d : Document) → StandsFor t links.old d → name < length t.names → StandsFor t links.new (attribute_set number (expanded_of t name) value d)) }
    ensures change { OnOk result ((it : Node) (e : Element) → IsNode links.old number it → it.content ≡ contents.Element e → Holds links.old links.new number (contents.Element (record e { attributes = set_number name value e.attributes }))) }
    ensures err { OnErr result (links.new ≡ links.old) }
    ensures sound { IsSound links.new }
{
    let Element {
        name: own,
        bindings,
        attributes,
    } = take_element(alloc, links, number);
    let mut items = attributes.into_vec();
    let written = write(&mut items, name, value);
    links.replace(
        number,
        Content::Element(Element {
            name: own,
            bindings,
            attributes: Listed::from_vec(items),
        }),
    );
    written
}

/// Takes an attribute of an element away. It takes no memory.
pub fn unset_attribute(alloc: Global, links: &mut NodeLinks, number: u32, name: NameId)
    requires { has_number name (attributes_at links.old number) ≡ true }
    ensures tree { (t : NameTable) (d : Document) → StandsFor t links.old d → StandsFor t links.new (attribute_unset number (expanded_of t name) d) }
    ensures change { (it : Node) (e : Element) → IsNode links.old number it → it.content ≡ contents.Element e → Holds links.old links.new number (contents.Element (record e { attributes = unset_number name e.attributes })) }
    ensures sound { IsSound links.new }
{
    let Element {
        name: own,
        bindings,
        attributes,
    } = take_element(alloc, links, number);
    let mut items = attributes.into_vec();
    take_out(&mut items, name);
    links.replace(
        number,
        Content::Element(Element {
            name: own,
            bindings,
            attributes: Listed::from_vec(items),
        }),
    );
}
