//! The attribute of a name as it is.

ghost use Rattle.std.specs.Prelude.{◌≡◌, ◌==◌, ◌<◌, length, Some, IfOk};
ghost use Rattle.std.specs.List.{position};
ghost use Rattle.xs_names.specs.Names.{NameTable};
ghost use Rattle.tree_rows.specs.Forest.{Document};
ghost use Rattle.tree_rows.specs.declared.row.NodeKind.TheVariants as kinds;
ghost use Rattle.tree_edits.specs.Edits.{found};
ghost use Rattle.tree_edits.specs.Tests.{attributes_of as own_attributes};
ghost use Rattle.tree_edits.specs.Inverses as law;
ghost use Rattle.tree_edits.specs.Sites.{place_of as named_place, value_of};
ghost use Rattle.doc_changes.specs.Held.{kind_at, attributes_at};
ghost use Rattle.doc_changes.specs.Held as held;
ghost use Rattle.doc_changes.specs.Stands.{StandsFor, expanded_of};
ghost use Rattle.doc_tree.specs.Changes.{Means};

use doc_nodes::{Content, NameAttribute};
use doc_tree::{Change, DocTree};
use std::alloc::AllocError;
use xs_names::NameId;

/// The attributes of what a node holds.
fn attributes_in(content: &Content) -> &[NameAttribute]
    ensures { result.now ≡ held.attributes_in content.now }
{
    match content {
        Content::Element(element) => element.attributes.as_slice(),
        Content::Chars(_) => &[],
    }
}

/// The attributes of a node, none where it is no element.
fn attributes_of(doc: &DocTree, node: u32) -> &[NameAttribute]
    ensures { result.now ≡ attributes_at doc.now node }
{
    match doc.content(node) {
        None => &[],
        Some(content) => attributes_in(content),
    }
}

/// The place of the attribute of this name.
fn place_of(attributes: &[NameAttribute], name: NameId) -> Option<usize>
    ensures { result ≡ position (λ a. a.name == name) attributes.now }
{
    attributes
        .iter()
        .position(|attribute| attribute.name == name)
}

/// The change that gives the attribute of a name the value that it has, at its place; where there is none, the change that takes it
/// away from behind the others.
pub(crate) fn attribute_again(doc: &DocTree, node: u32, name: NameId) -> Result<Change, AllocError>
    requires stands { (t : NameTable) × (d : Document) × StandsFor t doc.now d }
    requires element { kind_at doc.now node ≡ Some kinds.Element }
    ensures { IfOk result (λ back. (t : NameTable) (d : Document) → StandsFor t doc.now d → name < length t.names
        → Means t back (law.write node (expanded_of t name) (named_place (expanded_of t name) (own_attributes (found node 1 d.forest)))
        (value_of (expanded_of t name) (own_attributes (found node 1 d.forest))))) }
{
    let attributes = attributes_of(doc, node);
    match place_of(attributes, name) {
        Some(place) => {
            let value = attributes[place].value.try_clone()?;
            Ok(Change::Attr {
                node,
                name,
                place: place as u32,
                value: Some(value),
            })
        }
        None => Ok(Change::Attr {
            node,
            name,
            place: attributes.len() as u32,
            value: None,
        }),
    }
}
