//! What an element and a text hold, changed in place.

ghost use Rattle.std.specs.Prelude.{◌≡◌, ℕ, ◌<◌, Some, length};
ghost use Rattle.xs_names.specs.Names.{NameTable};
ghost use Rattle.tree_rows.specs.Forest.{Document};
ghost use Rattle.tree_rows.specs.declared.row.NodeKind.TheVariants as kinds;
ghost use Rattle.tree_edits.specs.Tests.{made};
ghost use Rattle.tree_edits.specs.declared.edit.Edit.TheVariants as edits;
ghost use Rattle.doc_nodes.specs.declared.content.Content.TheVariants as contents;
ghost use Rattle.doc_nodes.specs.Nodes.{Node, IsNode, IsSound, Holds};
ghost use Rattle.doc_nodes.specs.declared.content.Element.{Element};
ghost use Rattle.doc_changes.specs.Stands.{StandsFor, expanded_of};
ghost use Rattle.doc_changes.specs.Held.{kind_at};
ghost use Rattle.tree_edits.specs.Edits.{renamed};

use doc_nodes::{Content, Element, NodeLinks};
use std::alloc::Global;
use xs_lists::Listed;
use xs_names::{NameId, Text};

/// Gives a text other characters. It takes no memory.
pub fn set_text(links: &mut NodeLinks, number: u32, text: Text)
    requires { kind_at links.old number ≡ Some kinds.Chars }
    ensures tree { (t : NameTable) (d : Document) → StandsFor t links.old d → StandsFor t links.new (made d (edits.SetText number text)) }
    ensures change { Holds links.old links.new number (contents.Chars text) }
    ensures sound { IsSound links.new }
{
    links.replace(number, Content::Chars(text));
}

/// The name of an element.
fn element_name(links: &NodeLinks, number: u32) -> NameId
    requires { kind_at links.now number ≡ Some kinds.Element }
{
    match links.content(number) {
        Some(Content::Element(element)) => element.name,
        _ => unreachable!(),
    }
}

/// Takes out what an element holds; another element is left, which has only a name.
pub(crate) fn take_element(alloc: Global, links: &mut NodeLinks, number: u32) -> Element
    requires { kind_at links.old number ≡ Some kinds.Element }
    ensures held { (it : Node) → IsNode links.old number it → it.content ≡ contents.Element result }
    ensures left { (left : Element) × Holds links.old links.new number (contents.Element left) }
{
    let name = element_name(links, number);
    let left = Element {
        name,
        bindings: Listed::new(alloc),
        attributes: Listed::new(alloc),
    };
    match links.replace(number, Content::Element(left)) {
        Content::Element(element) => element,
        Content::Chars(_) => unreachable!(),
    }
}

/// Gives an element another name. It takes no memory.
pub fn rename_node(alloc: Global, links: &mut NodeLinks, number: u32, name: NameId)
    requires { kind_at links.old number ≡ Some kinds.Element }
    ensures tree { (t : NameTable) (d : Document) → StandsFor t links.old d → name < length t.names → StandsFor t links.new (renamed number (expanded_of t name) d) }
    ensures change { (it : Node) (e : Element) → IsNode links.old number it → it.content ≡ contents.Element e → Holds links.old links.new number (contents.Element (record e { name = name })) }
    ensures sound { IsSound links.new }
{
    let Element {
        bindings,
        attributes,
        ..
    } = take_element(alloc, links, number);
    links.replace(
        number,
        Content::Element(Element {
            name,
            bindings,
            attributes,
        }),
    );
}
