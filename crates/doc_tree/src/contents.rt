//! What an element and a text hold.

ghost use Rattle.std.specs.Prelude.{◌≡◌, ◌<◌, ◌^◌, length, slice_get};
ghost use Rattle.std.specs.Option.{option_copied};
ghost use Rattle.doc_changes.specs.Held.{attributes_in, bindings_in, chars_in};
ghost use Rattle.doc_changes.specs.Held as held;

use doc_nodes::{Content, NameAttribute, NameBinding};
use tree_rows::NodeKind;
use xs_names::{NameId, Text};

/// An element or a text.
pub(crate) fn kind_in(content: &Content) -> NodeKind
    ensures { result ≡ held.kind_in content.now }
{
    match content {
        Content::Element(_) => NodeKind::Element,
        Content::Chars(_) => NodeKind::Chars,
    }
}

/// The name of an element.
pub(crate) fn name_in(content: &Content) -> Option<NameId>
    ensures { result ≡ held.name_in content.now }
{
    match content {
        Content::Element(element) => Some(element.name),
        Content::Chars(_) => None,
    }
}

/// The characters of a text.
pub(crate) fn text_in(content: &Content) -> Option<&Text>
    ensures { option_copied result ≡ chars_in content.now }
{
    match content {
        Content::Element(_) => None,
        Content::Chars(text) => Some(text),
    }
}

/// The attribute of a place.
pub(crate) fn attribute_in(content: &Content, place: u32) -> Option<&NameAttribute>
    ensures { option_copied result ≡ slice_get (attributes_in content.now) place }
{
    match content {
        Content::Element(element) => element.attributes.get(place as usize),
        Content::Chars(_) => None,
    }
}

/// The bindings of an element.
pub(crate) fn bindings_of(content: &Content) -> &[NameBinding]
    ensures { result.now ≡ bindings_in content.now }
{
    match content {
        Content::Element(element) => element.bindings.as_slice(),
        Content::Chars(_) => &[],
    }
}

/// How many bindings an element has; more than can be counted are 4,294,967,295.
pub(crate) fn count_bindings(content: &Content) -> u32
    ensures { length (bindings_in content.now) < 2 ^ 32 → result ≡ length (bindings_in content.now) }
{
    let count = bindings_of(content).len();
    if count < u32::MAX as usize {
        count as u32
    } else {
        u32::MAX
    }
}
