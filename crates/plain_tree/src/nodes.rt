ghost use Rattle.std.specs.Prelude.{◌≡◌, slice_get};
ghost use Rattle.std.specs.Option.{option_copied};
ghost use Rattle.plain_tree.specs.Behind.{found_by, tail_at, number_in};
ghost use Rattle.plain_tree.specs.Behind as behind;
ghost use Rattle.plain_tree.specs.Nodes as nodes;

use tree_rows::{Attribute, Binding, Content, Expanded, NodeKind, Row};
use xs_names::Text;

/// The row of a node, and the rows behind it.
pub(crate) fn find_row(rows: &[Row], node: u32) -> Option<(&Row, &[Row])>
    ensures { found_by result ≡ tail_at node rows.now }
{
    let mut left = rows;
    'left: while let Some((row, behind)) = left.split_first() {
        if row.number == node {
            return Some((row, behind));
        }
        left = behind;
    }
    None
}

/// The number of the row that has this place among those of a depth, up to one that is less deep.
pub(crate) fn number_in(rows: &[Row], depth: u64, place: u32) -> Option<u32>
    ensures { result ≡ number_in place depth rows.now }
{
    let mut left = place;
    for row in rows {
        if u64::from(row.depth) < depth {
            return None;
        }
        if u64::from(row.depth) == depth {
            if left == 0 {
                return Some(row.number);
            }
            left -= 1;
        }
    }
    None
}

/// Whether the content is that of an element or of a text.
pub(crate) fn kind_by(content: &Content) -> NodeKind
    ensures { result ≡ behind.kind_by content.now }
{
    match content {
        Content::Element(_) => NodeKind::Element,
        Content::Chars(_) => NodeKind::Chars,
    }
}

/// The name of an element.
pub(crate) fn name_by(content: &Content) -> Option<&Expanded>
    ensures { option_copied result ≡ nodes.name_by content.now }
{
    match content {
        Content::Element(name) => Some(name),
        Content::Chars(_) => None,
    }
}

/// The characters of a text.
pub(crate) fn chars_by(content: &Content) -> Option<&Text>
    ensures { option_copied result ≡ nodes.chars_by content.now }
{
    match content {
        Content::Element(_) => None,
        Content::Chars(text) => Some(text),
    }
}

/// The attribute of a place.
pub(crate) fn attribute_in(attributes: &[Attribute], place: u32) -> Option<&Attribute>
    ensures { option_copied result ≡ slice_get attributes.now place }
{
    attributes.get(place as usize)
}

/// The binding of a place.
pub(crate) fn binding_in(bindings: &[Binding], place: u32) -> Option<&Binding>
    ensures { option_copied result ≡ slice_get bindings.now place }
{
    bindings.get(place as usize)
}
