//! The name of an element and the characters of a text, changed.

ghost use Rattle.std.specs.Prelude.{◌≡◌, ◌<◌, Some, IfOk, OnOk, OnErr, length};
ghost use Rattle.std.specs.Option.{option_and_then};
ghost use Rattle.tree_rows.specs.declared.row.NodeKind.TheVariants as kinds;
ghost use Rattle.doc_nodes.specs.Nodes.{Node, node};
ghost use Rattle.doc_changes.specs.Held.{kind_at, name_in, chars_in};

use doc_nodes::{Content, NodeLinks};
use std::alloc::AllocError;
use xs_names::{NameId, Text};

/// The name of an element.
pub(crate) fn name_of(links: &NodeLinks, number: u32) -> NameId
    requires { kind_at links.now number ≡ Some kinds.Element }
    ensures { option_and_then (λ (it : Node). name_in it.content) (node links.now number) ≡ Some result }
{
    match links.content(number) {
        Some(Content::Element(element)) => element.name,
        _ => unreachable!(),
    }
}

/// The characters of a text.
pub(crate) fn chars_of(links: &NodeLinks, number: u32) -> Result<Text, AllocError>
    requires { kind_at links.now number ≡ Some kinds.Chars }
    ensures { IfOk result (λ text. option_and_then (λ (it : Node). chars_in it.content) (node links.now number) ≡ Some text) }
{
    match links.content(number) {
        Some(Content::Chars(text)) => text.try_clone(),
        _ => unreachable!(),
    }
}
