//! The characters of an element's texts, where most of its children may be elements.

ghost use Rattle.std.specs.Prelude.{◌≡◌, ◌≤◌, ℕ, [], length, slice_get, unwrap_or, Some, MatchOption, IfOk};
ghost use Rattle.std.specs.Option.{option_copied};
ghost use Rattle.doc_nodes.specs.Nodes.{children_by};
ghost use Rattle.doc_nodes.specs.Nodes as nodes;
ghost use Rattle.doc_changes.specs.Readers.{own_chars};
ghost use Rattle.doc_changes.specs.Readers as readers;
ghost use Rattle.doc_readers.specs.Texts.{IsNextText};
ghost use Rattle.doc_readers.specs.Texts as counted;

use doc_tree::DocTree;
use std::alloc::{AllocError, Global};
use xs_names::Text;

/// With this many children for each text, the texts are looked for one by one.
const CHILDREN_PER_TEXT: usize = 256;

// How many of the children of an element before a place are texts.
fn texts_upto(doc: &DocTree, node: u32, place: u32) -> u32
    requires { place ≤ length (children_by (nodes.node doc.now node)) }
    ensures { result ≡ counted.texts_upto doc.now node place }
{
    place - doc.elements_upto(node, place)
}

// The place of the first text from a place on, among so many children; `None` where there is none. It halves what is left.
fn next_text(doc: &DocTree, node: u32, from: u32, count: u32) -> Option<u32>
    requires within { from ≤ count }
    requires all { count ≡ length (children_by (nodes.node doc.now node)) }
    ensures { MatchOption result (counted.texts_upto doc.now node count ≡ counted.texts_upto doc.now node from) (λ place. IsNextText doc.now node from place) }
{
    let before = texts_upto(doc, node, from);
    if texts_upto(doc, node, count) == before {
        return None;
    }
    let mut low = from;
    let mut high = count;
    'halves: while 1 < high - low {
        let middle = low + (high - low) / 2;
        if texts_upto(doc, node, middle) == before {
            low = middle;
        } else {
            high = middle;
        }
    }
    Some(low)
}

// The characters of the child at a place, if it is a text.
fn chars_at(doc: &DocTree, node: u32, place: u32) -> Option<&Text>
    ensures { (child : ℕ) → slice_get (children_by (nodes.node doc.now node)) place ≡ Some child → unwrap_or (option_copied result) [] ≡ readers.chars_at doc.now child }
{
    let child = doc.child_at(node, place)?;
    doc.chars(child)
}

// The characters of an element's texts, looked for one by one among so many children.
fn few_texts(alloc: Global, doc: &DocTree, node: u32, count: u32) -> Result<Text, AllocError>
    requires { count ≡ length (children_by (nodes.node doc.now node)) }
    ensures { IfOk result (λ text. text ≡ own_chars doc.now node) }
{
    let mut chars = String::new(alloc);
    let mut from = 0;
    'texts: while let Some(place) = next_text(doc, node, from, count) {
        if let Some(text) = chars_at(doc, node, place) {
            chars.push_str(text.as_str())?;
        }
        from = place + 1;
    }
    Text::from_string(chars)
}

/// The characters of an element's texts, one after another; none where the number is of no element.
///
/// Where texts are few among the children, it takes steps logarithmic in the number of children for each text.
///
/// # Errors
///
/// `AllocError` is want of memory.
pub fn chars_of(alloc: Global, doc: &DocTree, node: u32) -> Result<Text, AllocError>
    ensures { IfOk result (λ text. text ≡ own_chars doc.now node) }
{
    let count = doc.child_count(node);
    let texts = texts_upto(doc, node, count) as usize;
    if texts * CHILDREN_PER_TEXT < count as usize {
        few_texts(alloc, doc, node, count)
    } else {
        doc.text_of(node)
    }
}
