//! What governing and judging are read off.

ghost use Rattle.std.specs.Prelude.{◌≡◌, ◌<◌, All, length, true, IfOk};
ghost use Rattle.std.specs.Option.{option_map};
ghost use Rattle.elem_governing.specs.Heads.{head_by};
ghost use Rattle.doc_nodes.specs.Nodes.{is_element_at};
ghost use Rattle.doc_changes.specs.Readers as readers;
ghost use Rattle.doc_changes.specs.Readers.{name_at};
ghost use Rattle.doc_readers.specs.Heads.{texts_named};

use assess_records::{InstanceAttribute, instance_text};
use compiled_schema::Compiled;
use doc_readers::head_at;
use doc_tree::DocTree;
use elem_governing::{ElementHead, SchemaView};
use std::alloc::{AllocError, Global};
use xs_names::Text;

/// What governing is read off.
pub(crate) fn view_of(set: &Compiled) -> SchemaView<'_>
    ensures names { result.names.now ≡ set.now.names }
    ensures parts { result.parts.now ≡ set.now.parts }
    ensures declarations { result.declarations.now ≡ set.now.declarations }
    ensures named { result.named.now ≡ set.now.named }
{
    SchemaView {
        names: &set.names,
        parts: &set.parts,
        declarations: &set.declarations,
        named: &set.named,
    }
}

/// The head of an element.
///
/// # Errors
///
/// `AllocError` is want of memory.
pub(crate) fn head_of(alloc: Global, doc: &DocTree, node: u32) -> Result<ElementHead, AllocError>
    requires { is_element_at doc.now node ≡ true }
    ensures name { IfOk result (λ head. head.name ≡ name_at doc.now node) }
    ensures attributes { IfOk result (λ head. head.attrs ≡ texts_named doc.now node) }
    ensures scope { IfOk result (λ head. head.scope ≡ readers.scope_at doc.now node) }
{
    head_at(alloc, doc, node)
}

/// The text of the attribute xsi:type (Structures 2.6.1).
pub(crate) fn local_type<'a>(set: &Compiled, head: &'a ElementHead) -> Option<&'a Text>
    requires { All (λ a. a.name < length set.now.names.names) head.now.attrs }
    ensures { option_map (λ t. t.now) result ≡ (head_by set.now.names head.now).xsi }
{
    let attrs = head.attrs.as_slice();
    instance_text(&set.names, attrs, InstanceAttribute::TypeName)
}
