//! One text put among the children of an element.

ghost use Rattle.std.specs.Prelude.{◌≡◌, length, IfOk, OnOk, OnErr};
ghost use Rattle.xs_names.specs.Names.{NameTable};
ghost use Rattle.tree_rows.specs.Forest.{Document, none, text as text_node};
ghost use Rattle.tree_edits.specs.Tests.{made};
ghost use Rattle.tree_edits.specs.declared.edit.Edit.TheVariants as edits;
ghost use Rattle.doc_nodes.specs.Nodes.{IsSound};
ghost use Rattle.doc_changes.specs.Stands.{StandsFor};
ghost use Rattle.doc_changes.specs.Fits.{Fits};
ghost use Rattle.doc_changes.specs.Planted.{Plants};

use doc_nodes::{Content, NodeLinks};
use std::alloc::AllocError;
use xs_names::Text;

/// Puts a text before the child of an element that has this place, counted from 0, or behind the last one. It gets the next
/// free number, which is answered.
///
/// # Errors
///
/// `AllocError` is want of memory. All is then as it was.
pub fn add_text(
    links: &mut NodeLinks,
    parent: u32,
    place: u32,
    text: Text,
) -> Result<u32, AllocError>
    requires fits { (t : NameTable) × (d : Document) × StandsFor t links.old d × Fits d parent place (text_node 0 text none) }
    ensures tree { OnOk result ((t : NameTable) (d : Document) → StandsFor t links.old d → StandsFor t links.new (made d (edits.AddText parent place text))) }
    ensures number { IfOk result (λ number. number ≡ length links.old) }
    ensures change { OnOk result ((t : NameTable) → Plants t links.old links.new parent place (text_node 0 text none)) }
    ensures err { OnErr result (links.new ≡ links.old) }
    ensures sound { IsSound links.new }
{
    let number = links.add_number()?;
    match links.put(number, parent, place, Content::Chars(text)) {
        Ok(()) => Ok(number),
        Err(error) => {
            links.cut_numbers(number);
            Err(error)
        }
    }
}
