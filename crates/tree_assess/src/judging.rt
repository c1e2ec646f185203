//! The records of an element and of its attributes, when its child elements have theirs.

ghost use Rattle.std.specs.Prelude.{◌≡◌, ◌<◌, All, length, IfOk};
ghost use Rattle.elem_governing.specs.View.{AreKnown};
ghost use Rattle.compiled_schema.specs.Usable.{IsUsable, set_of};
ghost use Rattle.assessment.specs.Assessment.{AreJudged};
ghost use Rattle.tree_assess.specs.Entries.{entry_of};
ghost use Rattle.tree_assess.specs.inside.Steps.{IsThere};

use crate::ElementEntry;
use assess_records::ElementShape;
use compiled_schema::Compiled;
use elem_assess::{AssessSet, Judged, local};
use elem_governing::{Governing, SchemaView};
use std::alloc::{AllocError, Global};

// The entry of an element of this number, the IDs of whose text that element bears.
fn entry_by(number: u32, bearer: u32, governing: &Governing, judged: Judged) -> ElementEntry
    ensures { result ≡ record { number = number; bearer = bearer; below = 0; governing = governing.now; element = judged.element; value = judged.value; attrs = judged.attrs; attr_values = judged.attr_values } }
{
    let Judged {
        element,
        value,
        attrs,
        attr_values,
    } = judged;
    ElementEntry {
        number,
        bearer,
        below: 0,
        governing: *governing,
        element,
        value,
        attrs,
        attr_values,
    }
}

/// The entry of an element of this number, the IDs of whose text that element bears, by what governs it and what it has to
/// show (Structures 3.3.4, 3.3.5, 3.4.4).
pub(crate) fn judge(
    alloc: Global,
    compiled: &mut Compiled,
    number: u32,
    bearer: u32,
    governing: &Governing,
    shape: &ElementShape,
) -> Result<ElementEntry, AllocError>
    requires usable { IsUsable compiled.old }
    requires there { IsThere compiled.old.parts governing.now }
    requires known { AreKnown compiled.old.names shape.now.scope }
    requires named { All (λ a. a.name < length compiled.old.names.names) shape.now.attrs }
    ensures judged { IfOk result (λ entry. AreJudged (set_of compiled.old) shape.now (entry_of entry)) }
    ensures number { IfOk result (λ entry. entry.number ≡ number) }
    ensures bearer { IfOk result (λ entry. entry.bearer ≡ bearer) }
    ensures governing { IfOk result (λ entry. entry.governing ≡ governing.now) }
    ensures same { compiled.new ≡ compiled.old }
{
    let view = SchemaView {
        names: &compiled.names,
        parts: &compiled.parts,
        declarations: &compiled.declarations,
        named: &compiled.named,
    };
    let set = AssessSet {
        view,
        tables: &compiled.attr_uses,
        known: &compiled.known_uses,
        contents: &compiled.contents,
    };
    let judged = local(alloc, &set, &mut compiled.types, governing, shape)?;
    Ok(entry_by(number, bearer, governing, judged))
}
