//! The records of an element and of its attributes.

ghost use Rattle.std.specs.Prelude.{◌≡◌, List, Bool, IfOk};
ghost use Rattle.attr_assess.specs.Added.{AreNamed};
ghost use Rattle.attr_assess.specs.Known.{AreKnownUses};
ghost use Rattle.attr_assess.specs.Types.{IsTypeSet};
ghost use Rattle.attr_assess.specs.Schema.{IsAttrSet};
ghost use Rattle.elem_governing.specs.View.{IsView};
ghost use Rattle.elem_assess.specs.Source.{IsSource};
ghost use Rattle.elem_assess.specs.Local as spec;
ghost use Rattle.elem_assess.specs.Set.{IsWithin};

use crate::judge_element;
use assess_records::{AttrRecords, ElementRecord, ElementShape, InstanceAttribute, instance_text};
use attr_assess::{AttrSchema, AttrValues, KnownUses, assess_attrs};
use attr_uses::AttrTables;
use component_tables::ContentTypes;
use elem_codes::{ElementInput, ElementSource};
use elem_governing::{Governing, SchemaView, XsiType, xsi_type};
use simple_types::SimpleTypes;
use simple_values::Value;
use std::alloc::{AllocError, Global};

/// What the elements of a document are assessed by: the schema set with what was found of its components.
#[derive(Clone, Copy)]
pub struct AssessSet<'a> {
    pub view: SchemaView<'a>,
    pub tables: &'a AttrTables,
    pub known: &'a KnownUses,
    pub contents: &'a ContentTypes,
}

/// What is found out about an element and its attributes.
#[derive(Drop)]
pub struct Judged {
    pub element: ElementRecord,
    /// The value of its text, where that is valid by a simple type.
    pub value: Option<Value>,
    /// The records of its attributes: the given ones in document order, then those that the schema adds.
    pub attrs: AttrRecords,
    /// The values of their texts.
    pub attr_values: AttrValues,
}

// What xsi:type says on the element.
fn said_on(
    alloc: Global,
    set: &AssessSet<'_>,
    of: &Governing,
    shape: &ElementShape,
) -> Result<XsiType, AllocError>
    requires view { IsView set.now.view.parts.now set.now.view.declarations.now set.now.view.named.now }
    requires within { IsWithin set.now.view.names.now set.now.view.parts.now of.now shape.now }
    ensures { IfOk result (λ said. said ≡ spec.said_on set.now.view.names.now set.now.view.parts.now of.now shape.now) }
{
    let xsi = instance_text(
        set.view.names,
        shape.attrs.as_slice(),
        InstanceAttribute::TypeName,
    );
    xsi_type(alloc, &set.view, of.declaration, xsi, &shape.scope)
}

/// The records and the values of an element and of its attributes, by what governs it and by its shape (Structures 3.3.4,
/// 3.3.5, 3.4.4).
///
/// # Errors
///
/// `AllocError` is want of memory.
pub fn local(
    alloc: Global,
    set: &AssessSet<'_>,
    types: &mut SimpleTypes,
    of: &Governing,
    shape: &ElementShape,
) -> Result<Judged, AllocError>
    requires view { IsView set.now.view.parts.now set.now.view.declarations.now set.now.view.named.now }
    requires attributes { (ids : List Bool) × IsAttrSet set.now.view.parts.now set.now.view.named.now ids set.now.tables.now }
    requires known { AreKnownUses set.now.view.parts.now set.now.known.now }
    requires types { IsTypeSet set.now.view.parts.now types.old }
    requires source { IsSource set.now.view.parts.now set.now.contents.now types.old }
    requires named { AreNamed set.now.view.names.now set.now.view.parts.now }
    requires within { IsWithin set.now.view.names.now set.now.view.parts.now of.now shape.now }
    ensures judged { IfOk result (spec.IsLocal set.now.view.names.now set.now.view.parts.now of.now shape.now) }
    ensures same { types.new ≡ types.old }
{
    let said = said_on(alloc, set, of, shape)?;
    let schema = AttrSchema {
        names: set.view.names,
        parts: set.view.parts,
        tops: set.view.named,
        tables: set.tables,
        known: set.known,
    };
    let attributes = assess_attrs(
        alloc,
        &schema,
        types,
        of.of,
        shape.attrs.as_slice(),
        &shape.scope,
    )?;
    let source = ElementSource {
        names: set.view.names,
        parts: set.view.parts,
        contents: set.contents,
    };
    let input = ElementInput {
        governing: of,
        said: &said,
        shape,
        attrs: attributes.records.as_slice(),
        missing: attributes.missing.as_slice(),
    };
    let judged = judge_element(alloc, source, types, input)?;
    Ok(Judged {
        element: judged.element,
        value: judged.value,
        attrs: attributes.records,
        attr_values: attributes.values,
    })
}
