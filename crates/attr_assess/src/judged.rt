//! The record and the value of one attribute.

ghost use Rattle.std.specs.Prelude.{◌≡◌, slice_get, IfOk};
ghost use Rattle.std.specs.Option.{option_copied};
ghost use Rattle.attr_assess.specs.Records as spec;
ghost use Rattle.attr_assess.specs.Types.{IsTypeSet};
ghost use Rattle.simple_types.specs.SimpleTypes.{AreTypesOf, IsWhole};
ghost use Rattle.xs_components.specs.Tables.{Tables};
ghost use Rattle.component_references.specs.Ranked.{IsRanked};

use crate::AttrGoverning;
use crate::records::{declared, undeclared};
use crate::values::read_text;
use assess_records::{AttrRecord, Shared, ValueSource};
use attr_uses::{UseAt, use_at};
use simple_types::SimpleTypes;
use simple_values::Value;
use std::alloc::{AllocError, Global};
use xs_components::{AttributeId, Components, TypeId, ValueConstraint};
use xs_names::{NameId, Scope};

/// An attribute with its text, the scope in which that is read, and where it comes from.
#[derive(Clone, Copy)]
pub struct AttrItem<'a> {
    pub name: NameId,
    pub source: ValueSource,
    pub scope: &'a Scope,
    pub text: &'a str,
}

/// What is found out about an attribute, and the value of its text, where this is valid by the type of its declaration.
#[derive(Drop)]
pub struct JudgedAttr {
    pub known: Shared<AttrRecord>,
    pub value: Shared<Option<Value>>,
}

impl JudgedAttr {
    /// The same once more: it is shared, and not copied.
    ///
    /// # Errors
    ///
    /// `AllocError` is want of memory.
    pub(crate) fn again(&self) -> Result<JudgedAttr, AllocError>
        ensures { IfOk result (λ judged. judged ≡ self.now) }
    {
        Ok(JudgedAttr {
            known: self.known.try_clone()?,
            value: self.value.try_clone()?,
        })
    }
}

/// The record and the value of an attribute, by what governs it.
///
/// # Errors
///
/// `AllocError` is want of memory.
pub fn judge(
    alloc: Global,
    parts: &Components,
    types: &mut SimpleTypes,
    item: &AttrItem<'_>,
    governing: AttrGoverning,
) -> Result<JudgedAttr, AllocError>
    requires types { IsTypeSet parts.now types.old }
    ensures judged { IfOk result (spec.IsAttrJudged parts.now item.now.name item.now.source item.now.scope.now item.now.text.now governing) }
    ensures same { types.new ≡ types.old }
{
    match governing {
        AttrGoverning::Instance(kind) => {
            judged_by(alloc, types, item, &TypeId::Builtin(kind), None, None)
        }
        AttrGoverning::Declared { attribute, by } => {
            by_declaration(alloc, parts, types, item, attribute, by)
        }
        AttrGoverning::Unassessed => undeclared(alloc, item.name, item.source, None),
        AttrGoverning::Refused(code) => undeclared(alloc, item.name, item.source, Some(code)),
    }
}

// The same, by a declaration and the use that has it.
fn by_declaration(
    alloc: Global,
    parts: &Components,
    types: &mut SimpleTypes,
    item: &AttrItem<'_>,
    attribute: AttributeId,
    by: Option<UseAt>,
) -> Result<JudgedAttr, AllocError>
    requires types { IsTypeSet parts.now types.old }
    ensures judged { IfOk result (spec.IsByDeclaration parts.now item.now.name item.now.source item.now.scope.now item.now.text.now (slice_get parts.now.attributes.parts attribute) by) }
    ensures same { types.new ≡ types.old }
{
    match parts.attributes().get(attribute.number() as usize) {
        None => undeclared(alloc, item.name, item.source, None),
        Some(decl) => judged_by(
            alloc,
            types,
            item,
            &decl.of,
            decl.value.as_ref(),
            use_constraint(parts, by),
        ),
    }
}

// The constraint on the value that stands in a use.
fn use_constraint(parts: &Components, by: Option<UseAt>) -> Option<&ValueConstraint>
    ensures { option_copied result ≡ spec.use_constraint parts.now by }
{
    match use_at(parts, by?) {
        None => None,
        Some(part) => part.value.as_ref(),
    }
}

// The same, by a type and the constraints of the declaration and of the use.
fn judged_by(
    alloc: Global,
    types: &mut SimpleTypes,
    item: &AttrItem<'_>,
    of: &TypeId,
    by_declaration: Option<&ValueConstraint>,
    by_use: Option<&ValueConstraint>,
) -> Result<JudgedAttr, AllocError>
    ensures judged { (t : Tables) → IsRanked t → AreTypesOf t types.old → IsWhole types.old of.now → IfOk result (spec.IsDeclaredJudged t item.now.name item.now.source item.now.scope.now item.now.text.now of.now (option_copied by_declaration.entry) (option_copied by_use.entry)) }
    ensures same { types.new ≡ types.old }
{
    let read = read_text(
        alloc,
        types,
        of,
        by_declaration,
        by_use,
        item.text,
        item.scope,
    )?;
    declared(alloc, item.name, item.source, of, read)
}
