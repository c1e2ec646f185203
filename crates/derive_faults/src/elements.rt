//! Value constraints of element declarations.

ghost use Rattle.std.specs.Prelude.{◌≡◌, ◌<◌, IfOk, length};
ghost use Rattle.xs_codes.specs.Least.{IsLeast};
ghost use Rattle.derive_faults.specs.TypeFaults.{IsFirstCode};
ghost use Rattle.component_references.specs.Heights.{IsType};
ghost use Rattle.component_tables.specs.ContentTypes.{content_of};
ghost use Rattle.derive_faults.specs.Given.{IsFound, AreRead};
ghost use Rattle.derive_faults.specs.Elements as spec;
ghost use Rattle.derive_faults.specs.ValueFaults as faults;

use crate::emptiable::has_emptiable_model;
use crate::set::ValueSet;
use crate::texts::text_code;
use crate::value_faults::PHASE;
use crate::value_ids::{has_id_content, is_id_type};
use crate::{coded, earlier, when};
use component_tables::ContentType;
use simple_types::SimpleTypes;
use std::alloc::{AllocError, Global};
use xs_codes::{Code, Fault, sooner};
use xs_components::{ElementDecl, ElementId, TypeId, ValueConstraint};

// The code of mixed content whose model is not emptiable.
fn filled_code(set: &ValueSet<'_>, of: &TypeId) -> Option<Code>
    requires found { IsFound set.now }
    requires there { IsType set.now.parts.now of.now }
    ensures first { IsFirstCode (spec.IsFilled set.now.parts.now of.now) result }
{
    let emptiable = has_emptiable_model(set.parts, set.ranges, of);
    when(!emptiable, Code::CosValidDefault2_2_2)
}

// The code of a type that is or derives from ID, or has content of such a type.
fn id_code(set: &ValueSet<'_>, of: &TypeId) -> Option<Code>
    requires found { IsFound set.now }
    requires there { IsType set.now.parts.now of.now }
    ensures first { IsFirstCode (spec.IsOnId set.now.parts.now of.now) result }
{
    let of_id = is_id_type(set, of) || has_id_content(set, *of);
    when(of_id, Code::EPropsCorrect5)
}

// The first code of a constraint, by what the type of the element contains.
fn content_code(
    alloc: Global,
    set: &ValueSet<'_>,
    types: &mut SimpleTypes,
    of: &TypeId,
    content: ContentType,
    constraint: &ValueConstraint,
) -> Result<Option<Code>, AllocError>
    requires found { IsFound set.now }
    requires read { AreRead set.now.parts.now types.old }
    requires there { IsType set.now.parts.now of.now }
    requires content { content ≡ content_of set.now.parts.now of.now }
    ensures first { IfOk result (IsFirstCode (spec.BreaksContent set.now.parts.now of.now constraint.now content)) }
    ensures same { types.new ≡ types.old }
{
    match content {
        ContentType::SimpleType | ContentType::SimpleContent => {
            text_code(alloc, types, Code::EPropsCorrect2, *of, constraint)
        }
        ContentType::Empty | ContentType::ElementOnly => Ok(Some(Code::CosValidDefault2_1)),
        ContentType::Mixed => Ok(filled_code(set, of)),
    }
}

// The first code of a constraint on an element, by its type.
fn value_code(
    alloc: Global,
    set: &ValueSet<'_>,
    types: &mut SimpleTypes,
    of: &TypeId,
    constraint: &ValueConstraint,
) -> Result<Option<Code>, AllocError>
    requires found { IsFound set.now }
    requires read { AreRead set.now.parts.now types.old }
    requires there { IsType set.now.parts.now of.now }
    ensures first { IfOk result (IsFirstCode (spec.BreaksValue set.now.parts.now of.now constraint.now)) }
    ensures same { types.new ≡ types.old }
{
    let content = set.contents.content_of(*of);
    let broken = content_code(alloc, set, types, of, content, constraint)?;
    Ok(earlier(broken, id_code(set, of)))
}

// The first code of an element declaration, by its type.
fn decl_code(
    alloc: Global,
    set: &ValueSet<'_>,
    types: &mut SimpleTypes,
    of: &TypeId,
    part: &ElementDecl,
) -> Result<Option<Code>, AllocError>
    requires found { IsFound set.now }
    requires read { AreRead set.now.parts.now types.old }
    requires there { IsType set.now.parts.now of.now }
    ensures first { IfOk result (IsFirstCode (spec.BreaksDecl set.now.parts.now of.now part.now)) }
    ensures same { types.new ≡ types.old }
{
    match &part.value {
        None => Ok(None),
        Some(constraint) => value_code(alloc, set, types, of, constraint),
    }
}

// The first fault of an element declaration.
fn element_fault(
    alloc: Global,
    set: &ValueSet<'_>,
    types: &mut SimpleTypes,
    id: ElementId,
) -> Result<Option<Fault>, AllocError>
    requires found { IsFound set.now }
    requires read { AreRead set.now.parts.now types.old }
    requires there { id < length set.now.parts.now.elements.parts }
    ensures least { IfOk result (IsLeast (spec.IsElementAt set.now.parts.now id)) }
    ensures same { types.new ≡ types.old }
{
    let part = set.parts.element(id);
    let of = set.declarations.type_of(id);
    let code = decl_code(alloc, set, types, &of, part)?;
    Ok(coded(PHASE, part.at, code))
}

/// The first fault of element declarations.
pub(crate) fn first_of_elements(
    alloc: Global,
    set: &ValueSet<'_>,
    types: &mut SimpleTypes,
) -> Result<Option<Fault>, AllocError>
    requires found { IsFound set.now }
    requires read { AreRead set.now.parts.now types.old }
    ensures least { IfOk result (IsLeast (faults.IsElementFault set.now.parts.now)) }
    ensures same { types.new ≡ types.old }
{
    let mut best = None;
    let mut number = 0;
    while let Some(id) = set.parts.element_at(number) {
        let found = element_fault(alloc, set, types, id)?;
        best = sooner(best, found);
        number += 1;
    }
    Ok(best)
}
