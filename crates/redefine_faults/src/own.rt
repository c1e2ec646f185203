ghost use Rattle.std.specs.List.{list_any, filter};
ghost use Rattle.std.specs.List.Sorted.{IsPermutation};
ghost use Rattle.std.specs.Prelude.{◌≡◌, ◌==◌, ◌&&◌, ◌||◌, not, map, IfOk};
ghost use Rattle.redefine_originals.specs.declared.versions.Redefinable.TheVariants as redefinable;
ghost use Rattle.redefine_faults.specs.Redefinitions as spec;
ghost use Rattle.redefine_faults.specs.inside.Broken.{IsFirstCode};
ghost use Rattle.redefine_faults.specs.inside.Numbers.{of_number, any_inside};
ghost use Rattle.redefine_faults.specs.inside.Selves as inside;

use crate::below::below;
use crate::names::{derives, is_self_reference, restricts};
use crate::numbered::Numbered;
use redefine_originals::Redefinable;
use schema_set::SetDocument;
use schema_shape::{Form, Shape};
use schema_values::Occurs;
use std::alloc::{AllocError, Global};
use xs_codes::Code;
use xs_lists::Listed;

// Whether a particle occurs exactly once.
fn is_once(occurs: &Occurs) -> bool
    ensures { result ≡ spec.is_once occurs.now }
{
    occurs.min == 1 && occurs.max == Some(1)
}

// Whether an element is a reference that occurs other than once.
fn occurs_otherwise(form: &Form) -> bool
    ensures { result ≡ spec.occurs_otherwise form.now }
{
    match form {
        Form::GroupReference { occurs, .. } => !is_once(occurs),
        _ => false,
    }
}

// Whether an element is the content of a complex type.
fn is_content(form: &Form) -> bool
    ensures { result ≡ spec.is_content form.now }
{
    match form {
        Form::SimpleContent => true,
        Form::ComplexContent { .. } => true,
        _ => false,
    }
}

// Whether an element of this number is derived from the type of this name.
fn any_derives(document: &SetDocument<'_>, numbered: &Numbered<'_>, name: &str, item: u32) -> bool
    ensures { result ≡ list_any (λ s. spec.derives document.now.shaped.now.shapes document.now.target name.now s.form) (of_number numbered.now item) }
{
    let shapes = numbered.of_number(item);
    shapes
        .iter()
        .any(|shape| derives(document, name, &shape.form))
}

// Whether an element is content that is derived from the type of this name.
fn content_derives(
    document: &SetDocument<'_>,
    numbered: &Numbered<'_>,
    name: &str,
    content: &Shape,
) -> bool
    ensures { result ≡ (spec.is_content content.now.form
        && any_inside numbered.now (λ s. spec.derives document.now.shaped.now.shapes document.now.target name.now s.form) content.now) }
{
    is_content(&content.form)
        && content
            .members
            .as_slice()
            .iter()
            .any(|item| any_derives(document, numbered, name, *item))
}

// Whether an element is a derivation from the type of this name, or content that is one.
fn is_derivation(
    document: &SetDocument<'_>,
    numbered: &Numbered<'_>,
    name: &str,
    shape: &Shape,
) -> bool
    ensures { result ≡ inside.is_derivation numbered.now document.now.shaped.now.shapes document.now.target name.now shape.now }
{
    restricts(document, name, &shape.form) || content_derives(document, numbered, name, shape)
}

// Whether an element of this number is a derivation from the type of this name, or content that is one.
fn any_derivation(
    document: &SetDocument<'_>,
    numbered: &Numbered<'_>,
    name: &str,
    item: u32,
) -> bool
    ensures { result ≡ list_any (inside.is_derivation numbered.now document.now.shaped.now.shapes document.now.target name.now) (of_number numbered.now item) }
{
    let shapes = numbered.of_number(item);
    shapes
        .iter()
        .any(|shape| is_derivation(document, numbered, name, shape))
}

// Whether a type is derived from the one of its name.
fn derives_from_itself(
    document: &SetDocument<'_>,
    numbered: &Numbered<'_>,
    name: &str,
    version: &Shape,
) -> bool
    requires numbered { IsPermutation document.now.shaped.now.shapes numbered.now }
    ensures { result ≡ spec.derives_from_itself document.now.shaped.now.shapes document.now.target name.now version.now }
{
    version
        .members
        .as_slice()
        .iter()
        .any(|item| any_derivation(document, numbered, name, *item))
}

// Of some elements those that refer to the component of this kind and name.
fn referring<'a>(
    alloc: Global,
    document: &SetDocument<'_>,
    kind: Redefinable,
    name: &str,
    shapes: &[&'a Shape],
) -> Result<Listed<&'a Shape>, AllocError>
    ensures { IfOk result (λ references. map (λ r. r.now) references
        ≡ filter (λ s. spec.is_self_reference document.now.shaped.now.shapes document.now.target kind name.now s.form) (map (λ r. r.now) shapes.now)) }
{
    let mut references = Listed::new(alloc);
    for shape in shapes {
        if is_self_reference(document, kind, name, &shape.form) {
            references.push(*shape)?;
        }
    }
    Ok(references)
}

// The references of a version to itself.
fn self_references<'a>(
    alloc: Global,
    document: &SetDocument<'_>,
    numbered: &Numbered<'a>,
    kind: Redefinable,
    name: &str,
    version: &Shape,
) -> Result<Listed<&'a Shape>, AllocError>
    requires numbered { IsPermutation document.now.shaped.now.shapes numbered.now }
    ensures { IfOk result (λ references. inside.AreSelves document.now.shaped.now.shapes document.now.target kind name.now version.now (map (λ r. r.now) references)) }
{
    let found = below(alloc, numbered, version)?;
    let references = referring(alloc, document, kind, name, found.as_slice())?;
    Ok(references)
}

// Whether one of some elements does not have this number.
fn has_other(references: &[&Shape], item: u32) -> bool
    ensures { result ≡ list_any (λ r. not (r.now.item == item)) references.now }
{
    references.iter().any(|reference| reference.item != item)
}

// Whether two of some elements are not the same.
fn are_several(references: &[&Shape]) -> bool
    ensures { result ≡ inside.are_several (map (λ r. r.now) references.now) }
{
    match references.get(0) {
        None => false,
        Some(first) => has_other(references, first.item),
    }
}

// Whether one of some references occurs other than once.
fn any_otherwise(references: &[&Shape]) -> bool
    ensures { result ≡ list_any (λ r. spec.occurs_otherwise r.now.form) references.now }
{
    references
        .iter()
        .any(|reference| occurs_otherwise(&reference.form))
}

// The first code that a group with these references to itself breaks.
fn references_code(references: &[&Shape]) -> Option<Code>
    ensures { result ≡ inside.group_code (map (λ r. r.now) references.now) }
{
    if are_several(references) {
        return Some(Code::SrcRedefine6_1_1);
    }
    if any_otherwise(references) {
        return Some(Code::SrcRedefine6_1_2);
    }
    None
}

// The code that an attribute group with these references to itself breaks.
fn uses_code(references: &[&Shape]) -> Option<Code>
    ensures { result ≡ inside.uses_code (map (λ r. r.now) references.now) }
{
    if are_several(references) {
        return Some(Code::SrcRedefine7_1);
    }
    None
}

// The code that a redefining type breaks by itself.
fn type_code(
    document: &SetDocument<'_>,
    numbered: &Numbered<'_>,
    name: &str,
    version: &Shape,
) -> Option<Code>
    requires numbered { IsPermutation document.now.shaped.now.shapes numbered.now }
    ensures { IsFirstCode (spec.Breaks document.now.shaped.now.shapes document.now.target name.now version.now redefinable.Type) result }
{
    if derives_from_itself(document, numbered, name, version) {
        return None;
    }
    Some(Code::SrcRedefine5)
}

// The first code that a redefining group breaks by itself.
fn group_code(
    alloc: Global,
    document: &SetDocument<'_>,
    numbered: &Numbered<'_>,
    name: &str,
    version: &Shape,
) -> Result<Option<Code>, AllocError>
    requires numbered { IsPermutation document.now.shaped.now.shapes numbered.now }
    ensures { IfOk result (IsFirstCode (spec.Breaks document.now.shaped.now.shapes document.now.target name.now version.now redefinable.Group)) }
{
    let references = self_references(alloc, document, numbered, Redefinable::Group, name, version)?;
    Ok(references_code(references.as_slice()))
}

// The code that a redefining attribute group breaks by itself.
fn attribute_group_code(
    alloc: Global,
    document: &SetDocument<'_>,
    numbered: &Numbered<'_>,
    name: &str,
    version: &Shape,
) -> Result<Option<Code>, AllocError>
    requires numbered { IsPermutation document.now.shaped.now.shapes numbered.now }
    ensures { IfOk result (IsFirstCode (spec.Breaks document.now.shaped.now.shapes document.now.target name.now version.now redefinable.AttributeGroup)) }
{
    let references = self_references(
        alloc,
        document,
        numbered,
        Redefinable::AttributeGroup,
        name,
        version,
    )?;
    Ok(uses_code(references.as_slice()))
}

// The first code that what redefines a component of this kind and name breaks by itself.
pub(crate) fn own_code(
    alloc: Global,
    document: &SetDocument<'_>,
    numbered: &Numbered<'_>,
    kind: Redefinable,
    name: &str,
    version: &Shape,
) -> Result<Option<Code>, AllocError>
    requires numbered { IsPermutation document.now.shaped.now.shapes numbered.now }
    ensures { IfOk result (IsFirstCode (spec.Breaks document.now.shaped.now.shapes document.now.target name.now version.now kind)) }
{
    match kind {
        Redefinable::Type => Ok(type_code(document, numbered, name, version)),
        Redefinable::Group => group_code(alloc, document, numbered, name, version),
        Redefinable::AttributeGroup => attribute_group_code(
            alloc, document, numbered, name, version,
        ),
    }
}
