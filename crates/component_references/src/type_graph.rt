ghost use Rattle.std.specs.Prelude.{◌≡◌, ◌+◌, ◌++◌, ◌<◌, ◌^◌, [], OnOk, IfOk, length, vec_len};
ghost use Rattle.component_references.specs.Ranked.{named_types};
ghost use Rattle.component_references.specs.References as spec;

use crate::rows::{row_of, shifted};
use std::alloc::{AllocError, Global};
use xs_components::{AttrGroupId, Components, ElementDecl, SimpleForm, TypeId};
use xs_lists::Listed;

// Puts the number of a type among all to others, if it has one.
fn push_type(row: &mut Listed<u32>, simples: u32, of: TypeId) -> Result<(), AllocError>
    ensures { OnOk result (row.new ≡ row.old ++ spec.type_number simples of) }
{
    match of {
        TypeId::AnyType => Ok(()),
        TypeId::Builtin(_) => Ok(()),
        TypeId::Simple(id) => row.push(id.number()),
        TypeId::Complex(id) => row.push(shifted(simples, id.number())?),
    }
}

// The numbers of some types.
fn type_row(alloc: Global, simples: u32, types: &[TypeId]) -> Result<Listed<u32>, AllocError>
    ensures { IfOk result (λ row. row ≡ spec.type_numbers simples types.now) }
{
    let mut row = Listed::new(alloc);
    for of in types {
        push_type(&mut row, simples, *of)?;
    }
    Ok(row)
}

// The number of a base.
fn base_row(alloc: Global, simples: u32, base: TypeId) -> Result<Listed<u32>, AllocError>
    ensures { IfOk result (λ row. row ≡ spec.type_number simples base) }
{
    let mut row = Listed::new(alloc);
    push_type(&mut row, simples, base)?;
    Ok(row)
}

// The numbers of the types that a simple type is made of.
fn form_row(alloc: Global, simples: u32, form: &SimpleForm) -> Result<Listed<u32>, AllocError>
    ensures { IfOk result (λ row. row ≡ spec.type_numbers simples (named_types form.now)) }
{
    match form {
        SimpleForm::Restrict { base, .. } => type_row(alloc, simples, &[*base]),
        SimpleForm::ListOf { item } => type_row(alloc, simples, &[*item]),
        SimpleForm::UnionOf { members } => type_row(alloc, simples, members.as_slice()),
    }
}

// The references among types.
pub(crate) fn type_references(
    alloc: Global,
    parts: &Components,
) -> Result<Vec<Listed<u32>>, AllocError>
    ensures references { IfOk result (λ refs. refs.items ≡ spec.type_references parts.now) }
{
    let simples = parts.simples().len() as u32;
    let mut refs = Vec::new(alloc);
    for part in parts.simples() {
        refs.push(form_row(alloc, simples, &part.form)?)?;
    }
    for part in parts.complexes() {
        refs.push(base_row(alloc, simples, part.base)?)?;
    }
    Ok(refs)
}

// The number of the head of an element, if it has one.
fn head_row(alloc: Global, part: &ElementDecl) -> Result<Listed<u32>, AllocError>
    ensures { IfOk result (λ row. row ≡ spec.one_or_none part.now.head) }
{
    match part.head {
        Some(head) => row_of(alloc, head.number()),
        None => Ok(Listed::new(alloc)),
    }
}

// The references from elements to heads.
pub(crate) fn element_references(
    alloc: Global,
    parts: &Components,
) -> Result<Vec<Listed<u32>>, AllocError>
    ensures references { IfOk result (λ refs. refs.items ≡ spec.element_references parts.now) }
{
    let mut refs = Vec::new(alloc);
    for part in parts.elements() {
        refs.push(head_row(alloc, part)?)?;
    }
    Ok(refs)
}

// The numbers of attribute groups.
fn attr_group_row(alloc: Global, groups: &[AttrGroupId]) -> Result<Listed<u32>, AllocError>
    ensures { IfOk result (λ row. row ≡ groups.now) }
{
    let mut row = Listed::new(alloc);
    for group in groups {
        row.push(group.number())?;
    }
    Ok(row)
}

// The references among attribute groups.
pub(crate) fn attr_group_references(
    alloc: Global,
    parts: &Components,
) -> Result<Vec<Listed<u32>>, AllocError>
    ensures references { IfOk result (λ refs. refs.items ≡ spec.attr_group_references parts.now) }
{
    let mut refs = Vec::new(alloc);
    for part in parts.attr_groups() {
        refs.push(attr_group_row(alloc, part.groups.as_slice())?)?;
    }
    Ok(refs)
}
