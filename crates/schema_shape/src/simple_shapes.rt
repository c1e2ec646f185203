ghost use Rattle.std.specs.Prelude.{◌≡◌, IfOk};
ghost use Rattle.schema_shape.specs.Shapes as spec;

use crate::forms::Form;
use schema_values::{AttributeName, Kind, flag_of, name_of, names_of, raw_of};
use std::alloc::{AllocError, Global};
use tag_names::Prefixes;
use tree_rows::Attribute;
use xs_components::FacetKind;
use xs_names::Text;

/// A facet, by its value as it stands.
fn facet(alloc: Global, kind: FacetKind, attributes: &[Attribute]) -> Result<Form, AllocError>
    ensures { IfOk result (λ form. form ≡ spec.facet kind attributes.now) }
{
    let text = match raw_of(AttributeName::Value, attributes)? {
        None => Text::new(alloc, "")?,
        Some(text) => text,
    };
    Ok(Form::Facet {
        kind,
        text,
        fixed: flag_of(alloc, AttributeName::Fixed, attributes)?.unwrap_or(false),
    })
}

/// What a facet, or what else stands in a simple type, declares.
pub(crate) fn simple_form(
    alloc: Global,
    kind: Kind,
    scope: &Prefixes,
    attributes: &[Attribute],
) -> Result<Form, AllocError>
    ensures { IfOk result (λ form. form ≡ spec.simple_form kind scope.now attributes.now) }
{
    match kind {
        Kind::Restriction => Ok(Form::Restriction {
            base: name_of(alloc, AttributeName::Base, scope, attributes)?,
        }),
        Kind::List => Ok(Form::ItemType {
            of: name_of(alloc, AttributeName::ItemType, scope, attributes)?,
        }),
        Kind::Union => Ok(Form::Union {
            members: names_of(alloc, AttributeName::MemberTypes, scope, attributes)?,
        }),
        Kind::Length => facet(alloc, FacetKind::Length, attributes),
        Kind::MinLength => facet(alloc, FacetKind::MinLength, attributes),
        Kind::MaxLength => facet(alloc, FacetKind::MaxLength, attributes),
        Kind::Pattern => facet(alloc, FacetKind::Pattern, attributes),
        Kind::Enumeration => facet(alloc, FacetKind::Enumeration, attributes),
        Kind::WhiteSpace => facet(alloc, FacetKind::WhiteSpace, attributes),
        Kind::MaxInclusive => facet(alloc, FacetKind::MaxInclusive, attributes),
        Kind::MaxExclusive => facet(alloc, FacetKind::MaxExclusive, attributes),
        Kind::MinInclusive => facet(alloc, FacetKind::MinInclusive, attributes),
        Kind::MinExclusive => facet(alloc, FacetKind::MinExclusive, attributes),
        Kind::TotalDigits => facet(alloc, FacetKind::TotalDigits, attributes),
        Kind::FractionDigits => facet(alloc, FacetKind::FractionDigits, attributes),
        _ => Ok(Form::Nothing),
    }
}
