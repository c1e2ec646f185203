ghost use Rattle.std.specs.Prelude.{◌≡◌};
ghost use Rattle.schema_values.specs.Places as places;

use crate::{Kind, Tag};

/// What a root of this name is.
fn root_kind(tag: Tag) -> Kind
    ensures { result ≡ places.root_kind tag }
{
    match tag {
        Tag::Schema => Kind::Schema,
        _ => Kind::NoSchema,
    }
}

/// What an element of this name is below a schema.
fn top_kind(tag: Tag) -> Kind
    ensures { result ≡ places.top_kind tag }
{
    match tag {
        Tag::SimpleType => Kind::TopSimpleType,
        Tag::ComplexType => Kind::TopComplexType,
        Tag::Group => Kind::TopGroup,
        Tag::AttributeGroup => Kind::TopAttributeGroup,
        Tag::Element => Kind::TopElement,
        Tag::Attribute => Kind::TopAttribute,
        Tag::Include => Kind::Include,
        Tag::Import => Kind::Import,
        Tag::Redefine => Kind::Redefine,
        Tag::Notation => Kind::Notation,
        Tag::Annotation => Kind::Annotation,
        _ => Kind::Ignored,
    }
}

/// What an element of this name is below a redefine.
fn below_redefine(tag: Tag) -> Kind
    ensures { result ≡ places.below_redefine tag }
{
    match tag {
        Tag::Include | Tag::Import | Tag::Redefine => Kind::Ignored,
        _ => top_kind(tag),
    }
}

/// What an element of this name is below another element.
fn inner_kind(tag: Tag) -> Kind
    ensures { result ≡ places.inner_kind tag }
{
    match tag {
        Tag::Annotation => Kind::Annotation,
        Tag::Element => Kind::LocalElement,
        Tag::Attribute => Kind::LocalAttribute,
        Tag::ComplexType => Kind::LocalComplexType,
        Tag::SimpleContent => Kind::SimpleContent,
        Tag::ComplexContent => Kind::ComplexContent,
        Tag::Group => Kind::GroupReference,
        Tag::AttributeGroup => Kind::AttributeGroupReference,
        Tag::All => Kind::All,
        Tag::Choice => Kind::Choice,
        Tag::Sequence => Kind::Sequence,
        Tag::Any => Kind::Any,
        Tag::AnyAttribute => Kind::AnyAttribute,
        Tag::SimpleType => Kind::LocalSimpleType,
        Tag::Restriction => Kind::Restriction,
        Tag::List => Kind::List,
        Tag::Union => Kind::Union,
        Tag::Unique => Kind::Unique,
        Tag::Key => Kind::Key,
        Tag::Keyref => Kind::Keyref,
        Tag::Selector => Kind::Selector,
        Tag::Field => Kind::Field,
        Tag::Length => Kind::Length,
        Tag::MinLength => Kind::MinLength,
        Tag::MaxLength => Kind::MaxLength,
        Tag::Pattern => Kind::Pattern,
        Tag::Enumeration => Kind::Enumeration,
        Tag::WhiteSpace => Kind::WhiteSpace,
        Tag::MaxInclusive => Kind::MaxInclusive,
        Tag::MaxExclusive => Kind::MaxExclusive,
        Tag::MinInclusive => Kind::MinInclusive,
        Tag::MinExclusive => Kind::MinExclusive,
        Tag::TotalDigits => Kind::TotalDigits,
        Tag::FractionDigits => Kind::FractionDigits,
        _ => Kind::Ignored,
    }
}

/// What an element of this name is below a simpleContent.
fn below_simple_content(tag: Tag) -> Kind
    ensures { result ≡ places.below_simple_content tag }
{
    match tag {
        Tag::Restriction => Kind::SimpleContentRestriction,
        Tag::Extension => Kind::SimpleContentExtension,
        _ => inner_kind(tag),
    }
}

/// What an element of this name is below a complexContent.
fn below_complex_content(tag: Tag) -> Kind
    ensures { result ≡ places.below_complex_content tag }
{
    match tag {
        Tag::Restriction => Kind::ComplexContentRestriction,
        Tag::Extension => Kind::ComplexContentExtension,
        _ => inner_kind(tag),
    }
}

/// What an element of this name is below a named group.
fn below_top_group(tag: Tag) -> Kind
    ensures { result ≡ places.below_top_group tag }
{
    match tag {
        Tag::All => Kind::NamedAll,
        Tag::Choice => Kind::NamedChoice,
        Tag::Sequence => Kind::NamedSequence,
        _ => inner_kind(tag),
    }
}

/// What an element of this name is below one of this kind. Where it may not stand it is of some kind.
pub fn kind_below(parent: Kind, tag: Tag) -> Kind
    ensures { result ≡ places.kind_below parent tag }
{
    match parent {
        Kind::Annotation | Kind::Notation | Kind::NoSchema | Kind::Ignored => Kind::Ignored,
        Kind::Document => root_kind(tag),
        Kind::Schema => top_kind(tag),
        Kind::Redefine => below_redefine(tag),
        Kind::SimpleContent => below_simple_content(tag),
        Kind::ComplexContent => below_complex_content(tag),
        Kind::TopGroup => below_top_group(tag),
        _ => inner_kind(tag),
    }
}
