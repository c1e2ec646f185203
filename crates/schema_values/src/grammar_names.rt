ghost use Rattle.std.specs.Prelude.{◌≡◌, map};
ghost use Rattle.schema_values.specs.GrammarNames as names;

use crate::{AttributeName, Tag};
use tree_rows::Expanded;

/// The namespace of schema documents (Structures 2.6).
pub const SCHEMA_NAMESPACE: &str = "http://www.w3.org/2001/XMLSchema";

/// The schema elements with their local names.
const TAGS: [(&str, Tag); 40] = [
    ("schema", Tag::Schema),
    ("include", Tag::Include),
    ("import", Tag::Import),
    ("redefine", Tag::Redefine),
    ("element", Tag::Element),
    ("attribute", Tag::Attribute),
    ("complexType", Tag::ComplexType),
    ("simpleContent", Tag::SimpleContent),
    ("complexContent", Tag::ComplexContent),
    ("restriction", Tag::Restriction),
    ("extension", Tag::Extension),
    ("group", Tag::Group),
    ("attributeGroup", Tag::AttributeGroup),
    ("all", Tag::All),
    ("choice", Tag::Choice),
    ("sequence", Tag::Sequence),
    ("any", Tag::Any),
    ("anyAttribute", Tag::AnyAttribute),
    ("simpleType", Tag::SimpleType),
    ("list", Tag::List),
    ("union", Tag::Union),
    ("length", Tag::Length),
    ("minLength", Tag::MinLength),
    ("maxLength", Tag::MaxLength),
    ("pattern", Tag::Pattern),
    ("enumeration", Tag::Enumeration),
    ("whiteSpace", Tag::WhiteSpace),
    ("maxInclusive", Tag::MaxInclusive),
    ("maxExclusive", Tag::MaxExclusive),
    ("minInclusive", Tag::MinInclusive),
    ("minExclusive", Tag::MinExclusive),
    ("totalDigits", Tag::TotalDigits),
    ("fractionDigits", Tag::FractionDigits),
    ("unique", Tag::Unique),
    ("key", Tag::Key),
    ("keyref", Tag::Keyref),
    ("selector", Tag::Selector),
    ("field", Tag::Field),
    ("annotation", Tag::Annotation),
    ("notation", Tag::Notation),
];

/// The schema element beside a name; `Tag::Other` where the name is not there.
fn tag_among(table: &[(&str, Tag)], local: &str) -> Tag
    ensures { result ≡ names.by_name Tag.Other (map (λ entry. (entry.0.now, entry.1)) table.now) local.now }
{
    for entry in table {
        if local == entry.0 {
            return entry.1;
        }
    }
    Tag::Other
}

/// The schema element of this local name.
fn tag_named(local: &str) -> Tag
    ensures { result ≡ names.tag_named local.now }
{
    tag_among(&TAGS, local)
}

/// The schema element of this expanded name; `Tag::Other` where the name is of no schema element.
pub fn tag_of(name: &Expanded) -> Tag
    ensures { result ≡ names.tag_of name.now }
{
    match &name.namespace {
        None => Tag::Other,
        Some(space) => {
            if space.as_str() == SCHEMA_NAMESPACE {
                tag_named(name.local.as_str())
            } else {
                Tag::Other
            }
        }
    }
}

/// The name of an attribute, as it is written.
pub fn attribute_text(name: AttributeName) -> &'static str
    ensures { result.now ≡ names.attribute_text name }
{
    match name {
        AttributeName::Id => "id",
        AttributeName::TargetNamespace => "targetNamespace",
        AttributeName::Version => "version",
        AttributeName::FinalDefault => "finalDefault",
        AttributeName::BlockDefault => "blockDefault",
        AttributeName::ElementFormDefault => "elementFormDefault",
        AttributeName::AttributeFormDefault => "attributeFormDefault",
        AttributeName::SchemaLocation => "schemaLocation",
        AttributeName::Namespace => "namespace",
        AttributeName::Name => "name",
        AttributeName::Type => "type",
        AttributeName::SubstitutionGroup => "substitutionGroup",
        AttributeName::Default => "default",
        AttributeName::Fixed => "fixed",
        AttributeName::Nillable => "nillable",
        AttributeName::Abstract => "abstract",
        AttributeName::Final => "final",
        AttributeName::Block => "block",
        AttributeName::Ref => "ref",
        AttributeName::Form => "form",
        AttributeName::MinOccurs => "minOccurs",
        AttributeName::MaxOccurs => "maxOccurs",
        AttributeName::Use => "use",
        AttributeName::Mixed => "mixed",
        AttributeName::Base => "base",
        AttributeName::ProcessContents => "processContents",
        AttributeName::ItemType => "itemType",
        AttributeName::MemberTypes => "memberTypes",
        AttributeName::Value => "value",
        AttributeName::Refer => "refer",
        AttributeName::Xpath => "xpath",
    }
}
