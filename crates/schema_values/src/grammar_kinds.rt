/// The name of an element of a schema document; `Other` is every name that no schema element has.
#[derive(Clone, Copy)]
pub enum Tag {
    Schema,
    Include,
    Import,
    Redefine,
    Element,
    Attribute,
    ComplexType,
    SimpleContent,
    ComplexContent,
    Restriction,
    Extension,
    Group,
    AttributeGroup,
    All,
    Choice,
    Sequence,
    Any,
    AnyAttribute,
    SimpleType,
    List,
    Union,
    Length,
    MinLength,
    MaxLength,
    Pattern,
    Enumeration,
    WhiteSpace,
    MaxInclusive,
    MaxExclusive,
    MinInclusive,
    MinExclusive,
    TotalDigits,
    FractionDigits,
    Unique,
    Key,
    Keyref,
    Selector,
    Field,
    Annotation,
    Notation,
    Other,
}

/// What an element of a schema document is, by its name and by what it stands in. `Document` is what the root stands in,
/// `NoSchema` a root that is no schema, and `Ignored` what is below an annotation or a notation.
#[derive(Clone, Copy)]
pub enum Kind {
    Schema,
    Include,
    Import,
    Redefine,
    TopElement,
    LocalElement,
    TopAttribute,
    LocalAttribute,
    TopComplexType,
    LocalComplexType,
    SimpleContent,
    ComplexContent,
    SimpleContentRestriction,
    SimpleContentExtension,
    ComplexContentRestriction,
    ComplexContentExtension,
    TopGroup,
    GroupReference,
    NamedAll,
    NamedChoice,
    NamedSequence,
    TopAttributeGroup,
    AttributeGroupReference,
    All,
    Choice,
    Sequence,
    Any,
    AnyAttribute,
    TopSimpleType,
    LocalSimpleType,
    Restriction,
    List,
    Union,
    Length,
    MinLength,
    MaxLength,
    Pattern,
    Enumeration,
    WhiteSpace,
    MaxInclusive,
    MaxExclusive,
    MinInclusive,
    MinExclusive,
    TotalDigits,
    FractionDigits,
    Unique,
    Key,
    Keyref,
    Selector,
    Field,
    Annotation,
    Notation,
    Document,
    NoSchema,
    Ignored,
}

/// The name of an attribute of a schema element.
#[derive(Clone, Copy)]
pub enum AttributeName {
    Id,
    TargetNamespace,
    Version,
    FinalDefault,
    BlockDefault,
    ElementFormDefault,
    AttributeFormDefault,
    SchemaLocation,
    Namespace,
    Name,
    Type,
    SubstitutionGroup,
    Default,
    Fixed,
    Nillable,
    Abstract,
    Final,
    Block,
    Ref,
    Form,
    MinOccurs,
    MaxOccurs,
    Use,
    Mixed,
    Base,
    ProcessContents,
    ItemType,
    MemberTypes,
    Value,
    Refer,
    Xpath,
}

/// The kind of an attribute's value.
#[derive(Clone, Copy)]
pub enum ValueKind {
    /// A name without a colon.
    NcName,
    /// Any text, its white space collapsed.
    Collapsed,
    /// Any text as it stands.
    Raw,
    /// A QName whose prefix is bound.
    QName,
    /// A list of such QNames.
    QNames,
    /// `true`, `false`, `1` or `0`.
    Boolean,
    /// `qualified` or `unqualified`.
    Form,
    /// `optional`, `prohibited` or `required`.
    Use,
    /// `strict`, `lax` or `skip`.
    Process,
    /// Digits.
    Digits,
    /// Digits or `unbounded`.
    Bound,
    /// `#all`, or a list of extension, restriction and substitution.
    Block,
    /// `#all`, or a list of extension and restriction.
    ComplexFinal,
    /// `#all`, or a list of restriction, list and union.
    SimpleFinal,
    /// `#all`, or a list of extension, restriction, list and union.
    AnyFinal,
    /// `##any`, `##other` or a list of texts.
    Namespaces,
    /// Digits, with no white space.
    FacetDigits,
    /// Digits that are not 0, with no white space.
    PositiveDigits,
    /// `preserve`, `replace` or `collapse`, with no white space.
    WhiteSpace,
}

/// A class of child elements, of which one stands where another may.
#[derive(Clone, Copy)]
pub enum Class {
    Anything,
    Annotation,
    Head,
    Top,
    Redefined,
    Type,
    Identity,
    SimpleType,
    SimpleContent,
    ComplexContent,
    Derivation,
    ModelGroup,
    Compositor,
    Particle,
    Element,
    Attributes,
    AnyAttribute,
    Facet,
    Variety,
    Selector,
    Field,
}

/// An attribute that an element may have.
#[derive(Clone, Copy)]
pub struct Rule {
    pub name: AttributeName,
    pub kind: ValueKind,
    pub required: bool,
}

/// A step of a content: children of a class, at least one where it is required, more than one where it repeats.
#[derive(Clone, Copy)]
pub struct Step {
    pub class: Class,
    pub required: bool,
    pub repeats: bool,
}
