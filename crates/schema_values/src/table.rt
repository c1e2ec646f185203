ghost use Rattle.std.specs.Prelude.{◌≡◌, map};
ghost use Rattle.schema_values.specs.Table as table;

use crate::{AttributeName, Class, Kind, Rule, Step, Tag, ValueKind};

// Rules by their names and kinds: first the required attributes, then the others.
macro_rules! rules {
    ([$($must:ident: $must_kind:ident),*] [$($may:ident: $may_kind:ident),*]) => {
        &[
            $(Rule { name: AttributeName::$must, kind: ValueKind::$must_kind, required: true },)*
            $(Rule { name: AttributeName::$may, kind: ValueKind::$may_kind, required: false },)*
        ]
    };
}

// Steps, each with the mark of how many: `once`, `maybe`, `some` or `any`.
macro_rules! steps {
    ($($class:ident $many:ident),*) => {
        &[$(step!($class $many)),*]
    };
}

macro_rules! step {
    ($class:ident once) => { Step { class: Class::$class, required: true, repeats: false } };
    ($class:ident maybe) => { Step { class: Class::$class, required: false, repeats: false } };
    ($class:ident some) => { Step { class: Class::$class, required: true, repeats: true } };
    ($class:ident any) => { Step { class: Class::$class, required: false, repeats: true } };
}

/// The attributes that an element of this kind may have, in no namespace, each with the kind of its values (Structures,
/// appendix A).
pub fn rules(kind: Kind) -> &'static [Rule]
    ensures { result.now ≡ table.rules kind }
{
    match kind {
        Kind::Schema =>
            rules!([] [Id: NcName, TargetNamespace: Collapsed, Version: Collapsed, FinalDefault: AnyFinal, BlockDefault: Block, ElementFormDefault: Form, AttributeFormDefault: Form]),
        Kind::Include => rules!([SchemaLocation: Collapsed] [Id: NcName]),
        Kind::Import => rules!([] [Id: NcName, Namespace: Collapsed, SchemaLocation: Collapsed]),
        Kind::Redefine => rules!([SchemaLocation: Collapsed] [Id: NcName]),
        Kind::TopElement =>
            rules!([Name: NcName] [Id: NcName, Type: QName, SubstitutionGroup: QName, Default: Raw, Fixed: Raw, Nillable: Boolean, Abstract: Boolean, Final: ComplexFinal, Block: Block]),
        Kind::LocalElement =>
            rules!([] [Id: NcName, Name: NcName, Ref: QName, Type: QName, Default: Raw, Fixed: Raw, Nillable: Boolean, Block: Block, Form: Form, MinOccurs: Digits, MaxOccurs: Bound]),
        Kind::TopAttribute =>
            rules!([Name: NcName] [Id: NcName, Type: QName, Default: Raw, Fixed: Raw]),
        Kind::LocalAttribute =>
            rules!([] [Id: NcName, Name: NcName, Ref: QName, Type: QName, Default: Raw, Fixed: Raw, Form: Form, Use: Use]),
        Kind::TopComplexType =>
            rules!([Name: NcName] [Id: NcName, Abstract: Boolean, Final: ComplexFinal, Block: Block, Mixed: Boolean]),
        Kind::LocalComplexType => rules!([] [Id: NcName, Mixed: Boolean]),
        Kind::SimpleContent => rules!([] [Id: NcName]),
        Kind::ComplexContent => rules!([] [Id: NcName, Mixed: Boolean]),
        Kind::SimpleContentRestriction => rules!([Base: QName] [Id: NcName]),
        Kind::SimpleContentExtension => rules!([Base: QName] [Id: NcName]),
        Kind::ComplexContentRestriction => rules!([Base: QName] [Id: NcName]),
        Kind::ComplexContentExtension => rules!([Base: QName] [Id: NcName]),
        Kind::TopGroup => rules!([Name: NcName] [Id: NcName]),
        Kind::GroupReference =>
            rules!([Ref: QName] [Id: NcName, MinOccurs: Digits, MaxOccurs: Bound]),
        Kind::NamedAll => rules!([] [Id: NcName]),
        Kind::NamedChoice => rules!([] [Id: NcName]),
        Kind::NamedSequence => rules!([] [Id: NcName]),
        Kind::TopAttributeGroup => rules!([Name: NcName] [Id: NcName]),
        Kind::AttributeGroupReference => rules!([Ref: QName] [Id: NcName]),
        Kind::All => rules!([] [Id: NcName, MinOccurs: Digits, MaxOccurs: Bound]),
        Kind::Choice => rules!([] [Id: NcName, MinOccurs: Digits, MaxOccurs: Bound]),
        Kind::Sequence => rules!([] [Id: NcName, MinOccurs: Digits, MaxOccurs: Bound]),
        Kind::Any =>
            rules!([] [Id: NcName, Namespace: Namespaces, ProcessContents: Process, MinOccurs: Digits, MaxOccurs: Bound]),
        Kind::AnyAttribute =>
            rules!([] [Id: NcName, Namespace: Namespaces, ProcessContents: Process]),
        Kind::TopSimpleType => rules!([Name: NcName] [Id: NcName, Final: SimpleFinal]),
        Kind::LocalSimpleType => rules!([] [Id: NcName]),
        Kind::Restriction => rules!([] [Id: NcName, Base: QName]),
        Kind::List => rules!([] [Id: NcName, ItemType: QName]),
        Kind::Union => rules!([] [Id: NcName, MemberTypes: QNames]),
        Kind::Length => rules!([Value: FacetDigits] [Id: NcName, Fixed: Boolean]),
        Kind::MinLength => rules!([Value: FacetDigits] [Id: NcName, Fixed: Boolean]),
        Kind::MaxLength => rules!([Value: FacetDigits] [Id: NcName, Fixed: Boolean]),
        Kind::Pattern => rules!([Value: Raw] [Id: NcName]),
        Kind::Enumeration => rules!([Value: Raw] [Id: NcName]),
        Kind::WhiteSpace => rules!([Value: WhiteSpace] [Id: NcName, Fixed: Boolean]),
        Kind::MaxInclusive => rules!([Value: Raw] [Id: NcName, Fixed: Boolean]),
        Kind::MaxExclusive => rules!([Value: Raw] [Id: NcName, Fixed: Boolean]),
        Kind::MinInclusive => rules!([Value: Raw] [Id: NcName, Fixed: Boolean]),
        Kind::MinExclusive => rules!([Value: Raw] [Id: NcName, Fixed: Boolean]),
        Kind::TotalDigits => rules!([Value: PositiveDigits] [Id: NcName, Fixed: Boolean]),
        Kind::FractionDigits => rules!([Value: FacetDigits] [Id: NcName, Fixed: Boolean]),
        Kind::Unique => rules!([Name: NcName] [Id: NcName]),
        Kind::Key => rules!([Name: NcName] [Id: NcName]),
        Kind::Keyref => rules!([Name: NcName, Refer: QName] [Id: NcName]),
        Kind::Selector => rules!([Xpath: Collapsed] [Id: NcName]),
        Kind::Field => rules!([Xpath: Collapsed] [Id: NcName]),
        Kind::Annotation => rules!([] [Id: NcName]),
        Kind::Notation | Kind::Document | Kind::NoSchema | Kind::Ignored => &[],
    }
}

/// The contents that an element of this kind may have: its child elements follow the steps of one of them (Structures,
/// appendix A).
pub fn contents(kind: Kind) -> &'static [&'static [Step]]
    ensures { map (λ steps. steps.now) result.now ≡ table.contents kind }
{
    match kind {
        Kind::Schema => &[steps!(Head any, Top any)],
        Kind::Include => &[steps!(Annotation maybe)],
        Kind::Import => &[steps!(Annotation maybe)],
        Kind::Redefine => &[steps!(Redefined any)],
        Kind::TopElement => &[steps!(Annotation maybe, Type maybe, Identity any)],
        Kind::LocalElement => &[steps!(Annotation maybe, Type maybe, Identity any)],
        Kind::TopAttribute => &[steps!(Annotation maybe, SimpleType maybe)],
        Kind::LocalAttribute => &[steps!(Annotation maybe, SimpleType maybe)],
        Kind::TopComplexType => &[
            steps!(Annotation maybe, SimpleContent once),
            steps!(Annotation maybe, ComplexContent once),
            steps!(Annotation maybe, ModelGroup maybe, Attributes any, AnyAttribute maybe),
        ],
        Kind::LocalComplexType => &[
            steps!(Annotation maybe, SimpleContent once),
            steps!(Annotation maybe, ComplexContent once),
            steps!(Annotation maybe, ModelGroup maybe, Attributes any, AnyAttribute maybe),
        ],
        Kind::SimpleContent => &[steps!(Annotation maybe, Derivation once)],
        Kind::ComplexContent => &[steps!(Annotation maybe, Derivation once)],
        Kind::SimpleContentRestriction => &[
            steps!(Annotation maybe, SimpleType maybe, Facet any, Attributes any, AnyAttribute maybe),
        ],
        Kind::SimpleContentExtension => &[
            steps!(Annotation maybe, Attributes any, AnyAttribute maybe),
        ],
        Kind::ComplexContentRestriction => &[
            steps!(Annotation maybe, ModelGroup maybe, Attributes any, AnyAttribute maybe),
        ],
        Kind::ComplexContentExtension => &[
            steps!(Annotation maybe, ModelGroup maybe, Attributes any, AnyAttribute maybe),
        ],
        Kind::TopGroup => &[steps!(Annotation maybe, Compositor once)],
        Kind::GroupReference => &[steps!(Annotation maybe)],
        Kind::NamedAll => &[steps!(Annotation maybe, Element any)],
        Kind::NamedChoice => &[steps!(Annotation maybe, Particle any)],
        Kind::NamedSequence => &[steps!(Annotation maybe, Particle any)],
        Kind::TopAttributeGroup => &[steps!(Annotation maybe, Attributes any, AnyAttribute maybe)],
        Kind::AttributeGroupReference => &[steps!(Annotation maybe)],
        Kind::All => &[steps!(Annotation maybe, Element any)],
        Kind::Choice => &[steps!(Annotation maybe, Particle any)],
        Kind::Sequence => &[steps!(Annotation maybe, Particle any)],
        Kind::Any => &[steps!(Annotation maybe)],
        Kind::AnyAttribute => &[steps!(Annotation maybe)],
        Kind::TopSimpleType => &[steps!(Annotation maybe, Variety once)],
        Kind::LocalSimpleType => &[steps!(Annotation maybe, Variety once)],
        Kind::Restriction => &[steps!(Annotation maybe, SimpleType maybe, Facet any)],
        Kind::List => &[steps!(Annotation maybe, SimpleType maybe)],
        Kind::Union => &[steps!(Annotation maybe, SimpleType any)],
        Kind::Length => &[steps!(Annotation maybe)],
        Kind::MinLength => &[steps!(Annotation maybe)],
        Kind::MaxLength => &[steps!(Annotation maybe)],
        Kind::Pattern => &[steps!(Annotation maybe)],
        Kind::Enumeration => &[steps!(Annotation maybe)],
        Kind::WhiteSpace => &[steps!(Annotation maybe)],
        Kind::MaxInclusive => &[steps!(Annotation maybe)],
        Kind::MaxExclusive => &[steps!(Annotation maybe)],
        Kind::MinInclusive => &[steps!(Annotation maybe)],
        Kind::MinExclusive => &[steps!(Annotation maybe)],
        Kind::TotalDigits => &[steps!(Annotation maybe)],
        Kind::FractionDigits => &[steps!(Annotation maybe)],
        Kind::Unique => &[steps!(Annotation maybe, Selector once, Field some)],
        Kind::Key => &[steps!(Annotation maybe, Selector once, Field some)],
        Kind::Keyref => &[steps!(Annotation maybe, Selector once, Field some)],
        Kind::Selector => &[steps!(Annotation maybe)],
        Kind::Field => &[steps!(Annotation maybe)],
        Kind::Annotation => &[steps!(Anything any)],
        Kind::Notation | Kind::Document | Kind::NoSchema | Kind::Ignored => &[steps!(Anything any)],
    }
}

/// Whether an element of this name is of the class.
pub fn is_in(class: Class, tag: Tag) -> bool
    ensures { result ≡ table.is_in class tag }
{
    match class {
        Class::Anything => true,
        Class::Annotation => matches!(tag, Tag::Annotation),
        Class::Head => matches!(
            tag,
            Tag::Include | Tag::Import | Tag::Redefine | Tag::Annotation
        ),
        Class::Top => matches!(
            tag,
            Tag::SimpleType
                | Tag::ComplexType
                | Tag::Group
                | Tag::AttributeGroup
                | Tag::Element
                | Tag::Attribute
                | Tag::Notation
                | Tag::Annotation
        ),
        Class::Redefined => matches!(
            tag,
            Tag::SimpleType | Tag::ComplexType | Tag::Group | Tag::AttributeGroup | Tag::Annotation
        ),
        Class::Type => matches!(tag, Tag::SimpleType | Tag::ComplexType),
        Class::Identity => matches!(tag, Tag::Unique | Tag::Key | Tag::Keyref),
        Class::SimpleType => matches!(tag, Tag::SimpleType),
        Class::SimpleContent => matches!(tag, Tag::SimpleContent),
        Class::ComplexContent => matches!(tag, Tag::ComplexContent),
        Class::Derivation => matches!(tag, Tag::Restriction | Tag::Extension),
        Class::ModelGroup => matches!(tag, Tag::Group | Tag::All | Tag::Choice | Tag::Sequence),
        Class::Compositor => matches!(tag, Tag::All | Tag::Choice | Tag::Sequence),
        Class::Particle => matches!(
            tag,
            Tag::Element | Tag::Group | Tag::Choice | Tag::Sequence | Tag::Any
        ),
        Class::Element => matches!(tag, Tag::Element),
        Class::Attributes => matches!(tag, Tag::Attribute | Tag::AttributeGroup),
        Class::AnyAttribute => matches!(tag, Tag::AnyAttribute),
        Class::Facet => matches!(
            tag,
            Tag::Length
                | Tag::MinLength
                | Tag::MaxLength
                | Tag::Pattern
                | Tag::Enumeration
                | Tag::WhiteSpace
                | Tag::MaxInclusive
                | Tag::MaxExclusive
                | Tag::MinInclusive
                | Tag::MinExclusive
                | Tag::TotalDigits
                | Tag::FractionDigits
        ),
        Class::Variety => matches!(tag, Tag::Restriction | Tag::List | Tag::Union),
        Class::Selector => matches!(tag, Tag::Selector),
        Class::Field => matches!(tag, Tag::Field),
    }
}
