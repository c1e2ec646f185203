use xs_codes::Builtin;
use xs_components::{FacetKind, Methods, Place, Wildcard};
use xs_lists::Listed;
use xs_names::{NameId, Text};

/// A type by its name: anyType, a built-in type, or a type that the documents may define.
#[derive(Clone, Copy)]
pub enum TypeName {
    AnyType,
    Builtin(Builtin),
    Named(NameId),
}

/// A default or a fixed value, as it stands.
#[derive(Drop)]
pub struct GivenValue {
    pub fixed: bool,
    pub text: Text,
}

/// A declaration of an element, or a reference to one (Structures 3.3.2).
#[derive(Drop)]
pub struct ElementRepresentation {
    /// Whether it stands at the top of a schema document.
    pub global: bool,
    /// The name that it declares; `None` where it is a reference.
    pub name: Option<NameId>,
    pub reference: Option<NameId>,
    pub of: Option<TypeName>,
    /// The head of its substitution group.
    pub head: Option<NameId>,
    pub value: Option<GivenValue>,
    pub nillable: bool,
    pub is_abstract: bool,
    pub finals: Methods,
    pub blocks: Methods,
}

/// A declaration of an attribute, or a reference to one (Structures 3.2.2).
#[derive(Drop)]
pub struct AttributeRepresentation {
    /// Whether it stands at the top of a schema document.
    pub global: bool,
    /// The name that it declares; `None` where it is a reference.
    pub name: Option<NameId>,
    pub reference: Option<NameId>,
    pub of: Option<TypeName>,
    pub value: Option<GivenValue>,
    pub required: bool,
    pub prohibited: bool,
}

/// A complex type (Structures 3.4.2).
#[derive(Drop)]
pub struct ComplexTypeRepresentation {
    pub name: Option<NameId>,
    pub is_abstract: bool,
    pub finals: Methods,
    pub blocks: Methods,
    pub mixed: bool,
}

/// What an element of a schema document represents.
#[derive(Drop)]
pub enum Represented {
    Element(ElementRepresentation),
    Attribute(AttributeRepresentation),
    ComplexType(ComplexTypeRepresentation),
    SimpleType {
        name: Option<NameId>,
        finals: Methods,
    },
    /// A restriction of a simple type.
    Restriction {
        base: Option<TypeName>,
    },
    /// A list, by the type of its items.
    ItemType {
        of: Option<TypeName>,
    },
    /// A union, by the types of its members that it names.
    Union {
        members: Listed<TypeName>,
    },
    Facet {
        kind: FacetKind,
        text: Text,
        fixed: bool,
    },
    SimpleContent,
    ComplexContent {
        mixed: Option<bool>,
    },
    /// A restriction or an extension in simpleContent or complexContent.
    Derivation {
        by_extension: bool,
        base: Option<TypeName>,
    },
    Group {
        name: NameId,
    },
    AttributeGroup {
        name: NameId,
    },
    GroupReference {
        to: Option<NameId>,
    },
    AttributeGroupReference {
        to: Option<NameId>,
    },
    Sequence,
    Choice,
    All,
    Any(Wildcard),
    AnyAttribute(Wildcard),
    Unique {
        name: NameId,
    },
    Key {
        name: NameId,
    },
    Keyref {
        name: NameId,
        refer: Option<NameId>,
    },
    Selector {
        path: Text,
    },
    Field {
        path: Text,
    },
    /// Nothing that a component is built from.
    Nothing,
}

/// An element of a schema document, and what it represents.
#[derive(Drop)]
pub struct Representation {
    pub at: Place,
    /// The place of its scope among the scopes of the set.
    pub scope: u32,
    /// How often it may come at least, where it is a particle; else 1.
    pub min: u32,
    /// How often it may come at most, `None` where there is no bound; 1 where it is no particle.
    pub max: Option<u32>,
    /// The places of the elements in it.
    pub members: Listed<u32>,
    pub form: Represented,
}
