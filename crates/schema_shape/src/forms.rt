use schema_values::{Occurs, Spaces};
use tree_rows::{Binding, Expanded};
use xs_codes::Fault;
use xs_components::{FacetKind, Methods, Process};
use xs_lists::Listed;
use xs_names::Text;

/// A default or a fixed value, as it stands. It is read in the scope of its element.
#[derive(Drop)]
pub struct ValueForm {
    pub fixed: bool,
    pub text: Text,
}

/// What the schema element says of its document (Structures 3.15.2). A part is `None` where its attribute is not there,
/// here and below.
#[derive(Drop)]
pub struct SchemaForm {
    /// The target namespace; `None` is the absent one.
    pub target: Option<Text>,
    pub finals: Option<Methods>,
    pub blocks: Option<Methods>,
    pub elements_qualified: Option<bool>,
    pub attributes_qualified: Option<bool>,
}

/// A declaration of an element, or a reference to one (Structures 3.3.2).
#[derive(Drop)]
pub struct ElementForm {
    /// Whether it stands at the top of a schema document or in a redefine.
    pub global: bool,
    pub name: Option<Text>,
    pub reference: Option<Expanded>,
    pub of: Option<Expanded>,
    /// The head of its substitution group.
    pub head: Option<Expanded>,
    pub value: Option<ValueForm>,
    pub nillable: Option<bool>,
    pub is_abstract: Option<bool>,
    pub finals: Option<Methods>,
    pub blocks: Option<Methods>,
    pub qualified: Option<bool>,
    pub occurs: Occurs,
}

/// How an attribute is used (Structures 3.2.2).
#[derive(Clone, Copy)]
pub enum Use {
    Optional,
    Prohibited,
    Required,
}

/// A declaration of an attribute, or a reference to one (Structures 3.2.2).
#[derive(Drop)]
pub struct AttributeForm {
    /// Whether it stands at the top of a schema document.
    pub global: bool,
    pub name: Option<Text>,
    pub reference: Option<Expanded>,
    pub of: Option<Expanded>,
    pub value: Option<ValueForm>,
    pub qualified: Option<bool>,
    pub used: Use,
}

/// A complex type (Structures 3.4.2).
#[derive(Drop)]
pub struct ComplexTypeForm {
    pub name: Option<Text>,
    pub is_abstract: Option<bool>,
    pub finals: Option<Methods>,
    pub blocks: Option<Methods>,
    pub mixed: Option<bool>,
}

/// How the members of a model group stand together (Structures 3.8.1).
#[derive(Clone, Copy)]
pub enum Compositor {
    All,
    Choice,
    Sequence,
}

/// A wildcard (Structures 3.10.2).
#[derive(Drop)]
pub struct WildcardForm {
    pub spaces: Spaces,
    pub process: Process,
}

/// What an identity constraint asks (Structures 3.11.1).
#[derive(Clone, Copy)]
pub enum IdentityKind {
    Unique,
    Key,
    Keyref,
}

/// What an element of a schema document declares.
#[derive(Drop)]
pub enum Form {
    Schema(SchemaForm),
    Include {
        location: Text,
    },
    /// The namespace is empty where it is the absent one.
    Import {
        namespace: Option<Text>,
        location: Option<Text>,
    },
    Redefine {
        location: Text,
    },
    Element(ElementForm),
    Attribute(AttributeForm),
    ComplexType(ComplexTypeForm),
    SimpleType {
        name: Option<Text>,
        finals: Option<Methods>,
    },
    Group {
        name: Text,
    },
    AttributeGroup {
        name: Text,
    },
    Identity {
        kind: IdentityKind,
        name: Text,
        refer: Option<Expanded>,
    },
    Selector {
        path: Text,
    },
    Field {
        path: Text,
    },
    SimpleContent,
    ComplexContent {
        mixed: Option<bool>,
    },
    /// A restriction or an extension in simpleContent or complexContent.
    Derivation {
        by_extension: bool,
        base: Option<Expanded>,
    },
    GroupReference {
        to: Option<Expanded>,
        occurs: Occurs,
    },
    AttributeGroupReference {
        to: Option<Expanded>,
    },
    ModelGroup {
        compositor: Compositor,
        occurs: Occurs,
    },
    Any {
        wildcard: WildcardForm,
        occurs: Occurs,
    },
    AnyAttribute(WildcardForm),
    /// A restriction of a simple type.
    Restriction {
        base: Option<Expanded>,
    },
    /// A list, by the type of its items.
    ItemType {
        of: Option<Expanded>,
    },
    /// A union, by the types of its members that it names.
    Union {
        members: Listed<Expanded>,
    },
    /// A facet's value as it stands. It is read in the scope of its element.
    Facet {
        kind: FacetKind,
        text: Text,
        fixed: bool,
    },
    /// Nothing.
    Nothing,
}

/// What an element of a schema document declares, and where. Its scope is its own bindings and, behind them, the scope of the
/// nearest element above that has bindings.
#[derive(Drop)]
pub struct Shape {
    /// The number of the element.
    pub item: u32,
    /// The number of the nearest element above that has bindings, 0 where there is none.
    pub above: u32,
    /// The element's own bindings.
    pub bindings: Listed<Binding>,
    /// The numbers of the elements in it, but for annotations.
    pub members: Listed<u32>,
    pub form: Form,
}

/// What the elements of a document declare, in document order: an element stands before what is in it.
pub type ShapeList = Listed<Shape>;

/// What a schema document declares. The first shape is that of the schema element.
#[derive(Drop)]
pub struct ShapedSchema {
    pub shapes: ShapeList,
}

/// What the elements of a schema document declare, and the first constraint on its shape that it breaks, if it breaks one.
#[derive(Drop)]
pub struct Reading {
    pub schema: ShapedSchema,
    pub fault: Option<Fault>,
}
