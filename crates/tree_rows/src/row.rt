use crate::Expanded;
use xs_lists::Listed;
use xs_names::Text;

/// An attribute that is no binding.
pub struct Attribute {
    pub name: Expanded,
    pub value: Text,
}

/// The binding of a prefix to a namespace. The empty prefix stands for the default namespace, and the empty
/// namespace for the absent one (Namespaces in XML 1.0, 3 and 6.2).
pub struct Binding {
    pub prefix: Text,
    pub namespace: Text,
}

/// The attributes of an element, in order.
pub type Attributes = Listed<Attribute>;

/// The bindings of a start tag, in order.
pub type Bindings = Listed<Binding>;

/// What a node is.
pub enum Content {
    /// An element, by its name.
    Element(Expanded),
    /// A text, by its characters.
    Chars(Text),
}

/// Whether a node is an element or a text.
#[derive(Clone, Copy, PartialEq)]
pub enum NodeKind {
    Element,
    Chars,
}

/// A node of a tree, as it stands in document order.
pub struct Row {
    /// The node's number, from 1.
    pub number: u32,
    /// How deep the node stands; the root has depth 1.
    pub depth: u32,
    pub content: Content,
    /// The bindings of an element's start tag, in order; a text has none.
    pub bindings: Bindings,
    /// The attributes of an element, in order; a text has none.
    pub attributes: Attributes,
}

impl Drop for Binding {
    fn drop(self) {
        let Binding { prefix, namespace } = self;
        drop(prefix);
        drop(namespace);
    }
}

impl Drop for Attribute {
    fn drop(self) {
        let Attribute { name, value } = self;
        drop(name);
        drop(value);
    }
}

impl Drop for Content {
    fn drop(self) {
        match self {
            Content::Element(element) => drop(element),
            Content::Chars(chars) => drop(chars),
        }
    }
}

impl Drop for Row {
    fn drop(self) {
        let Row {
            number: _,
            depth: _,
            content,
            bindings,
            attributes,
        } = self;
        drop(content);
        drop(bindings);
        drop(attributes);
    }
}
