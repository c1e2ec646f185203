use xs_lists::Listed;
use xs_names::{NameId, NsId, Text};

/// An attribute that is no binding.
#[derive(Drop)]
pub struct NameAttribute {
    pub name: NameId,
    pub value: Text,
}

/// The binding of a prefix to a namespace. The empty prefix stands for the default namespace
/// (Namespaces in XML 1.0, 3 and 6.2).
#[derive(Drop)]
pub struct NameBinding {
    pub prefix: Text,
    pub namespace: NsId,
}

/// What an element holds beside its children.
#[derive(Drop)]
pub struct Element {
    pub name: NameId,
    /// The bindings of the start tag, in order.
    pub bindings: Listed<NameBinding>,
    /// The attributes, in order.
    pub attributes: Listed<NameAttribute>,
}

/// What a node holds beside its children.
#[derive(Drop)]
pub enum Content {
    Element(Element),
    /// A text, by its characters.
    Chars(Text),
}

/// A node that is still to be put, under this number.
#[derive(Drop)]
pub struct NewNode {
    pub number: u32,
    pub content: Content,
}

impl Content {
    ghost use Rattle.std.specs.Prelude.{◌≡◌};
    ghost use Rattle.doc_nodes.specs.Nodes.{is_element};

    /// Whether it is an element's.
    pub fn is_element(&self) -> bool
        ensures { result ≡ is_element self.now }
    {
        matches!(self, Content::Element(_))
    }
}
