use schema_values::Kind;
use tag_names::Prefixes;
use tree_rows::{Attribute, Binding, Siblings};

/// An element of a schema document, with what it is and the bindings in scope.
#[derive(Drop)]
pub struct Element<'a> {
    /// Its number.
    pub item: u32,
    pub kind: Kind,
    /// The number of the nearest element above that has bindings, 0 where there is none.
    pub above: u32,
    /// Its own bindings.
    pub bindings: &'a [Binding],
    /// All bindings in scope.
    pub scope: &'a Prefixes,
    pub attributes: &'a [Attribute],
    pub children: Siblings<'a>,
}
