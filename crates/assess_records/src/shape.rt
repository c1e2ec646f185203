use crate::{ChildCounts, Codes};
use xs_lists::Listed;
use xs_names::{NameId, Scope, Text};

/// An attribute of an element: its name, and the text of its value.
pub struct NamedText {
    pub name: NameId,
    pub text: Text,
}

/// Attributes in document order.
pub type NamedTextList = Listed<NamedText>;

/// What an element has to show for its record, beside what governs it.
#[derive(Drop)]
pub struct ElementShape {
    pub name: NameId,
    /// Its attributes in document order; bindings are none.
    pub attrs: NamedTextList,
    /// The characters of its texts, one after another.
    pub text: Text,
    /// The prefixes in scope.
    pub scope: Scope,
    /// The place from 0 among its child elements where they get stuck in the content model.
    pub stuck: Option<u32>,
    /// The codes of its identity constraints.
    pub identity: Codes,
    /// The codes of ids and references to them.
    pub ids: Codes,
    /// How many of its child elements have each validity, and each attempt at validation.
    pub counts: ChildCounts,
}

impl Drop for NamedText {
    fn drop(self) {
        let NamedText { name: _, text } = self;
        drop(text);
    }
}
