//! What is kept of one element.

use assess_records::{ChildCounts, Codes};
use model_lists::ModelList;
use tree_assess::ElementEntry;
use xs_names::Text;

/// What is kept of an element.
#[derive(Drop)]
pub struct KeptElement {
    /// What governs it, its record and those of its attributes, with their values. How many entries are below is not kept, and 0.
    pub found: ElementEntry,
    /// The characters of its texts, one after another.
    pub text: Text,
    /// The place where its child elements get stuck, if they do (Structures 3.4.4).
    pub stuck: Option<u32>,
    /// How many of its child elements are of each validity and attempt.
    pub counts: ChildCounts,
    /// The list of its child elements, exactly where its type has a content model.
    pub list: Option<ModelList>,
    /// The codes of its identity constraints (Structures 3.11.4).
    pub identity: Codes,
}
