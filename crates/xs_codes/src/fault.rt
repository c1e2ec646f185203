use super::code::Code;

/// The first broken constraint of a set of schema documents.
#[derive(Clone, Copy, PartialEq)]
pub struct Fault {
    /// The phase of compiling that found it, from 1 (shape of documents) to 10 (identity constraints).
    pub phase: u8,
    /// The number of the document, from 1.
    pub document: u32,
    /// The number of the element in its document.
    pub item: u32,
    /// What is broken.
    pub code: Code,
}

/// A code found in a record, and where.
#[derive(Clone, Copy, PartialEq)]
pub struct Found {
    /// What is broken.
    pub code: Code,
    /// The place that is printed behind some codes, as the stuck place of a content model.
    pub place: u32,
}
