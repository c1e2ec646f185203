//! What is told of schema documents and of a document.

use assess_records::Validity;
use xs_codes::Fault;

/// What is told of schema documents.
#[derive(Clone, Copy)]
pub enum SetVerdict {
    /// Documents are assessed by the set.
    Accepted,
    /// The first constraint that is broken.
    Broken(Fault),
}

/// What the last line tells of a document.
#[derive(Clone, Copy)]
pub struct Verdict {
    pub validity: Validity,
    pub total: u64,
}
