use doc_nodes::Content;
use xs_lists::Listed;

/// A node of a part. It has its number, and its depth among those of the part, the first of which has depth 1.
#[derive(Drop)]
pub struct PartRow {
    pub number: u32,
    pub depth: u32,
    pub content: Content,
}

/// A node that was taken out of a document with all that was below it, in document order.
pub type Part = Listed<PartRow>;
