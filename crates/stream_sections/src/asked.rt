/// What a stream is read for, which says what sections it has.
#[derive(Clone, Copy)]
pub enum Asked {
    /// Whether the schema is accepted: schema sections alone.
    Check,
    /// A report on the document: schema sections and the document.
    Assess,
    /// The replies to the edits of the document, which may follow it.
    Session,
}
