/// How a stream ended.
#[derive(Clone, Copy)]
pub enum Ending {
    /// The schema is accepted, and the root is valid where a document was asked for.
    Valid,
    /// The root is invalid, or its validity is not known.
    NotValid,
    /// The schema set breaks a constraint.
    SchemaRefused,
    /// A line of the stream is refused.
    ListingRefused,
    /// A limit is passed.
    Limit,
    /// The schema set names something that is not supported.
    Unsupported,
}
