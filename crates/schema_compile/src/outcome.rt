use compiled_schema::Compiled;
use xs_codes::Fault;

/// What schema documents come to.
#[derive(Drop)]
pub enum Outcome {
    /// A set that documents are assessed by.
    Accepted(Compiled),
    /// The first constraint that is broken.
    Broken(Fault),
}
