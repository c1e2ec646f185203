use xs_codes::Code;

/// A constraint that an element breaks.
#[derive(Clone, Copy)]
pub struct Broken {
    /// The number of the element.
    pub item: u32,
    pub code: Code,
}
