use stream_sections::Asked;

/// What a stream is read for.
#[derive(Clone, Copy)]
pub struct Wanted {
    /// Which says what sections the stream has.
    pub asked: Asked,
    /// How many record lines a question for those with a code is answered by at most.
    pub most: u32,
}
