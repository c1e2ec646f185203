//! Why a text has no value.

/// Why a text is no literal, or one past the limits.
#[derive(Clone, Copy, Debug)]
pub enum TimeFault {
    /// The text is no literal, whatever days its month has.
    NotLexical,
    /// The text would be a literal if its month had its day.
    NoSuchDate,
    /// The text is a literal past the limits on years, fractions or lengths.
    OutOfRange,
}
