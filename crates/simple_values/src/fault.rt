//! Why a text has no value.

/// Why a text has no value of a built-in type.
#[derive(Clone, Copy)]
pub enum ValueFault {
    /// It is no literal of the type.
    NotLexical,
    /// It is a literal whose value is past this program's limits on decimals, dates and durations.
    Limit,
}
