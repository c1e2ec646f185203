//! Where a reader stands.

/// Whether something stands in a class expression.
#[derive(Clone, Copy)]
pub(crate) enum Place {
    Branch,
    Class,
}

/// What may come next.
#[derive(Clone, Copy)]
pub(crate) enum Mode {
    /// A piece, or where the last one has no quantifier yet, that.
    Piece(bool),
    /// Behind `{`, and perhaps digits.
    Least,
    /// Behind `{n,`, and perhaps digits.
    Most,
    /// Behind a backslash.
    Escape(Place),
    /// Behind `\p`, or `\P` for the complement.
    Property(Place, bool),
    /// Behind `\p{`, and perhaps characters of the name.
    Name(Place, bool),
    /// Behind the bracket of a class.
    ClassStart,
    /// Where a class wants its first part.
    ClassFirst,
    /// Behind a part of a class, which may be the first end of a range where it is one character.
    Part(Option<char>),
    /// Behind such a part and a hyphen.
    Hyphen(Option<char>),
    /// Behind a hyphen that stands for itself, and another: a class to subtract must come.
    Less,
    /// Behind the first end of a range, the hyphen and a backslash.
    RangeEscape(char),
    /// Behind the end of a class that is subtracted: so many ends must still come.
    Closing(usize),
}
