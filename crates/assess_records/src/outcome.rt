/// Whether an element or attribute is valid: the property [validity] (Structures 3.2.5, 3.3.5).
#[derive(Clone, Copy, PartialEq)]
pub enum Validity {
    Valid,
    Invalid,
    NotKnown,
}

/// How far an element or attribute was assessed: the property [validation attempted] (Structures 3.2.5, 3.3.5).
#[derive(Clone, Copy, PartialEq)]
pub enum Attempted {
    Full,
    Partial,
    /// Not at all; it is printed `none`.
    Untried,
}

/// Where the text of an element or attribute comes from: the property [schema specified] (Structures 3.2.5, 3.3.5).
#[derive(Clone, Copy)]
pub enum ValueSource {
    /// From the document.
    Given,
    /// From a default or fixed value of the schema.
    Schema,
}
