use xs_names::{NameId, NsId};

/// What a symbol of a content model stands for.
#[derive(Clone, Copy)]
pub enum SymbolName {
    /// A name.
    Name(NameId),
    /// The names of a namespace that have no symbols of their own.
    Namespace(NsId),
    /// All other names.
    Other,
}

/// How an element fits at a place among child elements (Structures 3.8.4).
#[derive(Clone, Copy)]
pub enum Fit {
    /// With it the child elements begin no word of the content model.
    No,
    /// They begin one.
    Prefix,
    /// They are one.
    Word,
}
