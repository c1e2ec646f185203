//! What governs an element.

use xs_components::{ElementId, TypeId};

/// How strictly an element is assessed (Structures 3.10.1, 5.2).
#[derive(Clone, Copy, PartialEq)]
pub enum Mode {
    /// There must be a declaration for it, or a type that xsi:type names.
    Strict,
    /// It is assessed as far as there is one or the other.
    Lax,
    /// It is not assessed, nor is anything in it.
    Skip,
}

/// What governs an element (Structures 5.2): its declaration, if there is one, and its type. An element that is skipped has
/// neither.
#[derive(Clone, Copy, PartialEq)]
pub struct Governing {
    pub declaration: Option<ElementId>,
    pub of: Option<TypeId>,
    pub mode: Mode,
}
