use crate::Touched;

/// An edit, undo or redo that was accepted.
#[derive(Clone, Copy)]
pub struct Turn {
    /// The revision that it made.
    pub revision: u64,
    pub author: u32,
    /// What it touched.
    pub keys: Touched,
}
