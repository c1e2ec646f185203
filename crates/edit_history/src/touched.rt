/// What an edit touches: a node itself, the list of a node's children, or both.
#[derive(Clone, Copy)]
pub struct Touched {
    /// The node whose name, attributes or characters the edit writes, or which it takes away.
    pub node: Option<u32>,
    /// The node whose list of children it makes another one.
    pub list: Option<u32>,
}
