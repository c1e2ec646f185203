/// The greatest depth of an element; the root has depth 1.
pub const MAX_DEPTH: u32 = 128;

/// How many nodes a tree has at most.
pub const MAX_NODES: u32 = 131_072;

/// Attributes and bindings of an element, at most.
pub const MAX_ATTRIBUTES: usize = 256;
