//! What terms accept.

use xs_components::NsConstraint;
use xs_lists::Listed;
use xs_names::NameId;

/// A name that an element term accepts, and the class of the declaration that it then gives. Declarations with the same
/// properties have one class.
#[derive(Clone, Copy)]
pub struct Given {
    pub name: NameId,
    pub class: u32,
}

/// What a term accepts (Structures 3.8.4).
#[derive(Drop)]
pub enum Accepts {
    /// An element: these names.
    Element(Listed<Given>),
    /// A wildcard: the names whose namespace it admits; and its class.
    Wildcard(NsConstraint, u32),
}
