use component_tables::{ContentTypes, Declarations};
use xs_components::Components;

/// The components of a schema set, the types of its element declarations and its content types.
#[derive(Clone, Copy)]
pub(crate) struct ElementSet<'a> {
    pub(crate) parts: &'a Components,
    pub(crate) declarations: &'a Declarations,
    pub(crate) contents: &'a ContentTypes,
}
