use component_tables::{ContentTypes, Declarations};
use particle_forms::Ranges;
use type_derivation::Within;
use xs_components::Components;

/// The components of a schema set with what is found of them: the types of element declarations, the content types, the
/// effective total ranges of the particles, and the simple types within ID.
#[derive(Clone, Copy)]
pub(crate) struct ValueSet<'a> {
    pub(crate) parts: &'a Components,
    pub(crate) declarations: &'a Declarations,
    pub(crate) contents: &'a ContentTypes,
    pub(crate) ranges: &'a Ranges,
    pub(crate) ids: &'a Within,
}
