//! What content models are read off.

use component_tables::Declarations;
use particle_forms::Inhabited;
use xs_components::{Components, Members};
use xs_names::Names;

/// What content models are read off: the components of a schema set with what was found of them, and the classes of its
/// element declarations by their numbers. Declarations with the same properties have one class; the three greatest numbers
/// are the classes of wildcards.
#[derive(Clone, Copy)]
pub struct ModelSource<'a> {
    pub names: &'a Names,
    pub parts: &'a Components,
    pub members: &'a Members,
    pub declarations: &'a Declarations,
    pub inhabited: &'a Inhabited,
    pub classes: &'a [u32],
}
