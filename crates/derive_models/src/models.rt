//! The content models of a schema set.

use component_tables::{ContentTypes, Declarations};
use xs_components::{Components, Members};
use xs_names::Names;

/// The components of a schema set with what is known of them: their names, the members of substitution groups, the types of
/// element declarations, and the content types.
#[derive(Clone, Copy)]
pub struct ModelSet<'a> {
    pub names: &'a Names,
    pub parts: &'a Components,
    pub members: &'a Members,
    pub declarations: &'a Declarations,
    pub contents: &'a ContentTypes,
}
