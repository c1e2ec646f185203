//! What governing is read off.

use component_tables::{ComponentNames, Declarations};
use xs_components::Components;
use xs_names::Names;

/// What governing is read off: the components of a schema set, its table of names, and the components at the top of its
/// documents by their names.
#[derive(Clone, Copy)]
pub struct SchemaView<'a> {
    pub names: &'a Names,
    pub parts: &'a Components,
    pub declarations: &'a Declarations,
    pub named: &'a ComponentNames,
}
