use attr_uses::AttrTables;
use component_tables::{BaseLines, ContentTypes};
use particle_forms::Ranges;
use xs_components::Components;
use xs_names::Names;

/// The components of a schema set with what is known of them: their names, the tables of their attribute uses, the content
/// types, and the effective total ranges of the particles.
#[derive(Clone, Copy)]
pub struct ComparedSet<'a> {
    pub names: &'a Names,
    pub parts: &'a Components,
    pub tables: &'a AttrTables,
    pub contents: &'a ContentTypes,
    pub ranges: &'a Ranges,
    pub bases: &'a BaseLines,
}
