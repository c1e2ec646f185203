//! What the attributes of elements are assessed by.

use crate::KnownUses;
use attr_uses::AttrTables;
use component_tables::ComponentNames;
use xs_components::Components;
use xs_names::Names;

/// What the attributes of elements are assessed by: the names of the schema set and of the document, the components, the
/// names of those at the top of schema documents, the attribute uses of types, and what these add.
#[derive(Clone, Copy)]
pub struct AttrSchema<'a> {
    pub names: &'a Names,
    pub parts: &'a Components,
    pub tops: &'a ComponentNames,
    pub tables: &'a AttrTables,
    pub known: &'a KnownUses,
}
