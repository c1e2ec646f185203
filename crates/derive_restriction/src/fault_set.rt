use attr_uses::AttrTables;
use component_tables::{ContentTypes, Declarations};
use redefine_names::RedefinedPair;
use xs_components::Components;
use xs_names::Names;

/// The components of a schema set with what is known of them: their names, the types of element declarations, the tables of
/// attribute uses, the content types, and the attribute groups that redefine others without a reference to themselves, with these.
#[derive(Clone, Copy)]
pub struct DerivedSet<'a> {
    pub names: &'a Names,
    pub parts: &'a Components,
    pub declarations: &'a Declarations,
    pub tables: &'a AttrTables,
    pub contents: &'a ContentTypes,
    pub redefined: &'a [RedefinedPair],
}
