//! What identity constraints are evaluated by.

use component_tables::ContentTypes;
use std::alloc::Global;
use xpath_subset::IdentityPaths;
use xs_components::Components;
use xs_names::Names;

/// What identity constraints are evaluated by: names, components, the content types of complex types, and the paths of each
/// constraint by its number.
#[derive(Clone, Copy)]
pub struct KeySet<'a> {
    pub alloc: Global,
    pub names: &'a Names,
    pub parts: &'a Components,
    pub contents: &'a ContentTypes,
    pub identities: &'a [IdentityPaths],
}
