use redefine_names::RedefinedGroups;
use simple_types::SimpleTypes;
use xs_components::Components;
use xs_names::Names;

/// A schema set that breaks no constraint of the phases that there are.
#[derive(Drop)]
pub struct CompiledSet {
    /// The names that stand in its documents.
    pub names: Names,
    /// Its components, with ranks by which each reference goes lower, and with the particles of contents.
    pub parts: Components,
    /// Its simple types, and the simple contents of its complex types.
    pub types: SimpleTypes,
    /// The groups and attribute groups that redefine others without a reference to themselves, with these.
    pub redefined: RedefinedGroups,
}
