use crate::Available;
use item_listing::Locations;
use plain_tree::Tree;
use xs_codes::Fault;
use xs_lists::Listed;

/// A schema document as it comes: its tree, and the locations that name it.
#[derive(Drop)]
pub struct SchemaInput {
    pub tree: Tree,
    pub locations: Locations,
}

/// Schema documents, read.
#[derive(Drop)]
pub struct ReadDocuments {
    /// What the elements of each declare, with its locations.
    pub available: Listed<Available>,
    /// Of each the first constraint on its shape that it breaks, if it breaks one.
    pub faults: Listed<Option<Fault>>,
}
