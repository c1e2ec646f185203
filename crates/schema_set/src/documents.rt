use item_listing::Locations;
use schema_shape::ShapedSchema;
use xs_codes::Fault;
use xs_lists::Listed;
use xs_names::Text;

/// A schema document that there is, and the locations that name it.
#[derive(Drop)]
pub struct Available {
    pub shaped: ShapedSchema,
    pub locations: Locations,
}

/// A document of a set, with the target namespace that it has there.
#[derive(Drop)]
pub struct SetDocument<'a> {
    /// The number of the document, from 1.
    pub number: u32,
    /// The target namespace; `None` is the absent one.
    pub target: Option<Text>,
    pub shaped: &'a ShapedSchema,
}

/// The documents of a set in order. One that is in the set with two target namespaces stands twice.
#[derive(Drop)]
pub struct EffectiveSet<'a> {
    pub documents: Listed<SetDocument<'a>>,
}

/// The documents that one of them leads to, and the least fault of what they say of others.
#[derive(Drop)]
pub struct ClosedSet<'a> {
    pub set: EffectiveSet<'a>,
    pub fault: Option<Fault>,
}
