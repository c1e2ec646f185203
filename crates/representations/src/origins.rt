use xs_lists::Listed;
use xs_names::NsId;

/// A document of a set with the target namespace that it has there, in the order of the representations: those behind the last
/// document's and before `end` are of this one.
#[derive(Drop)]
pub struct Origin {
    pub target: NsId,
    /// The namespaces that its imports name (Structures 4.2.3), in order.
    pub imports: Listed<NsId>,
    /// How many representations there are up to its end.
    pub end: u32,
}
