use crate::{Attempted, Validity, ValueSource};
use shared_lists::Shared;
use xs_codes::Found;
use xs_components::TypeId;
use xs_lists::Listed;
use xs_names::NameId;

/// Codes in their order.
pub type Codes = Listed<Found>;

/// What is found out about an element (Structures 3.3.5).
pub struct ElementRecord {
    pub name: NameId,
    /// The governing type.
    pub of: Option<TypeId>,
    pub validity: Validity,
    pub attempted: Attempted,
    pub source: ValueSource,
    pub codes: Codes,
}

/// What is found out about an attribute (Structures 3.2.5).
pub struct AttrRecord {
    pub name: NameId,
    /// The governing type.
    pub of: Option<TypeId>,
    pub validity: Validity,
    pub attempted: Attempted,
    pub source: ValueSource,
    pub codes: Codes,
}

/// The records of an element's attributes: the given ones in document order, then those that the schema adds.
pub type AttrRecords = Listed<Shared<AttrRecord>>;

impl Drop for ElementRecord {
    fn drop(self) {
        let ElementRecord {
            name: _,
            of: _,
            validity: _,
            attempted: _,
            source: _,
            codes,
        } = self;
        drop(codes);
    }
}

impl Drop for AttrRecord {
    fn drop(self) {
        let AttrRecord {
            name: _,
            of: _,
            validity: _,
            attempted: _,
            source: _,
            codes,
        } = self;
        drop(codes);
    }
}
