//! What schema-validity assessment finds out about elements and attributes (Structures 5.2, 3.2.5, 3.3.5): the records,
#![tactic(auto)]

mod counts;
mod instance_names;
mod outcome;
mod record;
mod shape;

pub use counts::ChildCounts;
pub use instance_names::{
    INSTANCE_NAMESPACE, InstanceAttribute, instance_attribute, instance_text, is_named,
};
pub use outcome::{Attempted, Validity, ValueSource};
pub use record::{AttrRecord, AttrRecords, Codes, ElementRecord};
pub use shape::{ElementShape, NamedText, NamedTextList};
pub use shared_lists::Shared;
