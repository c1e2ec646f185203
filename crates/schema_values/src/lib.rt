//! The grammar of schema documents as a table: what each kind of element has for attributes and children.
#![tactic(auto)]

mod attributes;
mod grammar_kinds;
mod grammar_names;
mod kinds;
mod names;
mod occurs;
mod places;
mod spaces;
mod table;
mod values;
mod words;

pub use attributes::{
    attribute_of, flag_of, has, is_named, methods_of, name_of, names_of, raw_of, value_of,
};
pub use grammar_kinds::{AttributeName, Class, Kind, Rule, Step, Tag, ValueKind};
pub use grammar_names::{SCHEMA_NAMESPACE, attribute_text, tag_of};
pub use kinds::fits;
pub use names::qname_of;
pub use occurs::{MAX_OCCURS, Occurs, has_crossed_bounds, is_past_limit, occurs_of};
pub use places::kind_below;
pub use spaces::{SpaceToken, Spaces, spaces_of};
pub use table::{contents, is_in, rules};
pub use values::{CAP, boolean_of, digits_of};
pub use words::set_of;
