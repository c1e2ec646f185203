//! The governing declaration and type of an element, from its head, and what governs it where its attribute xsi:type is another now.
#![tactic(auto)]

mod again;
mod children;
mod derivation;
mod govern;
mod governed_laws;
mod head;
mod laws;
mod local_types;
mod numbers;
mod pairs;
mod view;

pub use again::{pairs_are_governed_again, regovern};
pub use children::{child_names, text_of};
pub use govern::{govern_child, govern_root, govern_untyped_child};
pub use governed_laws::governed_types_are_there;
pub use head::{ElementHead, read_head};
pub use laws::derivation_is_tested;
pub use local_types::{XsiType, xsi_type};
pub use pairs::{Governing, Mode};
pub use view::SchemaView;
