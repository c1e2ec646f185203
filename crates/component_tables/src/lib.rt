//! The components of a symbol space by their names (Structures 2.5).
#![tactic(auto)]

mod bases;
mod content_types;
mod declarations;
mod globals;
mod named;
mod own;
mod symbols;

pub use bases::{BaseLine, BaseLines};
pub use content_types::{ContentType, ContentTypes, form_content};
pub use declarations::Declarations;
pub use named::ComponentNames;
pub use symbols::Symbols;
