//! Redefined components (Structures 4.2.2): their versions, and to which of them a redefining one goes back.
#![tactic(auto)]

mod children;
mod document_versions;
mod inclusions;
mod index;
mod inside;
mod lists;
mod named;
mod numbered;
mod orders;
mod originals;
mod places;
mod redefines;
mod versions;

pub use children::redefining;
pub use index::Originals;
pub use lists::NumberedLists;
pub use originals::set_originals;
pub use versions::{Child, Declared, Redefinable, Version, declared_as};
