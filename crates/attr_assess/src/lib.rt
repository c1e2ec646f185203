//! What governs an attribute of an element (Structures 3.2.4, 3.4.4, 3.10.4).
#![tactic(auto)]

mod added;
mod assessed;
mod found;
mod governing;
mod instance;
mod judged;
mod known;
mod lacking;
mod records;
mod schema;
mod values;

pub use added::AddedUse;
pub use assessed::{AssessedAttrs, AttrValues, assess_attrs};
pub use governing::AttrGoverning;
pub use judged::{AttrItem, JudgedAttr, judge};
pub use known::KnownUses;
pub use lacking::{Lacking, lacking_attrs};
pub use schema::AttrSchema;
pub use values::{AttrText, read_text};
