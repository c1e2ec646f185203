//! What a regular expression of schema types is: classes of characters, terms over them, and the texts that match a term
#![tactic(auto)]

mod building;
mod class;
mod class_syntax;
mod digits;
mod fault;
mod mode;
mod names;
mod read;
mod reader;
mod set;
mod terms;

pub use building::Term;
pub use class::{CharClass, CharGroup, ClassItem};
pub use fault::PatternFault;
pub use read::read_pattern;
pub use set::{Block, CharSet};
pub use terms::Terms;
pub use ucd_category::{GeneralCategory, GeneralCategoryGroup};
