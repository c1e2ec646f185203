//! What the elements of schema documents represent: names by number, how they are meant, each symbol space, and each element by what it declares.
#![tactic(auto)]

mod contents;
mod declarations;
mod defaults;
mod element_forms;
mod forms;
mod members;
mod naming;
mod numbering;
mod origins;
mod parts;
mod reading;
mod source;
mod types;
mod wildcards;

pub use defaults::Defaults;
pub use element_forms::occurs_in;
pub use forms::is_in_target;
pub use members::{first_type, is_type_at};
pub use naming::{Naming, naming_of, number_name, number_space};
pub use numbering::number_names;
pub use origins::Origin;
pub use parts::{
    AttributeRepresentation, ComplexTypeRepresentation, ElementRepresentation, GivenValue,
    Representation, Represented, TypeName,
};
pub use reading::Reading;
pub use source::{Source, SymbolSpaces, spaces_of};
