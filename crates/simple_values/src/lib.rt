//! The strings that values are made of: characters, and octets with their two literal forms (Datatypes 3.2.1, 3.2.15
#![tactic(auto)]

mod atom;
mod atoms;
mod binary;
mod bounds;
mod builtins;
mod characters;
mod fault;
mod grammar;
mod key;
mod language;
mod literals;
mod numbers;
mod octets;
mod reading;
mod value;

pub use atom::{Atom, ExpandedName};
pub use atoms::{Atoms, TypedAtom};
pub use binary::{read_base64, read_hex};
pub use bounds::{Bounds, bounds_of};
pub use builtins::{BUILTINS, base_of, builtin_named, name_of, primitive_of};
pub use characters::Characters;
pub use fault::ValueFault;
pub use grammar::{Grammar, grammar_of, item_type, white_space_of};
pub use key::{Key, KeyItems, same_key};
pub use octets::Octets;
pub use reading::{ReadValue, read_builtin, read_normalized};
pub use value::{Value, key_of, length, less, same};
