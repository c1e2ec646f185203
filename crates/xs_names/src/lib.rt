//! Texts and the names of XML: what is a name, its two parts, namespaces and names by number, and the prefixes in scope.
#![tactic(auto)]

mod characters;
mod handling;
mod ids;
mod names;
mod numbered;
mod pool;
mod qname;
mod scope;
mod text;
mod texts;
mod white;

pub use characters::{is_name, is_ncname, is_nmtoken};
pub use handling::{WhiteSpace, count_items, is_bare, items, normalized};
pub use ids::{NameId, NsId};
pub use names::{Names, XML_NAMESPACE, XMLNS_NAMESPACE};
pub use pool::TextPool;
pub use qname::{BadName, split_qname};
pub use scope::{Scope, ScopeBinding, Unbound};
pub use text::Text;
pub use texts::Texts;
pub use white::is_white_space;
