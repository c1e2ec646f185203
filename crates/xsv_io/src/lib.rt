//! Where the bytes of a run come from and go to, with a count of faults on each side.
#![tactic(auto)]

mod memory;
mod part;
mod standard;
mod stream;
mod write;

pub use memory::{MemSink, MemSource};
pub use part::Part;
pub use standard::{StdSink, StdSource};
pub use stream::{Failed, Sink, Source, write_whole};
pub use write::{write_escaped, write_number, write_parts, write_text};
