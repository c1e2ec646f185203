//! What the items of a stream give: its schema sections, its document, its commands; or the first line that is refused.
#![tactic(auto)]

mod asked;
mod commands;
mod document;
mod item;
mod laws;
mod refusal;
mod schemas;

pub use asked::Asked;
pub use commands::{Block, CommandReader, CommandTurn};
pub use document::{DocumentReader, DocumentTurn};
pub use item::opens_block;
pub use laws::{readers_give_sections, streams_are_read};
pub use refusal::{Refusal, RefusedLine};
pub use schemas::{Begun, MOST_SCHEMAS, SchemaReader, SchemaSection, SchemaSections, SchemaTurn};
