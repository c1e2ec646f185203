use open_document::Verdict;
use stream_sections::{CommandReader, DocumentReader, SchemaReader};

/// Where a stream stands between two lines. What it works on, a schema set or an open document, is held apart.
#[derive(Drop)]
pub enum Place {
    /// Among the schema sections, or before the first.
    Schemas(SchemaReader),
    /// In the document section.
    Document(DocumentReader),
    /// Among the commands.
    Commands(CommandReader),
    /// Behind the word `end`, with the verdict on the document where one was asked for.
    Ended(Option<Verdict>),
}
