ghost use Rattle.std.specs.Prelude.{◌≡◌, IfOk};
ghost use Rattle.stream_sections.specs.inside.DocumentTurns as turns;

use crate::item::is_listing;
use crate::refusal::{bad_tree, misplaced};
use crate::{Asked, RefusedLine};
use item_listing::Item;
use plain_tree::{Builder, Tree};
use std::alloc::{AllocError, Global};
use tree_building::TreeFault;

/// Reads the document section of a stream.
#[derive(Drop)]
pub struct DocumentReader {
    pub builder: Builder,
    /// The line of the section's word.
    pub start: u32,
}

/// What an item has done in the document section.
#[derive(Drop)]
pub enum DocumentTurn {
    /// Further items may come.
    Goes,
    /// The document is whole, and edits follow.
    Edits(Tree),
    /// The document is whole, and the stream has ended.
    Ends(Tree),
    /// The line is refused.
    Refused(RefusedLine),
}

impl DocumentReader {
    /// The section begins at the line of this number.
    ///
    /// # Errors
    ///
    /// `AllocError` is want of memory.
    pub fn new(alloc: Global, line: u32) -> Result<Self, AllocError>
        ensures { IfOk result (λ reader. reader ≡ turns.unbegun line) }
    {
        Ok(DocumentReader {
            builder: Builder::new(alloc)?,
            start: line,
        })
    }

    /// Takes the item of the line of this number. Once the section has ended or a line is refused, nothing is said of the reader.
    ///
    /// # Errors
    ///
    /// `AllocError` is want of memory.
    pub fn take(
        &mut self,
        alloc: Global,
        asked: Asked,
        line: u32,
        item: Item,
    ) -> Result<DocumentTurn, AllocError>
        ensures { IfOk result (λ turn. turns.Turns (turns.turned asked line self.old item) turn self.new) }
    {
        match item {
            Item::End => match self.finish(alloc)? {
                Ok(tree) => Ok(DocumentTurn::Ends(tree)),
                Err(fault) => Ok(DocumentTurn::Refused(bad_tree(self.start, fault))),
            },
            Item::Edits => match asked {
                Asked::Session => match self.finish(alloc)? {
                    Ok(tree) => Ok(DocumentTurn::Edits(tree)),
                    Err(fault) => Ok(DocumentTurn::Refused(bad_tree(self.start, fault))),
                },
                Asked::Check | Asked::Assess => Ok(DocumentTurn::Refused(misplaced(line))),
            },
            item => {
                if !is_listing(&item) {
                    return Ok(DocumentTurn::Refused(misplaced(line)));
                }
                match self.builder.item(&item)? {
                    Ok(()) => Ok(DocumentTurn::Goes),
                    Err(fault) => Ok(DocumentTurn::Refused(bad_tree(self.start, fault))),
                }
            }
        }
    }

    /// The tree of the section, where it ends.
    fn finish(&mut self, alloc: Global) -> Result<Result<Tree, TreeFault>, AllocError>
        ensures tree { IfOk result (λ tree. tree ≡ turns.tree_of self.old.builder) }
        ensures start { IfOk result (λ _. self.new.start ≡ self.old.start) }
    {
        let builder = std::mem::replace(&mut self.builder, Builder::new(alloc)?);
        builder.finish()
    }
}
