ghost use Rattle.std.specs.Prelude.{◌≡◌, Some, IfOk};
ghost use Rattle.stream_sections.specs.inside.CommandTurns as turns;

use crate::RefusedLine;
use crate::item::{is_listing, opens_block};
use crate::refusal::misplaced;
use item_listing::{Item, Items};
use std::alloc::{AllocError, Global};
use xs_names::Text;

/// A command that opened a block, and the items of the block that have come.
#[derive(Drop)]
pub struct Block {
    pub line: Text,
    pub items: Items,
}

/// Reads the commands of a stream.
#[derive(Drop)]
pub struct CommandReader {
    /// The block that is open.
    pub block: Option<Block>,
}

/// What an item has done among the commands.
#[derive(Drop)]
pub enum CommandTurn {
    /// Further items may come.
    Goes,
    /// A command is whole, with the items of its block where it opened one.
    Gives(Text, Option<Items>),
    /// The stream has ended.
    Ends,
    /// The line is refused.
    Refused(RefusedLine),
}

impl CommandReader {
    /// Behind the line `edits`.
    pub fn new() -> Self
        ensures { result ≡ turns.unbegun }
    {
        CommandReader { block: None }
    }

    /// Takes the item of the line of this number. Once the stream has ended or a line is refused, nothing is said of the reader.
    ///
    /// # Errors
    ///
    /// `AllocError` is want of memory.
    pub fn take(&mut self, alloc: Global, line: u32, item: Item) -> Result<CommandTurn, AllocError>
        ensures { IfOk result (λ turn. turns.Turns (turns.turned line self.old item) turn self.new) }
    {
        if self.block.is_none() {
            return Ok(self.outside(alloc, line, item));
        }
        self.within(line, item)
    }

    /// An item outside of a block.
    fn outside(&mut self, alloc: Global, line: u32, item: Item) -> CommandTurn
        requires { self.old ≡ turns.unbegun }
        ensures { turns.Turns (turns.outside line item) result self.new }
    {
        match item {
            Item::Command(text) => {
                if !opens_block(text.as_str()) {
                    return CommandTurn::Gives(text, None);
                }
                self.block = Some(Block {
                    line: text,
                    items: Items::new(alloc),
                });
                CommandTurn::Goes
            }
            Item::End => CommandTurn::Ends,
            _ => CommandTurn::Refused(misplaced(line)),
        }
    }

    /// An item in a block.
    fn within(&mut self, line: u32, item: Item) -> Result<CommandTurn, AllocError>
        ensures { (b : Block) → self.old.block ≡ Some b → IfOk result (λ turn. turns.Turns (turns.within line b item) turn self.new) }
    {
        if matches!(item, Item::Dot) {
            return match self.block.take() {
                Some(block) => {
                    let Block { line, items } = block;
                    Ok(CommandTurn::Gives(line, Some(items)))
                }
                None => Ok(CommandTurn::Refused(misplaced(line))),
            };
        }
        if !is_listing(&item) {
            return Ok(CommandTurn::Refused(misplaced(line)));
        }
        match &mut self.block {
            Some(block) => {
                block.items.push(item)?;
                Ok(CommandTurn::Goes)
            }
            None => Ok(CommandTurn::Refused(misplaced(line))),
        }
    }
}
