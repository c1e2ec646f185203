ghost use Rattle.std.specs.Prelude.{◌≡◌, ◌+◌, length, Some, IfOk};
ghost use Rattle.stream_sections.specs.inside.Beginning.{begun_after};
ghost use Rattle.stream_sections.specs.inside.SchemaTurns as turns;

use crate::item::{ends_schemas, is_listing};
use crate::refusal::{bad_tree, misplaced};
use crate::{Asked, Refusal, RefusedLine};
use item_listing::{Item, Locations};
use plain_tree::{Builder, Tree};
use std::alloc::{AllocError, Global};
use xs_lists::Listed;

/// The most schema sections that a stream has.
pub const MOST_SCHEMAS: usize = 256;

/// A schema section: the locations that it lists, and its tree.
#[derive(Drop)]
pub struct SchemaSection {
    pub locations: Locations,
    pub tree: Tree,
}

/// Schema sections in the order of the stream.
pub type SchemaSections = Listed<SchemaSection>;

/// A schema section that was begun.
#[derive(Drop)]
pub struct Begun {
    pub locations: Locations,
    pub builder: Builder,
    /// The line of the section's word.
    pub start: u32,
}

/// Reads the schema sections of a stream.
#[derive(Drop)]
pub struct SchemaReader {
    /// The sections that have ended.
    pub sections: SchemaSections,
    /// The section that is open, once one was begun.
    pub begun: Option<Begun>,
}

/// What an item has done among the schema sections.
#[derive(Drop)]
pub enum SchemaTurn {
    /// Further items may come.
    Goes,
    /// The schema sections have ended: these they are.
    Ends(SchemaSections),
    /// The line is refused.
    Refused(RefusedLine),
}

/// How many sections there are, with the one that is open.
fn count_with(whole: &[SchemaSection]) -> usize
    ensures { result ≡ length whole.now + 1 }
{
    whole.len() + 1
}

/// The section that begins at the line of this number.
fn begin_at(alloc: Global, line: u32, locations: Locations) -> Result<Begun, AllocError>
    ensures { IfOk result (λ section. section ≡ turns.begun_at line locations) }
{
    Ok(Begun {
        locations,
        builder: Builder::new(alloc)?,
        start: line,
    })
}

impl SchemaReader {
    /// Before the first section.
    pub fn new(alloc: Global) -> Self
        ensures { result ≡ turns.unbegun }
    {
        SchemaReader {
            sections: Listed::new(alloc),
            begun: None,
        }
    }

    /// Takes the item of the line of this number. Once the sections have ended or a line is refused, nothing is said of the reader.
    ///
    /// # Errors
    ///
    /// `AllocError` is want of memory.
    pub fn take(
        &mut self,
        alloc: Global,
        asked: Asked,
        line: u32,
        item: Item,
    ) -> Result<SchemaTurn, AllocError>
        ensures { IfOk result (λ turn. turns.Turns (turns.turned asked line self.old item) turn self.new) }
    {
        match item {
            Item::Schema(locations) => self.begin(alloc, line, locations),
            item => {
                if is_listing(&item) {
                    self.grow(line, &item)
                } else if ends_schemas(asked, &item) {
                    self.end(alloc, line)
                } else {
                    Ok(SchemaTurn::Refused(misplaced(line)))
                }
            }
        }
    }

    /// A schema section begins.
    fn begin(
        &mut self,
        alloc: Global,
        line: u32,
        locations: Locations,
    ) -> Result<SchemaTurn, AllocError>
        ensures { IfOk result (λ turn. turns.Turns (turns.begun line self.old locations) turn self.new) }
    {
        match self.begun.take() {
            None => {
                self.begun = Some(begin_at(alloc, line, locations)?);
                Ok(SchemaTurn::Goes)
            }
            Some(section) => self.begin_behind(alloc, line, locations, section),
        }
    }

    /// A schema section ends, and another one begins.
    fn begin_behind(
        &mut self,
        alloc: Global,
        line: u32,
        locations: Locations,
        section: Begun,
    ) -> Result<SchemaTurn, AllocError>
        ensures { IfOk result (λ turn. turns.Turns (turns.begun_by line self.old.sections locations (Some section)) turn self.new) }
    {
        if count_with(self.sections.as_slice()) >= MOST_SCHEMAS {
            return Ok(SchemaTurn::Refused(RefusedLine {
                line: line as u64,
                refusal: Refusal::TooManySchemas,
            }));
        }
        self.begin_after(alloc, line, locations, section)
    }

    /// A schema section ends, and its tree is taken; another one begins.
    fn begin_after(
        &mut self,
        alloc: Global,
        line: u32,
        locations: Locations,
        section: Begun,
    ) -> Result<SchemaTurn, AllocError>
        ensures { IfOk result (λ turn. turns.Turns (begun_after line self.old.sections locations section) turn self.new) }
    {
        let Begun {
            locations: listed,
            builder,
            start,
        } = section;
        match builder.finish()? {
            Ok(tree) => {
                self.sections.push(SchemaSection {
                    locations: listed,
                    tree,
                })?;
                self.begun = Some(begin_at(alloc, line, locations)?);
                Ok(SchemaTurn::Goes)
            }
            Err(fault) => Ok(SchemaTurn::Refused(bad_tree(start, fault))),
        }
    }

    /// An item of the section's tree.
    fn grow(&mut self, line: u32, item: &Item) -> Result<SchemaTurn, AllocError>
        ensures { IfOk result (λ turn. turns.Turns (turns.grown line self.old item.now) turn self.new) }
    {
        let Some(section) = self.begun.take() else {
            return Ok(SchemaTurn::Refused(misplaced(line)));
        };
        let Begun {
            locations,
            mut builder,
            start,
        } = section;
        match builder.item(item)? {
            Ok(()) => {
                self.begun = Some(Begun {
                    locations,
                    builder,
                    start,
                });
                Ok(SchemaTurn::Goes)
            }
            Err(fault) => Ok(SchemaTurn::Refused(bad_tree(start, fault))),
        }
    }

    /// The schema sections end.
    fn end(&mut self, alloc: Global, line: u32) -> Result<SchemaTurn, AllocError>
        ensures { IfOk result (λ turn. turns.Turns (turns.ended line self.old) turn self.new) }
    {
        let Some(section) = self.begun.take() else {
            return Ok(SchemaTurn::Refused(misplaced(line)));
        };
        let Begun {
            locations,
            builder,
            start,
        } = section;
        match builder.finish()? {
            Ok(tree) => {
                let mut sections = std::mem::replace(&mut self.sections, Listed::new(alloc));
                sections.push(SchemaSection { locations, tree })?;
                Ok(SchemaTurn::Ends(sections))
            }
            Err(fault) => Ok(SchemaTurn::Refused(bad_tree(start, fault))),
        }
    }
}
