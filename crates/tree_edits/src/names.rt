ghost use Rattle.std.specs.Prelude.{◌≡◌, ◌∷◌, [], ◌||◌, List, None, Some, true, false, IfOk, OnOk, IfErr};
ghost use Rattle.tree_rows.specs.Forest.{count, deepest_of};
ghost use Rattle.tree_building.specs.Blocks.{one_element};
ghost use Rattle.tree_building.specs.Building.{block as block_in};
ghost use Rattle.tree_edits.specs.Blocks as blocks;

use crate::EditError;
use crate::size::BlockSize;
use item_listing::Item;
use std::alloc::{AllocError, Global};
use tag_names::{AttributeLine, AttributeLines, Prefixes, Tag, TagFaults, TestedTag};
use xs_names::{Text, TextPool};

/// What stands against the names of a block: each of the faults that some of its tags has.
#[derive(Clone, Copy)]
pub struct BlockNames {
    /// A name is no QName.
    pub bad: bool,
    /// A prefix is not bound.
    pub unbound: bool,
    /// A reserved prefix or namespace is used or bound, or a prefix is bound to no namespace.
    pub reserved: bool,
    /// An element has too many attributes and bindings.
    pub many: bool,
    /// Two attributes of an element have one expanded name, or two of its bindings one prefix.
    pub double: bool,
}

impl BlockNames {
    ghost use Rattle.tree_edits.specs.Walks.{with_faults};

    /// What stands against the names so far, or against those of a tag more.
    fn and_tag(self, faults: TagFaults) -> Self
        ensures { result ≡ with_faults self faults }
    {
        BlockNames {
            bad: self.bad || faults.bad,
            unbound: self.unbound || faults.unbound,
            reserved: self.reserved || faults.reserved,
            many: self.many || faults.many,
            double: self.double || faults.double,
        }
    }

    /// The refusal that comes before those by the number and the depth of nodes.
    pub fn early(self) -> Result<(), EditError>
        ensures ok { OnOk result (blocks.early self ≡ None) }
        ensures err { IfErr result (λ e. blocks.early self ≡ Some e) }
    {
        if self.bad {
            return Err(EditError::BadName);
        }
        if self.unbound {
            return Err(EditError::UnboundPrefix);
        }
        if self.reserved {
            return Err(EditError::ReservedName);
        }
        Ok(())
    }

    /// The refusal that comes after them.
    pub fn late(self) -> Result<(), EditError>
        ensures ok { OnOk result (blocks.late self ≡ None) }
        ensures err { IfErr result (λ e. blocks.late self ≡ Some e) }
    {
        if self.many {
            return Err(EditError::TooManyAttributes);
        }
        if self.double {
            return Err(EditError::DoubleAttribute);
        }
        Ok(())
    }
}

/// The attribute lines that come next.
fn lines_of(alloc: Global, items: &[Item]) -> Result<AttributeLines, AllocError>
    ensures { IfOk result (λ lines. lines ≡ blocks.lines_of items.now) }
{
    let mut lines = AttributeLines::new(alloc);
    for item in items {
        let Item::Attr(name, value) = item else {
            break;
        };
        lines.push(AttributeLine {
            name: name.try_clone()?,
            value: value.try_clone()?,
        })?;
    }
    Ok(lines)
}

/// What a block is found to be before it is built.
#[derive(Clone, Copy)]
pub struct JudgedBlock {
    /// What stands against its names.
    pub names: BlockNames,
    /// How many nodes it has.
    pub nodes: usize,
    /// How deep its deepest element stands, where its element has depth 1.
    pub depth: usize,
}

/// A walk over the items of a block: the prefixes in scope, and how many bindings each scope around has.
#[derive(Drop)]
pub struct Walk {
    alloc: Global,
    scope: Prefixes,
    sizes: Vec<usize>,
    names: BlockNames,
    size: BlockSize,
    pool: TextPool,
}

impl Walk {
    ghost use Rattle.item_listing.specs.declared.item.Item.{Item};
    ghost use Rattle.item_listing.specs.declared.item.Item.TheVariants as items;
    ghost use Rattle.tree_edits.specs.Walks.{outcome};
    ghost use Rattle.tree_edits.specs.Sizes.{nodes_in, deepest_in, all_nodes, all_deepest, Counts};

    /// Before the first item of a block in this scope.
    fn new(alloc: Global, scope: &Prefixes) -> Result<Self, AllocError>
        ensures names { IfOk result (λ walk. (more : List Item) → outcome walk more ≡ blocks.judged (blocks.tags_in scope.now [] more)) }
        ensures nodes { IfOk result (λ walk. (more : List Item) → all_nodes walk.size more ≡ nodes_in 0 false more) }
        ensures depth { IfOk result (λ walk. (more : List Item) → all_deepest walk.size more ≡ deepest_in 0 more) }
    {
        Ok(Walk {
            alloc,
            scope: scope.try_clone(alloc)?,
            sizes: Vec::new(alloc),
            names: BlockNames {
                bad: false,
                unbound: false,
                reserved: false,
                many: false,
                double: false,
            },
            size: BlockSize::new(),
            pool: TextPool::new(alloc),
        })
    }

    /// Judges a tag and takes its bindings into the scope.
    fn start(&mut self, name: &Text, rest: &[Item]) -> Result<(), AllocError>
        ensures names { OnOk result (outcome self.new rest.now ≡ outcome self.old (items.Start name.now ∷ rest.now)) }
        ensures size { self.new.size ≡ self.old.size }
    {
        let tag = Tag {
            name: name.try_clone()?,
            attributes: lines_of(self.alloc, rest)?,
        };
        let TestedTag { bindings, faults } = tag.tested(self.alloc, &self.scope, &mut self.pool)?;
        self.names = self.names.and_tag(faults);
        self.sizes.push(self.scope.len())?;
        self.scope.bind_all(bindings.as_slice())?;
        Ok(())
    }

    /// What was found, where no items are left.
    fn end(&self) -> JudgedBlock
        ensures names { result.names ≡ outcome self.now [] }
        ensures nodes { result.nodes ≡ all_nodes self.now.size [] }
        ensures depth { result.depth ≡ all_deepest self.now.size [] }
    {
        JudgedBlock {
            names: self.names,
            nodes: self.size.nodes,
            depth: self.size.depth,
        }
    }

    /// Goes back to the scope around.
    fn close(&mut self, name: &Text)
        ensures names { (more : List Item) → outcome self.new more ≡ outcome self.old (items.Close name.now ∷ more) }
        ensures size { self.new.size ≡ self.old.size }
    {
        if let Some(size) = self.sizes.pop() {
            self.scope.truncate(size);
        }
    }

    /// Judges the names of the next item; these items are behind it.
    fn tag(&mut self, item: &Item, rest: &[Item]) -> Result<(), AllocError>
        ensures names { OnOk result (outcome self.new rest.now ≡ outcome self.old (item.now ∷ rest.now)) }
        ensures size { self.new.size ≡ self.old.size }
    {
        match item {
            Item::Start(name) => self.start(name, rest),
            Item::Close(name) => {
                self.close(name);
                Ok(())
            }
            _ => Ok(()),
        }
    }

    /// Takes the next item; these are behind it.
    fn item(&mut self, item: &Item, rest: &[Item]) -> Result<(), AllocError>
        ensures names { OnOk result (outcome self.new rest.now ≡ outcome self.old (item.now ∷ rest.now)) }
        ensures size { OnOk result (Counts self.old.size self.new.size item.now) }
    {
        self.tag(item, rest)?;
        self.size.item(item)
    }
}

/// What a block is found to be that stands in this scope: what stands against its names, how many nodes it has, and how deep
/// it is. Nothing is built.
///
/// # Errors
///
/// `AllocError` is want of memory.
pub fn judge_block(
    alloc: Global,
    scope: &Prefixes,
    items: &[Item],
) -> Result<JudgedBlock, AllocError>
    requires one { one_element items.now ≡ true }
    ensures names { IfOk result (λ block. block.names ≡ blocks.judged (blocks.tags_in scope.now [] items.now)) }
    ensures nodes { IfOk result (λ block. block.nodes ≡ count (block_in scope.now items.now)) }
    ensures depth { IfOk result (λ block. block.depth ≡ deepest_of 1 (block_in scope.now items.now)) }
{
    let mut walk = Walk::new(alloc, scope)?;
    let mut left = items;
    'items: while let Some((item, rest)) = left.split_first() {
        walk.item(item, rest)?;
        left = rest;
    }
    Ok(walk.end())
}
