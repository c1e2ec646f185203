ghost use Rattle.std.specs.Prelude.{◌≡◌, List, [], false, IfOk};
ghost use Rattle.tree_building.specs.Blocks.{one_from, one_by_tags, one_element};

use item_listing::Item;
use std::alloc::{AllocError, Global};
use xs_names::{Text, is_white_space};

/// The elements that are open while items come.
#[derive(Drop)]
pub struct Tags {
    alloc: Global,
    open: Vec<Text>,
    rooted: bool,
    tag_open: bool,
}

impl Tags {
    ghost use Rattle.std.specs.Prelude.{◌∷◌};
    ghost use Rattle.item_listing.specs.declared.item.Item.{Item};
    ghost use Rattle.item_listing.specs.declared.item.Item.TheVariants as items;
    ghost use Rattle.tree_building.specs.Tags.{outcome, Takes};

    fn new(alloc: Global) -> Self
        ensures { (more : List Item) → outcome result more ≡ one_from [] false false more }
    {
        Tags {
            alloc,
            open: Vec::new(alloc),
            rooted: false,
            tag_open: false,
        }
    }

    fn start(&mut self, name: &Text) -> Result<bool, AllocError>
        ensures { IfOk result (λ goes_on. Takes self.old (items.Start name.now) self.new goes_on) }
    {
        if self.open.is_empty() && self.rooted {
            return Ok(false);
        }
        self.open.push(name.try_clone()?)?;
        self.rooted = true;
        self.tag_open = true;
        Ok(true)
    }

    fn text(&mut self, text: &Text) -> bool
        ensures { Takes self.old (items.Chars text.now) self.new result }
    {
        if self.open.is_empty() {
            return is_white_space(text.as_str());
        }
        self.tag_open = false;
        true
    }

    fn close(&mut self, name: &Text) -> bool
        ensures { Takes self.old (items.Close name.now) self.new result }
    {
        let Some(last) = self.open.pop() else {
            return false;
        };
        self.tag_open = false;
        last.as_str() == name.as_str()
    }

    fn instruction(&mut self) -> bool
        ensures { Takes self.old items.Instruction self.new result }
    {
        self.tag_open = false;
        true
    }

    /// Takes the next item. Answers whether it goes on with one element.
    fn item(&mut self, item: &Item) -> Result<bool, AllocError>
        ensures { IfOk result (λ goes_on. Takes self.old item.now self.new goes_on) }
    {
        match item {
            Item::Start(name) => self.start(name),
            Item::Attr(..) => Ok(self.tag_open),
            Item::Chars(text) => Ok(self.text(text)),
            Item::Close(name) => Ok(self.close(name)),
            Item::Instruction => Ok(self.instruction()),
            _ => Ok(false),
        }
    }

    /// Whether the items that came are one element.
    fn are_done(&self) -> bool
        ensures { result ≡ outcome self.now [] }
    {
        self.open.is_empty() && !self.tag_open && self.rooted
    }
}

/// Whether the items are one whole element, by their tags as they are written.
fn have_one_element(alloc: Global, items: &[Item]) -> Result<bool, AllocError>
    ensures { IfOk result (λ one. one ≡ one_by_tags items.now) }
{
    let mut tags = Tags::new(alloc);
    for item in items {
        if !tags.item(item)? {
            return Ok(false);
        }
    }
    Ok(tags.are_done())
}

#[tactic(auto, using(crate::proofs::OneElement::block_built))]
/// Whether the items are one whole element, whatever its names, its depth and the number of its nodes: whether building
/// it by the rules of a block ends well. White space may stand around it.
pub fn is_one_element(alloc: Global, items: &[Item]) -> Result<bool, AllocError>
    ensures { IfOk result (λ one. one ≡ one_element items.now) }
{
    have_one_element(alloc, items)
}
