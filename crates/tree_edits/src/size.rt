ghost use Rattle.std.specs.Prelude.{◌≡◌, ◌+◌, List, false, IfOk, OnOk};
ghost use Rattle.tree_edits.specs.Sizes.{nodes_in, deepest_in, all_nodes, all_deepest, Counts};

use item_listing::Item;
use std::alloc::AllocError;
use xs_names::Text;

/// How many nodes the items of a block have begun, and the depth of the deepest element, while the items come.
#[derive(Clone, Copy)]
pub struct BlockSize {
    pub nodes: usize,
    pub depth: usize,
    pub inside: usize,
    pub in_text: bool,
}

/// One more than this.
fn one_more(number: usize) -> Result<usize, AllocError>
    ensures { IfOk result (λ next. next ≡ number + 1) }
{
    match number.checked_add(1) {
        Some(next) => Ok(next),
        None => Err(AllocError),
    }
}

impl BlockSize {
    ghost use Rattle.item_listing.specs.declared.item.Item.{Item};
    ghost use Rattle.item_listing.specs.declared.item.Item.TheVariants as items;

    /// Before the first item.
    pub fn new() -> Self
        ensures nodes { (more : List Item) → all_nodes result more ≡ nodes_in 0 false more }
        ensures depth { (more : List Item) → all_deepest result more ≡ deepest_in 0 more }
    {
        BlockSize {
            nodes: 0,
            depth: 0,
            inside: 0,
            in_text: false,
        }
    }

    /// Counts an element.
    fn start(&mut self, name: &Text) -> Result<(), AllocError>
        ensures { OnOk result (Counts self.old self.new (items.Start name.now)) }
    {
        let _ = name;
        self.nodes = one_more(self.nodes)?;
        self.inside = one_more(self.inside)?;
        self.depth = self.depth.max(self.inside);
        self.in_text = false;
        Ok(())
    }

    /// Counts a text, where these characters begin one.
    fn chars(&mut self, text: &Text) -> Result<(), AllocError>
        ensures { OnOk result (Counts self.old self.new (items.Chars text.now)) }
    {
        if self.in_text || self.inside == 0 || text.as_str().is_empty() {
            return Ok(());
        }
        self.nodes = one_more(self.nodes)?;
        self.in_text = true;
        Ok(())
    }

    /// Goes back to what is around the innermost element.
    fn close(&mut self, name: &Text)
        ensures { Counts self.old self.new (items.Close name.now) }
    {
        let _ = name;
        self.inside = self.inside.saturating_sub(1);
        self.in_text = false;
    }

    /// Counts the next item.
    pub fn item(&mut self, item: &Item) -> Result<(), AllocError>
        ensures { OnOk result (Counts self.old self.new item.now) }
    {
        match item {
            Item::Start(name) => self.start(name),
            Item::Chars(text) => self.chars(text),
            Item::Close(name) => {
                self.close(name);
                Ok(())
            }
            _ => Ok(()),
        }
    }
}
