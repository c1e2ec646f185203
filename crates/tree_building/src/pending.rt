ghost use Rattle.std.specs.Prelude.{◌≡◌, ◌++◌, IfOk, OnOk, OnErr};

use std::alloc::{AllocError, Global};
use std::marker::Model;
use tag_names::Tag;
use xs_names::Text;

/// The characters of one item, which are shared with it, or those of more items one after another.
#[derive(Drop)]
enum Pieces {
    One(Text),
    More(String),
}

/// Characters that came one after another. Contracts see their bytes in UTF-8.
#[derive(Drop)]
pub struct Joined {
    inner: Pieces,
}

impl Model for Joined {
    ghost use Rattle.std.specs.Prelude.{List, ℕ};

    ghost Value = { List ℕ };

    ghost use Rattle.tree_building.specs.Pieces.{characters_of};

    ghost view = { λ joined. characters_of joined.inner };
}

impl Joined {
    /// These characters, which are shared and not copied.
    pub fn new(text: &Text) -> Result<Self, AllocError>
        ensures { IfOk result (λ joined. joined ≡ text.now) }
    {
        Ok(Joined {
            inner: Pieces::One(text.try_clone()?),
        })
    }

    /// Puts more characters behind.
    pub fn push_str(&mut self, alloc: Global, text: &str) -> Result<(), AllocError>
        ensures ok { OnOk result (self.new ≡ self.old ++ text.now) }
        ensures err { OnErr result (self.new ≡ self.old) }
    {
        match &mut self.inner {
            Pieces::One(first) => {
                let mut more = String::from_str(alloc, first.as_str())?;
                more.push_str(text)?;
                self.inner = Pieces::More(more);
            }
            Pieces::More(more) => more.push_str(text)?,
        }
        Ok(())
    }

    /// The characters as a text.
    pub fn to_text(&self, alloc: Global) -> Result<Text, AllocError>
        ensures { IfOk result (λ text. text ≡ self.now) }
    {
        match &self.inner {
            Pieces::One(text) => text.try_clone(),
            Pieces::More(more) => Text::new(alloc, more.as_str()),
        }
    }
}

/// What came last and is no node yet.
#[derive(Drop)]
pub enum Pending {
    Nothing,
    /// A start tag that may still get attribute lines, with the number of its item.
    Start(Tag, u32),
    /// Characters that may still get more.
    Chars(Joined),
}
