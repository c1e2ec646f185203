ghost use Rattle.std.specs.Prelude.{◌≡◌, IfOk};

use crate::Text;
use std::alloc::{AllocError, Global};
use std::collections::HashSet;
use std::rc::RcStr;

/// Texts that came, each kept once, so that a text that comes again shares the characters of the one before.
pub struct TextPool {
    alloc: Global,
    texts: HashSet<RcStr>,
}

impl TextPool {
    /// No texts.
    pub fn new(alloc: Global) -> Self {
        TextPool {
            alloc,
            texts: HashSet::new(alloc),
        }
    }

    /// A text of these characters. Where an equal one came before, it takes no memory for them.
    pub fn text(&mut self, text: &str) -> Result<Text, AllocError>
        ensures { IfOk result (λ t. t ≡ text.now) }
    {
        if let Some(known) = self.texts.get(text) {
            return Ok(Text {
                inner: known.clone()?,
            });
        }
        let inner = RcStr::from_str(self.alloc, text)?;
        self.texts.insert(inner.clone()?)?;
        Ok(Text { inner })
    }
}

impl Drop for TextPool {
    fn drop(self) {
        let TextPool { alloc: _, texts } = self;
        drop(texts);
    }
}
