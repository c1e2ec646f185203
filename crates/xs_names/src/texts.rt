ghost use Rattle.std.specs.Prelude.{◌≡◌, ◌==◌, ◌↔◌, [], ◌∷◌, ◌++◌, length, slice_get, bytes_eq, IsTrue, Contains, OnOk, OnErr};
ghost use Rattle.std.specs.List.{list_any};
ghost use Rattle.std.specs.Option.{option_copied};

use crate::Text;
use std::alloc::{AllocError, Global};
use std::marker::Model;

/// A list of texts. Contracts see the list of their bytes in UTF-8.
pub struct Texts {
    inner: Vec<Text>,
}

impl Model for Texts {
    ghost use Rattle.std.specs.Prelude.{List, ℕ};

    ghost Value = { List (List ℕ) };

    ghost view = { λ texts. texts.inner.items };
}

impl Texts {
    /// No texts.
    pub fn new(alloc: Global) -> Self
        ensures { result ≡ [] }
    {
        Texts {
            inner: Vec::new(alloc),
        }
    }

    /// Puts a text at the end. Where memory is wanting, the text is dropped and the list stays.
    pub fn push(&mut self, text: Text) -> Result<(), AllocError>
        ensures ok { OnOk result (self.new ≡ self.old ++ text ∷ []) }
        ensures err { OnErr result (self.new ≡ self.old) }
    {
        self.inner.push(text)?;
        Ok(())
    }

    /// The number of texts.
    pub fn len(&self) -> usize
        ensures { result ≡ length self.now }
    {
        self.inner.len()
    }

    /// Whether there are no texts.
    pub fn is_empty(&self) -> bool
        ensures { result ≡ (length self.now == 0) }
    {
        self.inner.is_empty()
    }

    /// The text at an index, counted from 0; `None` past the end.
    pub fn get(&self, index: usize) -> Option<&Text>
        ensures { option_copied result ≡ slice_get self.now index }
    {
        self.inner.get(index)
    }

    /// The texts in order, for a loop over them.
    pub fn as_slice(&self) -> &[Text]
        ensures { result.now ≡ self.now }
    {
        self.inner.as_slice()
    }

    /// Whether the list holds the text.
    pub fn contains(&self, text: &str) -> bool
        ensures found { IsTrue result ↔ Contains self.now text.now }
        ensures value { result ≡ list_any (λ t. bytes_eq t text.now) self.now }
    {
        self.inner.iter().any(|t| t.as_str() == text)
    }
}

impl Drop for Texts {
    fn drop(self) {
        let Texts { inner } = self;
        drop(inner);
    }
}
