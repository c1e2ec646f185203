ghost use Rattle.std.specs.Prelude.{◌≡◌, IfOk, string_bytes};

use std::alloc::{AllocError, Global};
use std::marker::Model;
use std::rc::RcStr;

/// A text whose characters its copies share. Contracts see its bytes in UTF-8, as they see those of a `&str`.
///
/// Texts are compared by `as_str`.
pub struct Text {
    pub(crate) inner: RcStr,
}

impl Model for Text {
    ghost use Rattle.std.specs.Prelude.{List, ℕ};

    ghost Value = { List ℕ };

    ghost use Rattle.xs_names.specs.Text.{bytes_of};

    ghost view = { bytes_of };
}

impl Text {
    /// A text of these characters.
    pub fn new(alloc: Global, text: &str) -> Result<Self, AllocError>
        ensures { IfOk result (λ t. t ≡ text.now) }
    {
        Ok(Text {
            inner: RcStr::from_str(alloc, text)?,
        })
    }

    /// The text of a string.
    pub fn from_string(text: String) -> Result<Self, AllocError>
        ensures { IfOk result (λ t. t ≡ string_bytes text) }
    {
        Ok(Text {
            inner: RcStr::from_string(text)?,
        })
    }

    /// The text's characters.
    pub fn as_str(&self) -> &str
        ensures { result.now ≡ self.now }
    {
        self.inner.as_str()
    }

    /// The same text once more. The characters are shared, and not copied.
    pub fn try_clone(&self) -> Result<Self, AllocError>
        ensures { IfOk result (λ t. t ≡ self.now) }
    {
        Ok(Text {
            inner: self.inner.clone()?,
        })
    }
}

impl Drop for Text {
    fn drop(self) {
        let Text { inner } = self;
        drop(inner);
    }
}
