//! The items of list values.
ghost use Rattle.std.specs.Prelude.{◌≡◌, ◌==◌, ◌++◌, ◌∷◌, [], length, OnOk, OnErr};

use crate::Atom;
use std::alloc::{AllocError, Global};
use std::marker::Model;
use xs_codes::Builtin;
use xs_lists::Listed;

/// An atom, and the built-in type that accepted it, or the nearest one that the accepting type is derived from.
pub struct TypedAtom {
    pub builtin: Builtin,
    pub atom: Atom,
}

/// A clone is the same atom of the same type.
impl Clone for TypedAtom {
    ghost is_clone = { λ item made. made ≡ item };

    fn clone(&self) -> Result<Self, AllocError> {
        Ok(TypedAtom {
            builtin: self.builtin,
            atom: self.atom.clone()?,
        })
    }
}

/// The items of a list value, at most 4,294,967,295. Contracts see the list of them.
pub struct Atoms {
    inner: Listed<TypedAtom>,
}

impl Model for Atoms {
    ghost use Rattle.std.specs.Prelude.{List, length, ◌<◌, ◌^◌};
    ghost use Rattle.simple_values.specs.declared.atoms.TypedAtom.{TypedAtom};

    ghost Value = { List TypedAtom };

    ghost view = { λ s. s.inner };

    ghost invariant = { λ s. length s.inner < 2 ^ 32 };
}

impl Atoms {
    /// No items.
    pub fn new(alloc: Global) -> Self
        ensures { result ≡ [] }
    {
        Atoms {
            inner: Listed::new(alloc),
        }
    }

    /// Puts an item at the end. Where there is no room for it, the list stays.
    pub fn push(&mut self, item: TypedAtom) -> Result<(), AllocError>
        ensures ok { OnOk result (self.new ≡ self.old ++ item ∷ []) }
        ensures err { OnErr result (self.new ≡ self.old) }
    {
        if self.inner.len() >= u32::MAX as usize {
            return Err(AllocError);
        }
        self.inner.push(item)?;
        Ok(())
    }

    /// The items in order.
    pub fn as_slice(&self) -> &[TypedAtom]
        ensures { result.now ≡ self.now }
    {
        self.inner.as_slice()
    }

    /// The number of items.
    pub fn len(&self) -> u32
        ensures { result ≡ length self.now }
    {
        self.inner.len() as u32
    }

    /// Whether there are no items.
    pub fn is_empty(&self) -> bool
        ensures { result ≡ (length self.now == 0) }
    {
        self.inner.is_empty()
    }
}

/// A clone has the same items.
impl Clone for Atoms {
    ghost is_clone = { λ items made. made ≡ items };

    fn clone(&self) -> Result<Self, AllocError> {
        Ok(Atoms {
            inner: self.inner.clone()?,
        })
    }
}

impl Drop for Atoms {
    fn drop(self) {
        let Atoms { inner } = self;
        drop(inner);
    }
}

impl Drop for TypedAtom {
    fn drop(self) {
        let TypedAtom { builtin: _, atom } = self;
        drop(atom);
    }
}
