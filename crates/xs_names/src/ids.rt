ghost use Rattle.std.specs.Prelude.{◌≡◌};

use std::marker::Model;

/// The number of a namespace in a `Names`, counted from 0 in the order of coming. Contracts see the number.
#[derive(Clone, Copy, PartialEq, Eq, Hash)]
pub struct NsId {
    pub(crate) number: u32,
}

impl Model for NsId {
    ghost use Rattle.std.specs.Prelude.{ℕ};

    ghost Value = { ℕ };

    ghost view = { λ id. id.number };

    ghost inverse = { λ n. record { number = n } };
}

impl NsId {
    /// The absent namespace, that of names without one.
    pub const ABSENT: NsId = NsId { number: 0 };

    /// The namespace that the prefix `xml` is bound to (Namespaces in XML 1.0, 3).
    pub const XML: NsId = NsId { number: 1 };

    /// The number.
    pub fn number(&self) -> u32
        ensures { result ≡ self.now }
    {
        self.number
    }
}

/// The number of a name, a namespace with a local part, in a `Names`, counted from 0 in the order of coming. Contracts see
/// the number.
#[derive(Clone, Copy, PartialEq, Eq, Hash)]
pub struct NameId {
    pub(crate) number: u32,
}

impl Model for NameId {
    ghost use Rattle.std.specs.Prelude.{ℕ};

    ghost Value = { ℕ };

    ghost view = { λ id. id.number };

    ghost inverse = { λ n. record { number = n } };
}

impl NameId {
    /// The number.
    pub fn number(&self) -> u32
        ensures { result ≡ self.now }
    {
        self.number
    }
}
