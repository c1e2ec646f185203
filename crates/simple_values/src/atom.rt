//! The values of atomic types.
ghost use Rattle.std.specs.Prelude.{◌≡◌};

use crate::{Characters, Octets};
use dec_value::Dec;
use std::alloc::AllocError;
use time_value::{Moment, MomentKind, Span};
use xs_names::NsId;

/// A value of an atomic type. Each primitive type has its own variant, or its own kind of moment, so that values of
/// different primitive types differ (Datatypes 2.2 and 3.2).
#[derive(PartialEq, Eq, Hash)]
pub enum Atom {
    /// `anySimpleType`: a text whose meaning is open, unlike any `string`.
    Untyped(Characters),
    /// `string`
    Text(Characters),
    /// `anyURI`
    Uri(Characters),
    /// `QName`
    Name(ExpandedName),
    /// `boolean`
    Boolean(bool),
    /// `decimal`
    Number(Dec),
    /// `hexBinary`
    Hex(Octets),
    /// `base64Binary`
    Base64(Octets),
    /// `dateTime`, `date`, `time`, `gYearMonth`, `gYear`, `gMonthDay`, `gDay` or `gMonth`
    Instant { kind: MomentKind, moment: Moment },
    /// `duration`
    Duration(Span),
}

/// A clone is the same value.
impl Clone for Atom {
    ghost is_clone = { λ atom made. made ≡ atom };

    fn clone(&self) -> Result<Self, AllocError> {
        Ok(match self {
            Atom::Untyped(text) => Atom::Untyped(text.clone()?),
            Atom::Text(text) => Atom::Text(text.clone()?),
            Atom::Uri(text) => Atom::Uri(text.clone()?),
            Atom::Name(name) => Atom::Name(name.clone()?),
            Atom::Boolean(truth) => Atom::Boolean(*truth),
            Atom::Number(number) => Atom::Number(*number),
            Atom::Hex(octets) => Atom::Hex(octets.clone()?),
            Atom::Base64(octets) => Atom::Base64(octets.clone()?),
            Atom::Instant { kind, moment } => Atom::Instant {
                kind: *kind,
                moment: *moment,
            },
            Atom::Duration(span) => Atom::Duration(*span),
        })
    }
}

/// A value of `QName`: a namespace by its number in the `Names` that the scope was made over, and a local name
/// (Datatypes 3.2.18).
#[derive(Drop, PartialEq, Eq, Hash)]
pub struct ExpandedName {
    pub namespace: NsId,
    pub local: Characters,
}

/// A clone is the same name.
impl Clone for ExpandedName {
    ghost is_clone = { λ name made. made ≡ name };

    fn clone(&self) -> Result<Self, AllocError> {
        Ok(ExpandedName {
            namespace: self.namespace,
            local: self.local.clone()?,
        })
    }
}

impl Drop for Atom {
    fn drop(self) {
        match self {
            Atom::Untyped(untyped) => drop(untyped),
            Atom::Text(text) => drop(text),
            Atom::Uri(uri) => drop(uri),
            Atom::Name(name) => drop(name),
            Atom::Boolean(_) => {}
            Atom::Number(_) => {}
            Atom::Hex(hex) => drop(hex),
            Atom::Base64(base64) => drop(base64),
            Atom::Instant { kind: _, moment: _ } => {}
            Atom::Duration(_) => {}
        }
    }
}
