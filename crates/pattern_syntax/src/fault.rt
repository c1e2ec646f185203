//! Why a text is refused.

ghost use Rattle.std.specs.Prelude.{◌≡◌};
ghost use Rattle.pattern_syntax.specs.Notes.{name_fault, with_name, with_number};
ghost use Rattle.pattern_syntax.specs.Names.{begins_is as begins_is_of};

use crate::names::set_named;

/// Why a text is refused as a pattern.
#[derive(Clone, Copy, Debug)]
pub enum PatternFault {
    /// The text is no pattern. The place is the number of characters of the longest front that begins some pattern.
    Syntax(usize),
    /// The text is a pattern, and its first class name that is not accepted is written as one of a block.
    UnsupportedBlock,
    /// The text is a pattern, and its first class name that is not accepted is not written as one of a block.
    UnknownClass,
    /// A number of a quantifier is above 4,096.
    TooLarge,
}

/// What in a pattern is to be refused.
#[derive(Clone, Copy)]
pub(crate) struct Notes {
    /// The fault of the first class name that is not accepted.
    pub bad_name: Option<PatternFault>,
    /// Whether some number of a quantifier is above 4,096.
    pub too_large: bool,
}

impl Notes {
    pub fn with_name(self, name: &[u8]) -> Notes
        ensures { result ≡ with_name self name.now }
    {
        match self.bad_name {
            Some(_) => self,
            None => Notes {
                bad_name: name_fault(name),
                too_large: self.too_large,
            },
        }
    }

    /// The number is cut at 4,097.
    pub fn with_number(self, number: u32) -> Notes
        ensures { result ≡ with_number self number }
    {
        Notes {
            bad_name: self.bad_name,
            too_large: self.too_large || number > 4096,
        }
    }
}

fn name_fault(name: &[u8]) -> Option<PatternFault>
    ensures { result ≡ name_fault name.now }
{
    match set_named(name) {
        Some(_) => None,
        None if begins_is(name) => Some(PatternFault::UnsupportedBlock),
        None => Some(PatternFault::UnknownClass),
    }
}

fn begins_is(name: &[u8]) -> bool
    ensures { result ≡ begins_is_of name.now }
{
    matches!(name, [b'I', b's', ..])
}
