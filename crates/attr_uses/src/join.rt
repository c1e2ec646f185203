ghost use Rattle.std.specs.Prelude.{◌≡◌};
ghost use Rattle.attr_uses.specs.Entries as entries;

use crate::Entry;

/// How two maps are made one, name by name.
#[derive(Clone, Copy)]
pub enum Join {
    /// The uses of the first, and then those of the second.
    Union,
    /// The uses of the first, and where it has none those of the second.
    Override,
    /// Where the first has something, nothing; else the uses of the second.
    Without,
}

impl Join {
    // What the map has for a name, from what the two have for it.
    pub(crate) fn joined(self, first: Option<Entry>, second: Option<Entry>) -> Option<Entry>
        ensures { result ≡ entries.joined self first second }
    {
        match (first, second) {
            (None, _) => second,
            (Some(entry), None) => self.alone(entry),
            (Some(entry), Some(other)) => match self {
                Join::Union => Some(entry.and(other)),
                Join::Override => Some(entry),
                Join::Without => None,
            },
        }
    }

    // What the map has for a name that the first alone has.
    fn alone(self, entry: Entry) -> Option<Entry>
        ensures { result ≡ entries.alone self entry }
    {
        match self {
            Join::Union | Join::Override => Some(entry),
            Join::Without => None,
        }
    }

    // The node for a part that the second has nothing of, or that is one part of both.
    pub(crate) fn kept(self, first: u32) -> u32
        ensures { result ≡ entries.kept self first }
    {
        match self {
            Join::Union | Join::Override => first,
            Join::Without => 0,
        }
    }
}
