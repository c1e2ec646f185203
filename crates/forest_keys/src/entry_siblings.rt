//! Entries in document order as siblings.

ghost use Rattle.std.specs.Prelude.{◌≡◌, [], MatchOption};
ghost use Rattle.what_is_found.specs.Identity.{seen as seen_below, seen_element};
ghost use Rattle.path_walk.specs.Sight as sight;
ghost use Rattle.tree_assess.specs.Entries.{entry_of};
ghost use Rattle.forest_keys.specs.inside.Parsed.{IsParted, assessed_of};

use path_walk::{KeySiblings, KeySight};
use tree_assess::ElementEntry;

/// Entries in document order as siblings, each with those below it: an entry says how many of the next ones these are.
#[derive(Clone, Copy)]
pub(crate) struct EntrySiblings<'a> {
    pub entries: &'a [ElementEntry],
}

/// The first of some entries, those below it, and those behind it.
#[derive(Clone, Copy)]
pub(crate) struct Parted<'a> {
    pub own: &'a ElementEntry,
    pub below: &'a [ElementEntry],
    pub behind: &'a [ElementEntry],
}

/// Entries by the first of them; `None` where there are none.
pub(crate) fn by_first<'a>(entries: &'a [ElementEntry]) -> Option<Parted<'a>>
    ensures { MatchOption result (entries.now ≡ []) (IsParted entries.now) }
{
    let (own, rest) = entries.split_first()?;
    let count = own.below.min(rest.len());
    let (below, behind) = rest.split_at(count);
    Some(Parted { own, below, behind })
}

// What identity constraints see of an element.
fn sight_of<'a>(own: &'a ElementEntry) -> KeySight<'a>
    ensures { sight.seen result ≡ seen_element (entry_of own.now) }
{
    let attrs = own.attrs.as_slice();
    let attr_values = own.attr_values.as_slice();
    KeySight {
        number: own.number,
        name: own.element.name,
        declaration: own.governing.declaration,
        of: own.governing.of,
        value: &own.value,
        attrs,
        attr_values,
    }
}

impl<'a> KeySiblings for EntrySiblings<'a> {
    ghost use Rattle.what_is_found.specs.Identity.{seen};
    ghost use Rattle.forest_keys.specs.inside.Parsed.{assessed_of};

    ghost forest = { λ s. seen (assessed_of s.entries.now) };

    fn first(&self) -> Option<KeySight<'_>> {
        match by_first(self.entries) {
            None => None,
            Some(parts) => Some(sight_of(parts.own)),
        }
    }

    fn below(&self) -> Self {
        match by_first(self.entries) {
            None => EntrySiblings {
                entries: self.entries,
            },
            Some(parts) => EntrySiblings {
                entries: parts.below,
            },
        }
    }

    fn next(&self) -> Self {
        match by_first(self.entries) {
            None => EntrySiblings {
                entries: self.entries,
            },
            Some(parts) => EntrySiblings {
                entries: parts.behind,
            },
        }
    }
}
