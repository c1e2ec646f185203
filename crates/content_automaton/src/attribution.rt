//! What is attributed to the names with a symbol.

ghost use Rattle.std.specs.Prelude.{◌≡◌, ℕ, ◌<◌, List, ◌++◌, map, length, All};
ghost use Rattle.content_automaton.specs.declared.rows.Entry.{Entry as EntryData};
ghost use Rattle.content_automaton.specs.Attribution.{Noted, noted, AreNoted, AreUpTo, with_term};

use crate::rows::Entry;

/// What is attributed to a name (Structures 3.4.4), by the numbers of terms in the order of the schema.
#[derive(Clone, Copy)]
pub enum Attribution {
    /// No term accepts it.
    Nothing,
    /// The first term that accepts it, and the class that all of them have.
    OneClass(usize, u32),
    /// The first term that accepts it; others have another class.
    Ambivalent(usize),
}

impl Attribution {
    /// With one more term of a class.
    fn with(&self, term: usize, class: u32) -> Attribution
        ensures { result ≡ with_term self.now term class }
    {
        match self {
            Attribution::Nothing => Attribution::OneClass(term, class),
            Attribution::OneClass(first, one) => {
                if *one == class {
                    *self
                } else {
                    Attribution::Ambivalent(*first)
                }
            }
            Attribution::Ambivalent(_) => *self,
        }
    }
}

/// Notes for each symbol what the next term, of this number, accepts.
pub(crate) fn note_row(list: &mut Vec<Attribution>, term: usize, row: &[Entry])
    requires { All (λ (e : EntryData). e.symbol < length list.old.items) row.now }
    ensures noted { (notes : List Noted) → AreUpTo notes term → AreNoted notes list.old.items → AreNoted (notes ++ map (noted term) row.now) list.new.items }
    ensures count { length list.new.items ≡ length list.old.items }
{
    for entry in row {
        let place = entry.symbol as usize;
        list[place] = list[place].with(term, entry.class);
    }
}
