//! What is kept of an element's child elements.

ghost use Rattle.std.specs.Prelude.{◌≡◌, ◌==◌, false};
ghost use Rattle.kept_state.specs.Kept.{HaveSameFlags};

use assess_records::ChildCounts;
use model_lists::ModelList;

/// What is kept of an element's child elements.
#[derive(Clone, Copy)]
pub struct KeptChildren {
    /// The place from 0 where they get stuck in the content model (Structures 3.4.4).
    pub stuck: Option<u32>,
    /// How many of them have each validity, and each attempt at validation.
    pub counts: ChildCounts,
    /// The list of their symbols, where the type of the element has a content model.
    pub list: Option<ModelList>,
}

impl KeptChildren {
    /// Whether a record may differ by these and by others: where it does not, both get stuck at one place, and there are child
    /// elements of each kind by both or by neither.
    pub fn tell_apart(&self, other: &KeptChildren) -> bool
        ensures { result ≡ false → (self.now.stuck ≡ other.now.stuck) × HaveSameFlags self.now.counts other.now.counts }
    {
        self.stuck != other.stuck || differ(&self.counts, &other.counts)
    }
}

// Whether there are child elements of a kind by the one counts, and none by the others.
fn differ(one: &ChildCounts, other: &ChildCounts) -> bool
    ensures { result ≡ false → HaveSameFlags one.now other.now }
{
    differ_in(one.valid, other.valid)
        || differ_in(one.invalid, other.invalid)
        || differ_in(one.not_known, other.not_known)
        || differ_in(one.full, other.full)
        || differ_in(one.partial, other.partial)
        || differ_in(one.untried, other.untried)
}

// Whether one of the numbers is 0, and the other is not.
fn differ_in(one: u32, other: u32) -> bool
    ensures { result ≡ false → (one == 0) ≡ (other == 0) }
{
    (one == 0) != (other == 0)
}
