//! What children do to the state of an `all`.

ghost use Rattle.std.specs.Prelude.{◌≡◌};
ghost use Rattle.model_summaries.specs.Masks.{no_children, of_letter, joined, acts, meets};

use content_models::AllState;

/// What some children do to the state of an `all` (Structures 3.8.4).
#[derive(Clone, Copy, PartialEq)]
pub struct AllMap {
    /// The members that the children are of, as the bits of a number.
    pub adds: u64,
    /// Whether no word has such children: one of them is of no member, or two are of one member.
    pub stops: bool,
}

impl AllMap {
    /// What no children do.
    pub fn unit() -> AllMap
        ensures { result ≡ no_children }
    {
        AllMap {
            adds: 0,
            stops: false,
        }
    }

    /// What a child does that is of the member of this number, or of none where the number is 64 or more.
    pub fn of(letter: u16) -> AllMap
        ensures { result ≡ of_letter letter }
    {
        if letter < 64 {
            AllMap {
                adds: 1 << letter,
                stops: false,
            }
        } else {
            AllMap {
                adds: 0,
                stops: true,
            }
        }
    }

    /// What these children and then others do.
    pub fn then(self, next: AllMap) -> AllMap
        ensures { result ≡ joined self next }
    {
        AllMap {
            adds: self.adds | next.adds,
            stops: self.stops || next.stops || meet(self.adds, next.adds),
        }
    }

    /// The state after these children.
    pub fn after(self, state: AllState) -> AllState
        ensures { result ≡ acts self state }
    {
        AllState {
            seen: state.seen | self.adds,
            dead: state.dead || self.stops || meet(state.seen, self.adds),
        }
    }
}

/// Whether two sets of members have one in common.
fn meet(one: u64, other: u64) -> bool
    ensures { result ≡ meets one other }
{
    one & other != 0
}
