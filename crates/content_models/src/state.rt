//! States along the words of an `all`.

ghost use Rattle.std.specs.Prelude.{◌≡◌, ◌<◌, ◌^◌, ◌==◌, bit_or};
ghost use Rattle.std.specs.Int.{bit_at};
ghost use Rattle.content_models.specs.States.{next_of};

/// The members of an `all` that were seen, as the bits of a number, and whether no word begins so.
#[derive(Clone, Copy, PartialEq)]
pub struct AllState {
    pub seen: u64,
    pub dead: bool,
}

impl AllState {
    /// The state after one more child: of the member of this number, or of none where the number is 64 or more. A member
    /// that was seen already ends every word.
    pub fn after(self, letter: u16) -> AllState
        ensures { result ≡ next_of self letter }
    {
        if letter >= 64 || has_bit(self.seen, letter.into()) {
            return AllState {
                seen: self.seen,
                dead: true,
            };
        }
        AllState {
            seen: with_bit(self.seen, letter.into()),
            dead: self.dead,
        }
    }
}

/// Whether the bit of this place is set.
fn has_bit(word: u64, place: u32) -> bool
    requires { place < 64 }
    ensures { result ≡ (bit_at word place == 1) }
{
    word & (1 << place) != 0
}

/// The number with the bit of this place set.
pub(crate) fn with_bit(word: u64, place: u32) -> u64
    requires { place < 64 }
    ensures { result ≡ bit_or word (2 ^ place) }
{
    word | (1 << place)
}
