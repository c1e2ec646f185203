//! The states of an `all`.

ghost use Rattle.std.specs.Prelude.{◌≡◌, ◌≤◌, length};
ghost use Rattle.content_models.specs.States.{start_of, accepts_at, IsMachineOf};

use crate::member::AllMember;
use crate::state::{AllState, with_bit};

/// How many members an `all` may have.
pub const MOST_MEMBERS: usize = 64;

/// What the words of an `all` need: the members that each word has, whether the `all` may be left out, and whether each of
/// its members has a word.
#[derive(Clone, Copy)]
pub struct AllMachine {
    required: u64,
    optional: bool,
    has_words: bool,
}

impl AllMachine {
    /// What the words of an `all` of these members need; `inhabited` says of each member whether it accepts some name.
    pub fn of(members: &[AllMember], optional: bool, inhabited: &[bool]) -> AllMachine
        requires few { length members.now ≤ 64 }
        requires each { length inhabited.now ≡ length members.now }
        ensures { IsMachineOf inhabited.now members.now optional result }
    {
        let mut required = 0;
        let mut has_words = true;
        for (place, member) in members.iter().enumerate() {
            if member.least > 0 {
                required = with_bit(required, place as u32);
                has_words &= inhabited[place];
            }
        }
        AllMachine {
            required,
            optional,
            has_words,
        }
    }

    /// Whether each member that has to come accepts some name.
    pub fn has_words(&self) -> bool
        ensures { result ≡ self.now.has_words }
    {
        self.has_words
    }

    /// The state before the first child.
    pub fn start(&self) -> AllState
        ensures { result ≡ start_of self.now }
    {
        AllState {
            seen: 0,
            dead: !(self.optional || self.has_words),
        }
    }

    /// Whether the children that lead to the state are a word.
    pub fn accepting(&self, state: AllState) -> bool
        ensures { result ≡ accepts_at self.now state }
    {
        if state.dead {
            return false;
        }
        self.optional && state.seen == 0 || state.seen & self.required == self.required
    }
}
