//! States by their sets of positions.

ghost use Rattle.std.specs.Prelude.{◌≡◌, ◌≢◌, ◌<◌, ◌≤◌, [], ◌∷◌, map, length, IsTrue, IfOk, IfErr, IfSome};
ghost use Rattle.content_automaton.specs.Built.{set_of, IsNew, IsNumbered};
ghost use Rattle.content_automaton.specs.Outcome.{WhereTooMany};

use crate::stop::Stop;
use indexmap::IndexSet;
use std::alloc::{AllocError, Global};

/// How many states a model may have.
const MOST_STATES: usize = 2_048;

/// Where no word goes on: past every state.
const DEAD: u16 = u16::MAX;

/// States by their sets. `latest` has for each position the state that was found last of those whose sets begin with it, which
/// is mostly the one that is asked for next.
#[derive(Drop)]
pub(crate) struct States {
    pub(crate) sets: IndexSet<Vec<u32>>,
    latest: Vec<u16>,
}

impl States {
    /// The start alone, whose set is left empty, of a model with so many positions.
    pub(crate) fn of_start(alloc: Global, positions: u32) -> Result<States, AllocError>
        ensures { IfOk result (λ states. map (λ state. state.items) states.sets.keys ≡ [] ∷ []) }
    {
        let mut sets = IndexSet::new(alloc);
        sets.insert(Vec::new(alloc))?;
        let latest = vec![in alloc; DEAD; positions as usize]?;
        Ok(States { sets, latest })
    }

    /// The number of the state with this set, which is a new one where there was none.
    pub(crate) fn number_in(&mut self, set: &Vec<u32>) -> Result<u16, Stop>
        requires some { 0 < length self.old.sets.keys }
        requires few { length self.old.sets.keys ≤ 2048 }
        requires start { set_of (map (λ state. state.items) self.old.sets.keys) 0 ≡ [] }
        ensures ok { IfOk result (λ to. IsNumbered (map (λ state. state.items) self.old.sets.keys) (map (λ state. state.items) self.new.sets.keys) set.now.items to) }
        ensures too_many { IfErr result (λ stop. WhereTooMany stop (IsNew (map (λ state. state.items) self.old.sets.keys) set.now.items)) }
        ensures full { IfErr result (λ stop. WhereTooMany stop (length self.old.sets.keys ≡ 2048)) }
    {
        if set.is_empty() {
            return Ok(DEAD);
        }
        let place = set[0] as usize;
        if let Some(number) = self.latest_with(place, set) {
            return Ok(number);
        }
        let number = look_up(&mut self.sets, set)?;
        if place < self.latest.len() {
            self.latest[place] = number;
        }
        Ok(number)
    }

    /// The state that was found last of those whose sets begin with the position, where its set is this one.
    fn latest_with(&self, place: usize, set: &[u32]) -> Option<u16>
        ensures { IfSome result (λ number. (number < length self.now.sets.keys) × (set_of (map (λ state. state.items) self.now.sets.keys) number ≡ set.now)) }
    {
        let number = *self.latest.get(place)?;
        if is_at(self.sets.as_slice(), number, set) {
            Some(number)
        } else {
            None
        }
    }
}

/// Whether the state of this number has the set.
fn is_at(states: &[Vec<u32>], number: u16, set: &[u32]) -> bool
    ensures { IsTrue result → (number < length states.now) × (set_of (map (λ state. state.items) states.now) number ≡ set.now) }
{
    match states.get(number as usize) {
        Some(state) => state.as_slice() == set,
        None => false,
    }
}

/// The number of the state with this set, which is not empty; a new one where there was none.
fn look_up(states: &mut IndexSet<Vec<u32>>, set: &Vec<u32>) -> Result<u16, Stop>
    requires filled { set.now.items ≢ [] }
    requires some { 0 < length states.old.keys }
    requires few { length states.old.keys ≤ 2048 }
    requires start { set_of (map (λ state. state.items) states.old.keys) 0 ≡ [] }
    ensures ok { IfOk result (λ to. IsNumbered (map (λ state. state.items) states.old.keys) (map (λ state. state.items) states.new.keys) set.now.items to) }
    ensures too_many { IfErr result (λ stop. WhereTooMany stop (IsNew (map (λ state. state.items) states.old.keys) set.now.items)) }
    ensures full { IfErr result (λ stop. WhereTooMany stop (length states.old.keys ≡ 2048)) }
{
    if let Some(number) = states.get_index_of(set) {
        return Ok(number as u16);
    }
    let number = states.len();
    if number == MOST_STATES {
        return Err(Stop::TooManyStates);
    }
    states.insert(set.clone()?)?;
    Ok(number as u16)
}
