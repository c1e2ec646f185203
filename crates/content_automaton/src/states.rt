//! The states and the steps between them.

ghost use Rattle.std.specs.Prelude.{◌≡◌, ℕ, ◌+◌, ◌*◌, ◌<◌, ◌≤◌, map, length, All, IfOk, IfErr, OnOk};
ghost use Rattle.std.specs.List.Sorted.{IsStrictlyIncreasing};
ghost use Rattle.content_automaton.specs.Moves.{IsWithin};
ghost use Rattle.content_automaton.specs.Built.{AreStates, AreTooMany, AreSteps};
ghost use Rattle.content_automaton.specs.Outcome.{WhereTooMany};

use crate::numbers::States;
use crate::sets::{coming, no_sets, sort_out};
use crate::stop::Stop;
use particle_models::Unrolled;
use std::alloc::Global;
use xs_lists::Listed;

/// States, each with its set of positions, and steps. The set of the start is left empty.
#[derive(Drop)]
pub(crate) struct Found {
    pub(crate) states: States,
    pub(crate) cells: Vec<u16>,
}

/// The states and the steps between them.
pub(crate) fn find_states(
    alloc: Global,
    form: &Unrolled,
    accepted: &[Listed<u32>],
    symbols: u32,
) -> Result<Found, Stop>
    requires within { IsWithin form.now.table }
    requires rises { All IsStrictlyIncreasing accepted.now }
    requires below { All (All (λ n. n < symbols)) accepted.now }
    ensures states { IfOk result (λ found. AreStates form.now.table accepted.now symbols (map (λ state. state.items) found.states.sets.keys)) }
    ensures few { IfOk result (λ found. length found.states.sets.keys ≤ 2048) }
    ensures steps { IfOk result (λ found. AreSteps form.now.table accepted.now symbols (map (λ state. state.items) found.states.sets.keys) found.cells.items) }
    ensures cells { IfOk result (λ found. length found.cells.items ≡ length found.states.sets.keys * symbols) }
    ensures too_many { IfErr result (λ stop. WhereTooMany stop (AreTooMany form.now.table accepted.now symbols)) }
{
    let mut states = States::of_start(alloc, form.count())?;
    let mut sets = no_sets(alloc, symbols)?;
    let mut cells = Vec::new(alloc);
    let mut state = 0;
    while state < states.sets.len() {
        add_row(
            alloc,
            form,
            accepted,
            symbols,
            &mut sets,
            &mut states,
            &mut cells,
            state,
        )?;
        state += 1;
    }
    Ok(Found { states, cells })
}

/// Adds the steps from a state, and the states that they lead to. The sets, one for each symbol, lend their memory.
fn add_row(
    alloc: Global,
    form: &Unrolled,
    accepted: &[Listed<u32>],
    symbols: u32,
    sets: &mut Vec<Vec<u32>>,
    states: &mut States,
    cells: &mut Vec<u16>,
    state: usize,
) -> Result<(), Stop>
    requires within { IsWithin form.now.table }
    requires rises { All IsStrictlyIncreasing accepted.now }
    requires below { All (All (λ n. n < symbols)) accepted.now }
    requires sets { length sets.old.items ≡ symbols }
    requires states { AreStates form.now.table accepted.now symbols (map (λ state. state.items) states.old.sets.keys) }
    requires few { length states.old.sets.keys ≤ 2048 }
    requires state { state < length states.old.sets.keys }
    requires steps { AreSteps form.now.table accepted.now symbols (map (λ state. state.items) states.old.sets.keys) cells.old.items }
    requires cells { length cells.old.items ≡ state * symbols }
    ensures sets { OnOk result (length sets.new.items ≡ symbols) }
    ensures states { OnOk result (AreStates form.now.table accepted.now symbols (map (λ state. state.items) states.new.sets.keys)) }
    ensures few { OnOk result (length states.new.sets.keys ≤ 2048) }
    ensures more { OnOk result (length states.old.sets.keys ≤ length states.new.sets.keys) }
    ensures steps { OnOk result (AreSteps form.now.table accepted.now symbols (map (λ state. state.items) states.new.sets.keys) cells.new.items) }
    ensures cells { OnOk result (length cells.new.items ≡ (state + 1) * symbols) }
    ensures too_many { IfErr result (λ stop. WhereTooMany stop (AreTooMany form.now.table accepted.now symbols)) }
{
    let next = coming(alloc, form, &states.sets.as_slice()[state], state == 0)?;
    sort_out(form, accepted, &next, sets)?;
    let all = sets.as_slice();
    for set in all {
        match states.number_in(set) {
            Ok(to) => cells.push(to)?,
            Err(stop) => return Err(stop),
        }
    }
    Ok(())
}
