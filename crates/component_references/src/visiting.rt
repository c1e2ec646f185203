ghost use Rattle.std.specs.Prelude.{◌≡◌, ◌∷◌, ◌++◌, [], ◌<◌, ◌^◌, ℕ, true, false, map, length, vec_len, IfOk, MatchOption, OnOk};
ghost use Rattle.component_references.specs.NumberedCircles as spec;
ghost use Rattle.component_references.specs.NumberedCircles.{IsWithin, Leads, HasCircle, IsRanking};
ghost use Rattle.component_references.specs.inside.Orders.{IsInOrder};
ghost use Rattle.component_references.specs.inside.Visits.{IsVisit, Steps, ArePlaced, waiting};

use crate::graph::{number_at, refs_at};
use std::alloc::{AllocError, Global};
use xs_lists::Listed;

// How far a part has come.
#[derive(Clone, Copy)]
enum State {
    New,
    Open,
    Done,
}

// A part to be visited, or to be left where what it refers to was visited.
#[derive(Clone, Copy)]
pub(crate) struct Visit {
    pub(crate) part: u32,
    pub(crate) entered: bool,
}

// Puts parts to what is to be visited.
fn wait_for(refs: &[u32], todo: &mut Vec<Visit>) -> Result<(), AllocError>
    ensures { OnOk result (todo.new.items ≡ todo.old.items ++ map waiting refs.now) }
{
    for y in refs {
        todo.push(Visit {
            part: *y,
            entered: false,
        })?;
    }
    Ok(())
}

// One visit. Answers whether no circle was found.
fn step(
    refs: &[Listed<u32>],
    states: &mut [State],
    order: &mut Vec<u32>,
    todo: &mut Vec<Visit>,
    v: Visit,
) -> Result<bool, AllocError>
    requires within { IsWithin refs.now }
    requires visit { IsVisit refs.now states.old order.old.items (todo.old.items ++ v ∷ []) }
    ensures circle { IfOk result (λ go. go ≡ false → Leads refs.now v.part v.part) }
    ensures steps { IfOk result (λ go. go ≡ true → Steps refs.now states.old (todo.old.items ++ v ∷ []) states.new order.new.items todo.new.items) }
{
    if v.entered {
        order.push(v.part)?;
        states[v.part as usize] = State::Done;
        return Ok(true);
    }
    match states[v.part as usize] {
        State::Done => Ok(true),
        State::Open => Ok(false),
        State::New => {
            states[v.part as usize] = State::Open;
            todo.push(Visit {
                part: v.part,
                entered: true,
            })?;
            wait_for(refs_at(refs, v.part as usize), todo)?;
            Ok(true)
        },
    }
}

// All parts, to be visited.
fn all_waiting(alloc: Global, count: u32) -> Result<Vec<Visit>, AllocError>
    ensures { IfOk result (λ todo. ArePlaced count todo.items) }
{
    let mut todo = Vec::new(alloc);
    for x in 0..count {
        todo.push(Visit {
            part: x,
            entered: false,
        })?;
    }
    Ok(todo)
}

// All parts, each behind those that it refers to; `None` where a part comes back to itself.
fn in_order(alloc: Global, refs: &[Listed<u32>]) -> Result<Option<Vec<u32>>, AllocError>
    requires few { length refs.now < 2 ^ 32 }
    requires within { IsWithin refs.now }
    ensures { IfOk result (λ found. MatchOption found (HasCircle refs.now) (λ order. IsInOrder refs.now order.items)) }
{
    let mut states = Vec::from_elem(alloc, State::New, refs.len())?;
    let mut order = Vec::new(alloc);
    let mut todo = all_waiting(alloc, refs.len() as u32)?;
    while let Some(v) = todo.pop() {
        let go = step(refs, states.as_mut_slice(), &mut order, &mut todo, v)?;
        if !go {
            return Ok(None);
        }
    }
    Ok(Some(order))
}

// The least rank above those of some parts. Ranks end where memory does.
fn rank_above(ranks: &[u32], parts: &[u32]) -> Result<u32, AllocError>
    ensures above { IfOk result (λ rank. rank ≡ spec.rank_above ranks.now parts.now) }
{
    let mut least = 0u32;
    for x in parts {
        match number_at(ranks, *x).checked_add(1) {
            Some(above) => least = least.max(above),
            None => return Err(AllocError),
        }
    }
    Ok(least)
}

// The height of each part, where each stands behind those that it refers to.
fn heights_of(alloc: Global, refs: &[Listed<u32>], order: &[u32]) -> Result<Vec<u32>, AllocError>
    requires order { IsInOrder refs.now order.now }
    ensures len { IfOk result (λ ranks. vec_len ranks ≡ length refs.now) }
    ensures heights { IfOk result (λ ranks. spec.AreHeights refs.now ranks.items) }
{
    let mut ranks = Vec::from_elem(alloc, 0u32, refs.len())?;
    for x in order {
        let rank = rank_above(ranks.as_slice(), refs_at(refs, *x as usize))?;
        ranks[*x as usize] = rank;
    }
    Ok(ranks)
}

/// The height of each part above those that it refers to: ranks that fall along all references. `None` where some part comes
/// back to itself.
pub fn ranks(alloc: Global, refs: &[Listed<u32>]) -> Result<Option<Vec<u32>>, AllocError>
    requires few { length refs.now < 2 ^ 32 }
    requires within { IsWithin refs.now }
    ensures ranks { IfOk result (λ found. MatchOption found (HasCircle refs.now) (λ ranks. IsRanking refs.now ranks.items)) }
{
    let Some(order) = in_order(alloc, refs)? else {
        return Ok(None);
    };
    Ok(Some(heights_of(alloc, refs, order.as_slice())?))
}
