ghost use Rattle.std.specs.Prelude.{◌<◌, ◌^◌, length};

use crate::graph::{number_at, refs_at};
use crate::visiting::Visit;
use std::alloc::{AllocError, Global};
use xs_lists::Listed;

// The level of a part that has none yet.
const NO_LEVEL: u32 = u32::MAX;

// A search in depth for the sets of parts that lead to each other (path by path, as Gabow has it). Nothing is proved of
// what it finds: that no level rises is tested behind it.
#[derive(Drop)]
struct Search {
    // When each part was entered, from 1.
    entered: Vec<u32>,
    // The number of the set of each part that is in a set, by which sets are behind those that they lead to.
    levels: Vec<u32>,
    // The parts that were entered and are in no set, in the order of entering.
    path: Vec<u32>,
    // Of these the ones that are not known to lead to one before.
    firsts: Vec<u32>,
    todo: Vec<Visit>,
    clock: u32,
    level: u32,
}

// Writes the number of a part.
fn write(numbers: &mut [u32], x: u32, number: u32) {
    if (x as usize) < numbers.len() {
        numbers[x as usize] = number;
    }
}

impl Search {
    // Nothing entered, and all parts to be entered.
    fn new(alloc: Global, count: u32) -> Result<Self, AllocError> {
        let mut todo = Vec::new(alloc);
        for part in 0..count {
            todo.push(Visit {
                part,
                entered: false,
            })?;
        }
        Ok(Search {
            entered: Vec::from_elem(alloc, 0, count as usize)?,
            levels: Vec::from_elem(alloc, NO_LEVEL, count as usize)?,
            path: Vec::new(alloc),
            firsts: Vec::new(alloc),
            todo,
            clock: 0,
            level: 0,
        })
    }

    // Enters a part: what it refers to comes next, and then it is left.
    fn enter(&mut self, x: u32, refs: &[u32]) -> Result<(), AllocError> {
        self.clock = self.clock.wrapping_add(1);
        write(self.entered.as_mut_slice(), x, self.clock);
        self.path.push(x)?;
        self.firsts.push(x)?;
        self.todo.push(Visit {
            part: x,
            entered: true,
        })?;
        for y in refs {
            self.todo.push(Visit {
                part: *y,
                entered: false,
            })?;
        }
        Ok(())
    }

    // A part of the path is met again: all that were entered behind it lead to it.
    fn meet(&mut self, x: u32) -> Result<(), AllocError> {
        let when = number_at(self.entered.as_slice(), x);
        'back: while let Some(first) = self.firsts.pop() {
            if number_at(self.entered.as_slice(), first) <= when {
                self.firsts.push(first)?;
                return Ok(());
            }
        }
        Ok(())
    }

    // Leaves a part. Where it leads to none before it, it and those behind it are a set.
    fn leave(&mut self, x: u32) -> Result<(), AllocError> {
        let Some(first) = self.firsts.pop() else {
            return Ok(());
        };
        if first != x {
            self.firsts.push(first)?;
            return Ok(());
        }
        'set: while let Some(y) = self.path.pop() {
            write(self.levels.as_mut_slice(), y, self.level);
            if y == x {
                break;
            }
        }
        self.level = self.level.wrapping_add(1);
        Ok(())
    }

    fn visit(&mut self, refs: &[Listed<u32>], v: Visit) -> Result<(), AllocError> {
        if v.entered {
            return self.leave(v.part);
        }
        if number_at(self.levels.as_slice(), v.part) != NO_LEVEL {
            return Ok(());
        }
        if number_at(self.entered.as_slice(), v.part) != 0 {
            return self.meet(v.part);
        }
        if (v.part as usize) < refs.len() {
            return self.enter(v.part, refs_at(refs, v.part as usize));
        }
        Ok(())
    }
}

// How often something is to be visited: each part from the start, once to be left, and by each reference.
fn visits(refs: &[Listed<u32>]) -> usize {
    let mut count = 0usize;
    for row in refs {
        count = count.saturating_add(row.as_slice().len()).saturating_add(2);
    }
    count
}

// The levels of parts by the sets of those that lead to each other.
pub(crate) fn set_levels(alloc: Global, refs: &[Listed<u32>]) -> Result<Vec<u32>, AllocError>
    requires few { length refs.now < 2 ^ 32 }
{
    let mut search = Search::new(alloc, refs.len() as u32)?;
    'visit: for _ in 0..visits(refs) {
        let Some(v) = search.todo.pop() else {
            break;
        };
        search.visit(refs, v)?;
    }
    Ok(search.levels)
}
