use crate::held::Held;
use std::alloc::AllocError;
use std::process::Abort;
use xsv_steps::{Steps, Tally};

/// Writes the numbers into a slot's row.
fn write(held: &mut Held, slot: usize, numbers: &[u16]) {
    let mut at = 0;
    for number in numbers {
        held.set(slot, at, *number);
        at = at.saturating_add(1);
    }
}

/// Whether a slot's row begins with these numbers.
fn reads(held: &Held, slot: usize, numbers: &[u16]) -> bool {
    let mut at = 0;
    for number in numbers {
        if held.get(slot, at) != Some(*number) {
            return false;
        }
        at = at.saturating_add(1);
    }
    true
}

/// Takes a row into each of the first three slots.
fn fill(held: &mut Held) -> Result<(), AllocError> {
    held.take(0)?;
    held.take(1)?;
    held.take(2)
}

/// The first map is applied first.
fn check_maps(rt: &impl Abort, held: &mut Held) -> Result<(), AllocError> {
    fill(held)?;
    let mut steps = Steps::new(Tally { count: 0 });
    write(held, 0, &[1, 1, 2, 3]);
    write(held, 1, &[0, 3, 3, 2]);
    held.identity(2);
    assert!(rt; reads(held, 2, &[0, 1, 2, 3]));
    held.compose(0, 1, 2, &mut steps);
    assert!(rt; reads(held, 2, &[3, 3, 3, 2]) && reads(held, 0, &[1, 1, 2, 3]));
    assert!(rt; held.apply(2, 3, &mut steps) == Some(2) && steps.ledger().count == 2);
    held.zero(2);
    assert!(rt; reads(held, 2, &[0, 0, 0, 0]));
    Ok(())
}

#[test]
fn maps_are_composed(rt: HostRuntime) -> Result<(), AllocError> {
    let mut held = Held::maps(rt.alloc(), 3, 4)?;
    check_maps(&rt, &mut held)
}

/// Sums are cut off at the cap, 1,001; a row that was given back is taken again, and no other.
fn check_counts(rt: &impl Abort, held: &mut Held) -> Result<(), AllocError> {
    fill(held)?;
    let mut steps = Steps::new(Tally { count: 0 });
    write(held, 0, &[1000, 1000, 0, 500]);
    write(held, 1, &[1, 2, 7, 501]);
    held.add(0, 1, 2, &mut steps);
    assert!(rt; reads(held, 2, &[1001, 1001, 7, 1001]) && steps.ledger().count == 1);
    let given = held.number(1);
    held.give(1);
    assert!(rt; held.get(1, 0).is_none() && reads(held, 0, &[1000, 1000, 0, 500]));
    held.take(1)?;
    assert!(rt; held.number(1) == given && given.is_some());
    Ok(())
}

#[test]
fn counts_are_added_and_rows_given_back(rt: HostRuntime) -> Result<(), AllocError> {
    let mut held = Held::counts(rt.alloc(), 3, 4, 1001)?;
    check_counts(&rt, &mut held)
}
