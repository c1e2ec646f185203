use crate::list_held::Held;
use child_trees::{Leaf, Slots};
use std::alloc::Global;
use std::process::Abort;
use std::test::Fail;
use xsv_steps::{Silent, Steps};

const UNIT: Leaf<()> = Leaf {
    letter: None,
    element: false,
    marked: false,
};

/// Builds a list, changes it and gives it back, again and again.
fn check_slots(rt: &impl Abort, alloc: Global, held: &mut Held) -> Result<(), Fail> {
    let mut steps = Steps::new(Silent);
    for _ in 0..3u32 {
        let leaves = [UNIT; 4];
        held.build(0, Vec::from_slice(alloc, &leaves)?, &mut steps)?;
        held.remove(0, 1, &mut steps);
        held.insert(0, 2, UNIT, &mut steps)?;
        // Four leaves and three forks.
        assert_eq!(rt; held.slots(), Slots { count: 8, free: 1 });
        assert_eq!(rt; held.number(0), Some(0));
        held.close(0);
        assert_eq!(rt; held.slots(), Slots { count: 8, free: 8 });
    }
    Ok(())
}

#[test]
fn slots_that_were_given_back_serve_again(rt: HostRuntime) -> Result<(), Fail> {
    let mut held = Held::new(rt.alloc(), 1)?;
    check_slots(&rt, rt.alloc(), &mut held)
}

/// Opens a list, puts leaves in, and lists its items.
fn check_items(rt: &impl Abort, held: &mut Held) -> Result<(), Fail> {
    let mut steps = Steps::new(Silent);
    held.open(1)?;
    held.insert(1, 0, UNIT, &mut steps)?;
    let first = held.insert(1, 0, UNIT, &mut steps)?;
    assert!(rt; first.is_some() && held.at(1, 0) == first);
    let items = held.items(1).ok_or("no list")??;
    assert!(rt; items.len() == 2 && items.get(0).copied() == first);
    Ok(())
}

#[test]
fn items_are_put_in_and_listed(rt: HostRuntime) -> Result<(), Fail> {
    let mut held = Held::new(rt.alloc(), 2)?;
    check_items(&rt, &mut held)
}
