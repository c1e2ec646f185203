use child_trees::{Leaf, Seqs};
use content_models::AllState;
use model_summaries::{AllMap, AllSummary};
use std::alloc::{AllocError, Global};
use std::process::Abort;
use std::test::Fail;
use xsv_steps::{Silent, Steps};

const START: AllState = AllState {
    seen: 0,
    dead: false,
};

#[test]
fn maps_of_members(rt: HostRuntime) {
    let first = AllMap::of(0);
    let both = first.then(AllMap::of(1));
    let end = both.after(START);
    assert!(rt; end.seen == 3 && !end.dead);
    assert!(rt; both.then(first).stops && both.then(first).after(START).dead);
    assert!(rt; AllMap::of(64).after(START).dead);
    assert!(rt; AllMap::unit().then(both) == both && AllMap::unit().after(end) == end);
}

/// Sees that children of these members get stuck at this place, or that those are the members that were seen.
fn compare<A: Abort>(
    rt: &A,
    alloc: Global,
    members: &[u16],
    stuck: Option<u32>,
    seen: u64,
) -> Result<(), AllocError> {
    let mut leaves = Vec::new(alloc);
    for member in members {
        leaves.push(Leaf {
            letter: Some(*member),
            element: true,
            marked: false,
        })?;
    }
    let mut lists = Seqs::new(alloc, AllSummary::new(alloc));
    let mut steps = Steps::new(Silent);
    let list = lists.build(leaves, &(), &mut steps)?;
    assert!(rt; lists.descend(list, START, &mut steps) == stuck);
    let end = lists.whole(list, START, &mut steps);
    assert!(rt; end.dead == stuck.is_some());
    assert!(rt; end.dead || end.seen == seen);
    Ok(())
}

/// 64 stands for a child that is of no member.
#[test]
fn lists_of_members(rt: HostRuntime) -> Result<(), Fail> {
    let alloc = rt.alloc();
    compare(&rt, alloc, &[], None, 0)?;
    compare(&rt, alloc, &[2, 0, 1], None, 7)?;
    compare(&rt, alloc, &[2, 0, 2, 1], Some(2), 0)?;
    compare(&rt, alloc, &[63, 64], Some(1), 0)?;
    Ok(())
}
