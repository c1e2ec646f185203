//! What no clause says: how much stack is taken where a tree is let go of.
use crate::{Shared, SharedTree};
use std::alloc::{AllocError, Global};

// A tree of this leaf alone.
fn one(alloc: Global, leaf: u32) -> Result<SharedTree<u32, Shared<u32>>, AllocError> {
    let mut run = Vec::new(alloc);
    run.push(leaf)?;
    SharedTree::run(alloc, run)
}

#[test]
fn high_trees_are_let_go(rt: HostRuntime) -> Result<(), AllocError> {
    let alloc = rt.alloc();
    let mut left = one(alloc, 0)?;
    let mut right = one(alloc, 0)?;
    for level in 0..20_000u32 {
        let leaf = one(alloc, level)?;
        left = left.grouped(Shared::new(alloc, level)?)?.joined(&leaf)?;
        right = leaf.joined(&right.grouped(Shared::new(alloc, level)?)?)?;
    }
    let mut leaves = right.leaves()?;
    assert_eq!(rt; leaves.next()?.copied(), Some(19_999));
    let mut groups = left.groups()?;
    match groups.next()? {
        Some(group) => assert_eq!(rt; (group.from, group.to, *group.label.get()), (0, 1, 0)),
        None => assert!(rt; false),
    }
    Ok(())
}
