use edit_history::{Touched, Turns};
use std::test::Fail;

// The list of a node's children.
fn list(node: u32) -> Touched {
    Touched {
        node: None,
        list: Some(node),
    }
}

#[test]
fn turns_of_others_are_seen(rt: HostRuntime) -> Result<(), Fail> {
    let mut turns = Turns::new(rt.alloc())?;
    turns.reserve()?;
    turns.note(1, 1, &list(1));
    assert_eq!(rt; turns.stale(2, 0, &list(1)), Some(1));
    assert_eq!(rt; turns.stale(2, 1, &list(1)), None);
    assert_eq!(rt; turns.stale(1, 0, &list(1)), None);
    assert_eq!(rt; turns.stale(2, 0, &list(2)), None);
    let node = Touched {
        node: Some(1),
        list: None,
    };
    assert_eq!(rt; turns.stale(2, 0, &node), None);
    Ok(())
}

#[test]
fn the_latest_turn_of_another_is_told(rt: HostRuntime) -> Result<(), Fail> {
    let mut turns = Turns::new(rt.alloc())?;
    let both = Touched {
        node: Some(5),
        list: Some(1),
    };
    turns.reserve()?;
    turns.note(1, 1, &both);
    turns.reserve()?;
    turns.note(2, 2, &list(1));
    assert_eq!(rt; turns.stale(2, 0, &both), Some(1));
    assert_eq!(rt; turns.stale(1, 0, &both), Some(2));
    assert_eq!(rt; turns.stale(3, 1, &both), Some(2));
    assert_eq!(rt; turns.stale(3, 2, &both), None);
    Ok(())
}
