ghost use Rattle.std.specs.Prelude.{◌≡◌};
ghost use Rattle.edit_history.specs.declared.log.Taken.TheVariants.{Nothing};

use edit_history::UndoLog;
use std::test::Fail;

// Undoes a step, which is its own inverse.
fn undo(log: &mut UndoLog<u32>) -> Option<u32>
    requires { log.old.taken ≡ Nothing }
    ensures { log.new.taken ≡ Nothing }
{
    let step = log.take_undo()?;
    log.undone(step);
    Some(step)
}

// Redoes a step, which is its own inverse.
fn redo(log: &mut UndoLog<u32>) -> Option<u32>
    requires { log.old.taken ≡ Nothing }
    ensures { log.new.taken ≡ Nothing }
{
    let step = log.take_redo()?;
    log.redone(step);
    Some(step)
}

#[test]
fn steps_are_undone_and_redone(rt: HostRuntime) -> Result<(), Fail> {
    let mut log = UndoLog::new(rt.alloc(), 2)?;
    log.did(1);
    log.did(2);
    log.did(3);
    assert_eq!(rt; undo(&mut log), Some(3));
    assert_eq!(rt; undo(&mut log), Some(2));
    assert_eq!(rt; undo(&mut log), None);
    assert_eq!(rt; redo(&mut log), Some(2));
    log.did(4);
    assert_eq!(rt; redo(&mut log), None);
    assert_eq!(rt; undo(&mut log), Some(4));
    assert_eq!(rt; undo(&mut log), Some(2));
    log.clear();
    assert_eq!(rt; redo(&mut log), None);
    Ok(())
}
