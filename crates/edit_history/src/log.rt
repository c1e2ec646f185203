ghost use Rattle.std.specs.Prelude.{◌≡◌, [], slice_get, IfOk, IfNone, IsSome};
ghost use Rattle.circular_buffer.specs.Buffer.{last_item};
ghost use Rattle.edit_history.specs.declared.log.Taken.TheVariants.{Nothing, Undo, Redo};

use circular_buffer::HeapCircularBuffer;
use std::alloc::{AllocError, Global};
use std::marker::Model;

/// What was taken off a log and is not answered yet.
#[derive(Clone, Copy)]
pub enum Taken {
    Nothing,
    Undo,
    Redo,
}

/// The steps that lead back to the states before, the last of them to the one right before, and the steps that lead on again, the
/// first of them first. Contracts see the two lists, how many steps are kept at most, and what was taken and is not answered.
///
/// A step is the inverse of a change, with whatever is to be known where it is made. No call but `new` takes memory.
#[derive(Drop)]
pub struct UndoLog<S: Drop> {
    past: HeapCircularBuffer<S>,
    future: HeapCircularBuffer<S>,
    taken: Taken,
}

impl<S: Drop> Model for UndoLog<S> {
    ghost use Rattle.edit_history.specs.Log.{Log, log_of, FitsDepth};

    ghost Value = { Log S };

    ghost view = { λ log. log_of log.past.capacity log.past.items log.future.items log.taken };

    ghost invariant = { λ log. FitsDepth log.past.capacity log.future.capacity log.past.items log.future.items log.taken };
}

impl<S: Drop> UndoLog<S> {
    ghost use Rattle.edit_history.specs.Log.{log_of, noted, with_undo_taken, with_undo_answered, with_redo_taken, with_redo_answered, cleared};

    /// A log without steps, which keeps at most `depth`.
    pub fn new(alloc: Global, depth: u32) -> Result<Self, AllocError>
        ensures { IfOk result (λ log. log ≡ log_of depth [] [] Nothing) }
    {
        let past = HeapCircularBuffer::with_capacity(alloc, depth as usize)?;
        let future = HeapCircularBuffer::with_capacity(alloc, depth as usize)?;
        Ok(UndoLog {
            past,
            future,
            taken: Taken::Nothing,
        })
    }

    /// Notes that a change was made, by its inverse. The oldest step is dropped where there are more than are kept, and nothing
    /// is left to be redone.
    pub fn did(&mut self, inverse: S)
        requires { self.old.taken ≡ Nothing }
        ensures { self.new ≡ noted self.old inverse }
    {
        self.past.push_back(inverse);
        self.future.clear();
    }

    /// Takes the step that leads to the state right before, to be answered by `undone`. `None` where there is none.
    pub fn take_undo(&mut self) -> Option<S>
        requires { self.old.taken ≡ Nothing }
        ensures step { result ≡ last_item self.old.past }
        ensures some { IsSome result → self.new ≡ with_undo_taken self.old }
        ensures none { IfNone result (self.new ≡ self.old) }
    {
        let step = self.past.pop_back()?;
        self.taken = Taken::Undo;
        Some(step)
    }

    /// Notes that the step of `take_undo` was made, by its own inverse, which leads on again.
    pub fn undone(&mut self, inverse: S)
        requires { self.old.taken ≡ Undo }
        ensures { self.new ≡ with_undo_answered self.old inverse }
    {
        self.future.push_front(inverse);
        self.taken = Taken::Nothing;
    }

    /// Takes the step that leads on to the state that was undone last, to be answered by `redone`. `None` where there is none.
    pub fn take_redo(&mut self) -> Option<S>
        requires { self.old.taken ≡ Nothing }
        ensures step { result ≡ slice_get self.old.future 0 }
        ensures some { IsSome result → self.new ≡ with_redo_taken self.old }
        ensures none { IfNone result (self.new ≡ self.old) }
    {
        let step = self.future.pop_front()?;
        self.taken = Taken::Redo;
        Some(step)
    }

    /// Notes that the step of `take_redo` was made, by its own inverse, which leads back again.
    pub fn redone(&mut self, inverse: S)
        requires { self.old.taken ≡ Redo }
        ensures { self.new ≡ with_redo_answered self.old inverse }
    {
        self.past.push_back(inverse);
        self.taken = Taken::Nothing;
    }

    /// Drops all steps. What was taken is not to be answered any more.
    pub fn clear(&mut self)
        ensures { self.new ≡ cleared self.old }
    {
        self.past.clear();
        self.future.clear();
        self.taken = Taken::Nothing;
    }
}
