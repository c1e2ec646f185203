//! The law that logs of steps lead through histories.

ghost use Rattle.std.specs.Prelude.{◌≡◌, ℕ, [], slice_get, None, Some, MatchOption};
ghost use Rattle.circular_buffer.specs.Buffer.{last_item};
ghost use Rattle.edit_history.specs.Log.{Log, log_of, noted, with_undo_taken, with_undo_answered, with_redo_taken, with_redo_answered};
ghost use Rattle.edit_history.specs.History.{History, opened, edited, undone, redone, IsLogOf};
ghost use Rattle.edit_history.specs.declared.log.Taken.TheVariants.{Nothing};

/// What steps lead from and to.
pub trait Step<D> {
    /// Made of the first document, the step gives the second.
    ghost leads: { Self → D → D → Type 0 };
}

/// A log that leads through a history goes on to do so: through an edit, noted by the inverse of its change, which leads back; and
/// through an undo and a redo, where the step that the log gives is made and answered by its inverse.
pub fn logs_lead_through_histories<D, S: Step<D>>()
    ensures opened { (depth : ℕ) (d : D) → IsLogOf S.leads (log_of depth [] [] Nothing) (opened d) }
    ensures edited { (log : Log S) (h : History D) (d : D) (inverse : S) → IsLogOf S.leads log h → S.leads inverse d h.present
        → IsLogOf S.leads (noted log inverse) (edited log.depth h d) }
    ensures undone { (log : Log S) (h : History D) → IsLogOf S.leads log h → MatchOption (last_item log.past) (undone h ≡ None)
        (λ step. (g : History D) × (undone h ≡ Some g) × S.leads step h.present g.present
        × ((inverse : S) → S.leads inverse g.present h.present → IsLogOf S.leads (with_undo_answered (with_undo_taken log) inverse) g)) }
    ensures redone { (log : Log S) (h : History D) → IsLogOf S.leads log h → MatchOption (slice_get log.future 0) (redone h ≡ None)
        (λ step. (g : History D) × (redone h ≡ Some g) × S.leads step h.present g.present
        × ((inverse : S) → S.leads inverse g.present h.present → IsLogOf S.leads (with_redo_answered (with_redo_taken log) inverse) g)) }
{}
