//! Codes of IDs in a record.

ghost use Rattle.std.specs.Prelude.{◌≡◌, OnOk};
ghost use Rattle.assessment.specs.Joined.{marked_record};

use assess_records::{ElementRecord, Validity};
use std::alloc::AllocError;
use xs_codes::Found;

/// Puts codes behind those of a record. An element with a code is invalid (Structures 3.3.5).
///
/// # Errors
///
/// `AllocError` is want of memory.
pub fn mark(record: &mut ElementRecord, codes: &[Found]) -> Result<(), AllocError>
    ensures { OnOk result (record.new ≡ marked_record codes.now record.old) }
{
    for code in codes {
        record.codes.push(*code)?;
        record.validity = Validity::Invalid;
    }
    Ok(())
}
