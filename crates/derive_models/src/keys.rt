//! Keys by numbers.

ghost use Rattle.std.specs.Prelude.{◌≡◌, Some, slice_get, IfOk, OnOk};
ghost use Rattle.derive_models.specs.inside.Numbered.{Grows};

use indexmap::IndexSet;
use simple_values::Key;
use std::alloc::AllocError;

/// The number of a key, which is the next number where the key was not there. Memory is wanting past 4,294,967,295.
pub(crate) fn number_in(keys: &mut IndexSet<Key>, key: Key) -> Result<u32, AllocError>
    ensures grows { OnOk result (Grows keys.old.keys keys.new.keys) }
    ensures number { IfOk result (λ n. slice_get keys.new.keys n ≡ Some key) }
{
    let (index, _) = keys.insert_full(key)?;
    if index > u32::MAX as usize {
        return Err(AllocError);
    }
    Ok(index as u32)
}
