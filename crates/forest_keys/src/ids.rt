//! The codes of a document's IDs, put to its root.

ghost use Rattle.std.specs.Prelude.{◌≡◌, IfOk, OnOk};
ghost use Rattle.forest_keys.specs.inside.Marking.{codes_in, with_marks};

use assessment::mark;
use identity_tables::DocumentIds;
use std::alloc::{AllocError, Global};
use tree_assess::ElementEntry;
use xs_codes::Found;
use xs_lists::Listed;

/// The codes of the IDs in the texts of these elements (Structures 3.3.4).
pub(crate) fn id_codes(alloc: Global, entries: &[ElementEntry]) -> Result<Listed<Found>, AllocError>
    ensures { IfOk result (λ codes. codes ≡ codes_in entries.now) }
{
    let mut ids = DocumentIds::new(alloc)?;
    for entry in entries {
        ids.add_value(entry.bearer, &entry.value)?;
        ids.add_values(entry.number, entry.attr_values.as_slice())?;
    }
    ids.codes(alloc)
}

/// Puts codes behind those of the first entry.
pub(crate) fn mark_first(entries: &mut [ElementEntry], codes: &[Found]) -> Result<(), AllocError>
    ensures { OnOk result (entries.new ≡ with_marks codes.now entries.old) }
{
    if entries.is_empty() {
        return Ok(());
    }
    mark(&mut entries[0].element, codes)
}
