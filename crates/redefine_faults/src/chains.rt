ghost use Rattle.std.specs.Prelude.{◌≡◌, ◌↔◌, true, IfOk};
ghost use Rattle.std.specs.Option.{option_map};
ghost use Rattle.redefine_originals.specs.Indexed.{AreIndexed};
ghost use Rattle.redefine_originals.specs.inside.Entries.{version_entry};
ghost use Rattle.redefine_faults.specs.Redefinitions as spec;
ghost use Rattle.redefine_faults.specs.inside.Chains as inside;

use redefine_originals::{Originals, Version, declared_as};
use std::alloc::AllocError;

// The original of a version that stands in a redefine.
fn next_of<'a>(
    originals: &Originals<'a>,
    version: Version<'a>,
) -> Result<Option<Version<'a>>, AllocError>
    requires originals { AreIndexed originals.now }
    ensures { IfOk result (λ found. inside.IsNext originals.now.sources.available.now (version_entry version.entry) (option_map version_entry found)) }
{
    let Some(location) = version.location else {
        return Ok(None);
    };
    let Some(declared) = declared_as(&version.shape.form) else {
        return Ok(None);
    };
    let found = originals.original(location.as_str(), declared.kind, declared.name.as_str())?;
    Ok(found)
}

// Whether these are the same element of the same document.
fn is_same_version(one: Version<'_>, other: Version<'_>) -> bool
    ensures { result ≡ spec.is_same_version (version_entry one.entry) (version_entry other.entry) }
{
    one.document == other.document && one.shape.item == other.shape.item
}

// Whether the chain of the originals of a version comes back to it.
pub(crate) fn comes_back<'a>(
    originals: &Originals<'a>,
    start: Version<'a>,
) -> Result<bool, AllocError>
    requires originals { AreIndexed originals.now }
    ensures { IfOk result (λ back. (back ≡ true) ↔ inside.ComesBack originals.now.sources.available.now (version_entry start.entry)) }
{
    let mut marks = Vec::from_elem(
        originals.sources.alloc,
        false,
        originals.sources.available.len(),
    )?;
    let mut last = start;
    while let Some(original) = next_of(originals, last)? {
        if is_same_version(original, start) {
            return Ok(true);
        }
        let place = original.document as usize - 1;
        if marks[place] {
            return Ok(false);
        }
        marks[place] = true;
        last = original;
    }
    Ok(false)
}
