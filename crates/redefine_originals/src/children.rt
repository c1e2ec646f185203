ghost use Rattle.std.specs.Prelude.{◌≡◌, map, IfOk};
ghost use Rattle.std.specs.Option.{option_copied};
ghost use Rattle.redefine_originals.specs.Versions as spec;
ghost use Rattle.redefine_originals.specs.inside.Entries.{child_entry};

use crate::redefines::{children_of, inside_each, owners_of, redefines};
use crate::versions::Child;
use schema_shape::{Form, Shape};
use std::alloc::{AllocError, Global};
use xs_lists::Listed;
use xs_names::Text;

// The location of a redefine.
pub(crate) fn redefined(form: &Form) -> Option<&Text>
    ensures { option_copied result ≡ spec.redefined form.now }
{
    match form {
        Form::Redefine { location } => Some(location),
        _ => None,
    }
}

/// What stands in the redefines of a document, in document order (Structures 4.2.2).
///
/// # Errors
///
/// `AllocError` is want of memory, or of numbers: a document has less than 2 to the power of 32 redefines.
pub fn redefining(alloc: Global, shapes: &[Shape]) -> Result<Listed<Child<'_>>, AllocError>
    ensures { IfOk result (λ children. map child_entry children ≡ spec.redefining shapes.now) }
{
    let found = redefines(alloc, shapes)?;
    if found.len() > u32::MAX as usize {
        return Err(AllocError);
    }
    let owners = owners_of(alloc, found.as_slice())?;
    let inside = inside_each(alloc, shapes, &owners)?;
    let children = children_of(alloc, found.as_slice(), &inside)?;
    Ok(children)
}
