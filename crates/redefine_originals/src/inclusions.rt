//! The documents that a document includes and redefines.

ghost use Rattle.std.specs.Prelude.{◌≡◌, ◌++◌, filter_map, option_to_list, IfOk, OnOk};
ghost use Rattle.std.specs.Option.{option_and_then};
ghost use Rattle.schema_set.specs.EffectiveSet.{document_at};
ghost use Rattle.schema_set.specs.Sourced.{AreSources};
ghost use Rattle.redefine_originals.specs.Versions as spec;

use schema_set::Sources;
use schema_shape::{Form, Shape};
use std::alloc::AllocError;

// The document that an element includes or redefines.
fn included(sources: &Sources<'_>, form: &Form) -> Result<Option<u32>, AllocError>
    requires sources { AreSources sources.now }
    ensures found { IfOk result (λ found. found ≡ option_and_then (document_at sources.now.available.now) (spec.included form.now)) }
{
    match form {
        Form::Include { location } => sources.find(location.as_str()),
        Form::Redefine { location } => sources.find(location.as_str()),
        _ => Ok(None),
    }
}

// Puts a document to others, if there is one.
fn put_document(found: &mut Vec<u32>, document: Option<u32>) -> Result<(), AllocError>
    ensures { OnOk result (found.new.items ≡ found.old.items ++ option_to_list document) }
{
    if let Some(document) = document {
        found.push(document)?;
    }
    Ok(())
}

/// The documents that elements include and redefine, in document order (Structures 4.2).
///
/// # Errors
///
/// `AllocError` is want of memory.
pub(crate) fn all_included(sources: &Sources<'_>, shapes: &[Shape]) -> Result<Vec<u32>, AllocError>
    requires sources { AreSources sources.now }
    ensures found { IfOk result (λ found. found.items ≡ filter_map (λ s. option_and_then (document_at sources.now.available.now) (spec.included s.form)) shapes.now) }
{
    let mut found = Vec::new(sources.alloc);
    for shape in shapes {
        let document = included(sources, &shape.form)?;
        put_document(&mut found, document)?;
    }
    Ok(found)
}
