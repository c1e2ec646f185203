ghost use Rattle.std.specs.Prelude.{◌≡◌, IfOk};
ghost use Rattle.build_components.specs.Paths as spec;

use build_types::{rep_at, scope_at};
use representations::{Representation, Represented, Source};
use std::alloc::{AllocError, Global};
use xs_components::{PathText, PathTextList};
use xs_lists::Listed;
use xs_names::Text;

// A path that is written in an element.
fn path_of(
    alloc: Global,
    source: &Source,
    rep: &Representation,
    path: &Text,
) -> Result<PathText, AllocError>
    ensures { IfOk result (λ found. found ≡ spec.path_of source.now rep.now path.now) }
{
    Ok(PathText {
        text: path.try_clone()?,
        at: rep.at,
        scope: scope_at(alloc, source.scopes, rep.scope)?,
    })
}

// The path of the selector at a place, if one stands there.
fn selector_at(alloc: Global, source: &Source, place: u32) -> Result<Option<PathText>, AllocError>
    ensures { IfOk result (λ found. found ≡ spec.selector_at source.now place) }
{
    match rep_at(source.reps, place) {
        None => Ok(None),
        Some(rep) => match &rep.form {
            Represented::Selector { path } => Ok(Some(path_of(alloc, source, rep, path)?)),
            _ => Ok(None),
        },
    }
}

/// The path of the first selector among members.
///
/// # Errors
///
/// `AllocError` is want of memory, here and below.
pub(crate) fn selector(
    alloc: Global,
    source: &Source,
    members: &[u32],
) -> Result<Option<PathText>, AllocError>
    ensures { IfOk result (λ found. found ≡ spec.selector source.now members.now) }
{
    for member in members {
        let found = selector_at(alloc, source, *member)?;
        if found.is_some() {
            return Ok(found);
        }
    }
    Ok(None)
}

// The path of the field at a place, if one stands there.
fn field_at(alloc: Global, source: &Source, place: u32) -> Result<Option<PathText>, AllocError>
    ensures { IfOk result (λ found. found ≡ spec.field_at source.now place) }
{
    match rep_at(source.reps, place) {
        None => Ok(None),
        Some(rep) => match &rep.form {
            Represented::Field { path } => Ok(Some(path_of(alloc, source, rep, path)?)),
            _ => Ok(None),
        },
    }
}

/// The paths of the fields among members, in order.
pub(crate) fn fields(
    alloc: Global,
    source: &Source,
    members: &[u32],
) -> Result<PathTextList, AllocError>
    ensures { IfOk result (λ list. list ≡ spec.fields source.now members.now) }
{
    let mut list = Listed::new(alloc);
    for member in members {
        if let Some(field) = field_at(alloc, source, *member)? {
            list.push(field)?;
        }
    }
    Ok(list)
}
