//! The paths of an identity constraint, read one by one.

ghost use Rattle.std.specs.Prelude.{◌≡◌, IfOk};
ghost use Rattle.xpath_subset.specs.Grammar.{IsSelector, IsField, IsReading, paths_meaning};
ghost use Rattle.xs_codes.specs.declared.code.Code.TheVariants.{CSelectorXpath, CFieldsXpaths};
ghost use Rattle.xs_components.specs.declared.constraint.PathText.{PathText as PathTextData};
ghost use Rattle.xpath_subset.specs.Faults as spec;
ghost use Rattle.xpath_subset.specs.inside.Reading.{IsPathRead, AreFieldsRead};

use crate::{Paths, XPathFault, read_field, read_selector};
use std::alloc::{AllocError, Global};
use xs_codes::{Code, Fault, sooner};
use xs_components::{PathText, Place};
use xs_lists::Listed;

// The phase of compiling that looks at identity constraints.
const PHASE: u8 = 10;

/// The fault of a path, or without one what it is read as.
#[derive(Drop)]
pub(crate) struct PathReading {
    pub fault: Option<Fault>,
    pub paths: Paths,
}

/// The least fault of the fields of a constraint, or without one what they are read as.
#[derive(Drop)]
pub(crate) struct FieldsReading {
    pub fault: Option<Fault>,
    pub paths: Listed<Paths>,
}

/// The fault of the element at a place.
pub(crate) fn fault_at(at: Place, code: Code) -> Fault
    ensures { result ≡ spec.fault_at at code }
{
    Fault {
        phase: PHASE,
        document: at.document,
        item: at.item,
        code,
    }
}

// What a path comes to that is read so.
fn reading_of(
    alloc: Global,
    path: &PathText,
    read: Result<Paths, XPathFault>,
    code: Code,
) -> PathReading
    ensures selector { IsReading (IsSelector path.now.text) (paths_meaning path.now.scope) read → IsPathRead IsSelector code path.now result }
    ensures field { IsReading (IsField path.now.text) (paths_meaning path.now.scope) read → IsPathRead IsField code path.now result }
{
    match read {
        Ok(paths) => PathReading { fault: None, paths },
        Err(_) => PathReading {
            fault: Some(fault_at(path.at, code)),
            paths: Listed::new(alloc),
        },
    }
}

/// Reads the path of a selector.
pub(crate) fn selector_reading(alloc: Global, path: &PathText) -> Result<PathReading, AllocError>
    ensures { IfOk result (IsPathRead IsSelector CSelectorXpath path.now) }
{
    let read = read_selector(alloc, path.text.as_str(), &path.scope)?;
    Ok(reading_of(alloc, path, read, Code::CSelectorXpath))
}

// Reads the path of a field.
fn field_reading(alloc: Global, path: &PathText) -> Result<PathReading, AllocError>
    ensures { IfOk result (IsPathRead IsField CFieldsXpaths path.now) }
{
    let read = read_field(alloc, path.text.as_str(), &path.scope)?;
    Ok(reading_of(alloc, path, read, Code::CFieldsXpaths))
}

/// Reads the paths of fields.
pub(crate) fn fields_reading(
    alloc: Global,
    fields: &[PathText],
) -> Result<FieldsReading, AllocError>
    ensures { IfOk result (AreFieldsRead fields.now) }
{
    let mut fault = None;
    let mut paths = Listed::new(alloc);
    for field in fields {
        let PathReading {
            fault: found,
            paths: read,
        } = field_reading(alloc, field)?;
        fault = sooner(fault, found);
        paths.push(read)?;
    }
    Ok(FieldsReading { fault, paths })
}
