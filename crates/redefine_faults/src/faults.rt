ghost use Rattle.std.specs.Prelude.{◌≡◌, ◌<◌, ◌^◌, ℕ, Contains, map, length, All, IfOk};
ghost use Rattle.std.specs.Option.{option_map};
ghost use Rattle.std.specs.List.Sorted.{IsPermutation};
ghost use Rattle.xs_codes.specs.Least.{IsLeast};
ghost use Rattle.schema_set.specs.EffectiveSet.{IsEffectiveSet};
ghost use Rattle.redefine_originals.specs.Versions as versions;
ghost use Rattle.redefine_originals.specs.Indexed.{AreIndexed};
ghost use Rattle.redefine_originals.specs.inside.Entries.{child_entry, version_entry};
ghost use Rattle.redefine_faults.specs.Redefinitions as spec;
ghost use Rattle.redefine_faults.specs.inside.Broken as inside;

use crate::chains::comes_back;
use crate::numbered::Numbered;
use crate::own::own_code;
use redefine_originals::{Child, Declared, Originals, Version, declared_as, redefining};
use schema_set::{Available, SetDocument, Sources};
use std::alloc::{AllocError, Global};
use xs_codes::{Code, Fault, sooner};

// The phase of compiling that judges how schema documents are composed.
const PHASE: u8 = 2;

// So many documents have numbers.
const MOST: usize = 65535;

// A redefining child as a version of what it redefines.
fn version_of<'a>(document: u32, child: Child<'a>) -> Version<'a>
    ensures { version_entry result ≡ versions.in_redefine document (child_entry child.entry) }
{
    Version {
        document,
        location: Some(child.location),
        shape: child.shape,
    }
}

// The first code that what redefines a component of this kind and name breaks in a document of a set.
fn declared_code<'a>(
    originals: &Originals<'a>,
    document: &SetDocument<'a>,
    numbered: &Numbered<'_>,
    child: Child<'a>,
    declared: Declared<'a>,
) -> Result<Option<Code>, AllocError>
    requires originals { AreIndexed originals.now }
    requires numbered { IsPermutation document.now.shaped.now.shapes numbered.now }
    ensures { IfOk result (inside.IsFirstCode (spec.BreaksHere originals.now.sources.available.now document.now.number document.now.shaped.now.shapes document.now.target
        declared.entry.kind declared.entry.name.now (child_entry child.entry))) }
{
    let name = declared.name.as_str();
    let original = originals.original(child.location.as_str(), declared.kind, name)?;
    match original {
        None => return Ok(Some(Code::SrcExpredef)),
        Some(_) => {},
    }
    if comes_back(originals, version_of(document.number, child))? {
        return Ok(Some(Code::XRedefineCircle));
    }
    let own = own_code(
        originals.sources.alloc,
        document,
        numbered,
        declared.kind,
        name,
        child.shape,
    )?;
    Ok(own)
}

// The first code that what stands in a redefine breaks in a document of a set.
fn child_code<'a>(
    originals: &Originals<'a>,
    document: &SetDocument<'a>,
    numbered: &Numbered<'_>,
    child: Child<'a>,
) -> Result<Option<Code>, AllocError>
    requires originals { AreIndexed originals.now }
    requires numbered { IsPermutation document.now.shaped.now.shapes numbered.now }
    ensures { IfOk result (inside.IsFirstCode (inside.IsBroken originals.now.sources.available.now document.now (child_entry child.entry))) }
{
    match declared_as(&child.shape.form) {
        None => Ok(None),
        Some(declared) => {
            let code = declared_code(originals, document, numbered, child, declared)?;
            Ok(code)
        },
    }
}

// The fault of a code, if there is one.
fn fault_of(document: u32, item: u32, code: Option<Code>) -> Option<Fault>
    ensures { result ≡ option_map (inside.fault_at document item) code }
{
    match code {
        None => None,
        Some(code) => Some(Fault {
            phase: PHASE,
            document,
            item,
            code,
        }),
    }
}

// The first fault of what stands in a redefine.
fn child_fault<'a>(
    originals: &Originals<'a>,
    document: &SetDocument<'a>,
    numbered: &Numbered<'_>,
    child: Child<'a>,
) -> Result<Option<Fault>, AllocError>
    requires originals { AreIndexed originals.now }
    requires numbered { IsPermutation document.now.shaped.now.shapes numbered.now }
    ensures { IfOk result (IsLeast (inside.IsChildFault originals.now.sources.available.now document.now (child_entry child.entry))) }
{
    let code = child_code(originals, document, numbered, child)?;
    Ok(fault_of(document.number, child.shape.item, code))
}

// The first fault of some of what stands in redefines of a document.
fn children_fault<'a>(
    originals: &Originals<'a>,
    document: &SetDocument<'a>,
    numbered: &Numbered<'_>,
    children: &[Child<'a>],
) -> Result<Option<Fault>, AllocError>
    requires originals { AreIndexed originals.now }
    requires numbered { IsPermutation document.now.shaped.now.shapes numbered.now }
    ensures { IfOk result (IsLeast (inside.IsOneOf (inside.IsChildFault originals.now.sources.available.now document.now) (map child_entry children.now))) }
{
    let mut first = None;
    for child in children {
        let found = child_fault(originals, document, numbered, *child)?;
        first = sooner(first, found);
    }
    Ok(first)
}

// The first fault of what stands in redefines of a document.
fn document_fault<'a>(
    originals: &Originals<'a>,
    document: &SetDocument<'a>,
) -> Result<Option<Fault>, AllocError>
    requires originals { AreIndexed originals.now }
    ensures { IfOk result (IsLeast (inside.IsDocumentFault originals.now.sources.available.now document.now)) }
{
    let shapes = document.shaped.shapes.as_slice();
    let children = redefining(originals.sources.alloc, shapes)?;
    let numbered = Numbered::new(originals.sources.alloc, shapes)?;
    let first = children_fault(originals, document, &numbered, children.as_slice())?;
    Ok(first)
}

// The first fault of what stands in redefines of the documents of a set.
fn set_fault<'a>(
    originals: &Originals<'a>,
    set: &[SetDocument<'a>],
) -> Result<Option<Fault>, AllocError>
    requires originals { AreIndexed originals.now }
    ensures { IfOk result (IsLeast (inside.IsSetFault originals.now.sources.available.now set.now)) }
{
    let mut first = None;
    for document in set {
        let found = document_fault(originals, document)?;
        first = sooner(first, found);
    }
    Ok(first)
}

/// The first constraint that what stands in the redefines of a set breaks (Structures 4.2.2): by document, element and the order of
/// the codes. These are src-expredef, x-redefine.circle, src-redefine.5, src-redefine.6.1.1, src-redefine.6.1.2 and src-redefine.7.1.
///
/// # Errors
///
/// `AllocError` is want of memory, or of numbers: there are 65,535 documents at most.
pub fn first_redefine_fault<'a>(
    alloc: Global,
    available: &'a [Available],
    set: &[SetDocument<'a>],
) -> Result<Option<Fault>, AllocError>
    requires some { 0 < length available.now }
    ensures least { IfOk result (λ found. (start : ℕ) → IsEffectiveSet available.now start set.now → IsLeast (spec.IsRedefineFault available.now start) found) }
{
    if available.len() > MOST {
        return Err(AllocError);
    }
    let sources = Sources::new(alloc, available)?;
    let originals = Originals::new(sources)?;
    let first = set_fault(&originals, set)?;
    Ok(first)
}
