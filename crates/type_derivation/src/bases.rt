ghost use Rattle.std.specs.Prelude.{◌≡◌, IfOk};
ghost use Rattle.xs_codes.specs.Least.{IsLeast};
ghost use Rattle.type_derivation.specs.Bases as spec;
ghost use Rattle.type_derivation.specs.inside.Kinds.{fault_in, IsFaultIn};

use crate::kinds::kind_of;
use crate::rounds::kinds;
use component_tables::ContentType;
use std::alloc::{AllocError, Global};
use xs_codes::{Code, Fault, sooner};
use xs_components::{ComplexType, Components, ContentForm, Place};

// The phase of compiling that looks at bases.
const PHASE: u8 = 4;

// The code of a type with complex content over a base.
fn complex_code(base: ContentType) -> Option<Code>
    ensures { result ≡ spec.complex_code base }
{
    match base {
        ContentType::SimpleType => Some(Code::SrcCt1),
        ContentType::Empty => None,
        ContentType::SimpleContent => None,
        ContentType::ElementOnly => None,
        ContentType::Mixed => None,
    }
}

// Whether a type with simple content may stand over a base.
fn fits(by_extension: bool, has_own: bool, base: ContentType) -> bool
    ensures { result ≡ spec.fits by_extension has_own base }
{
    match base {
        ContentType::SimpleType => by_extension,
        ContentType::Empty => false,
        ContentType::SimpleContent => true,
        ContentType::ElementOnly => false,
        ContentType::Mixed => !by_extension && has_own,
    }
}

// The code of a type with simple content over a base.
fn simple_code(by_extension: bool, has_own: bool, base: ContentType) -> Option<Code>
    ensures { result ≡ spec.simple_code by_extension has_own base }
{
    if fits(by_extension, has_own, base) {
        None
    } else {
        Some(Code::SrcCt2)
    }
}

// The code of a type over a base of this content type.
fn base_code(by_extension: bool, content: &ContentForm, base: ContentType) -> Option<Code>
    ensures { result ≡ spec.base_code by_extension content.now base }
{
    match content {
        ContentForm::Simple { own, .. } => simple_code(by_extension, own.is_some(), base),
        ContentForm::Complex { .. } => complex_code(base),
    }
}

// The fault of a code at a place.
fn base_fault(at: Place, code: Code) -> Fault
    ensures { result ≡ spec.base_fault at code }
{
    Fault {
        phase: PHASE,
        document: at.document,
        item: at.item,
        code,
    }
}

// The fault of a type, by the content types that are known.
fn fault_of(known: &[Option<ContentType>], part: &ComplexType) -> Option<Fault>
    ensures { result ≡ fault_in known.now part.now }
{
    let Some(base) = kind_of(known, part.base) else {
        return None;
    };
    match base_code(part.by_extension, &part.content, base) {
        None => None,
        Some(code) => Some(base_fault(part.at, code)),
    }
}

// The first fault of these types.
fn first_of(types: &[ComplexType], known: &[Option<ContentType>]) -> Option<Fault>
    ensures least { IsLeast (IsFaultIn types.now known.now) result }
{
    let mut best = None;
    for part in types {
        best = sooner(best, fault_of(known, part));
    }
    best
}

/// The first complex type whose base is of the wrong kind (Structures 3.4.3).
pub fn first_base(alloc: Global, parts: &Components) -> Result<Option<Fault>, AllocError>
    ensures least { IfOk result (IsLeast (spec.IsWrongBase parts.now)) }
{
    let known = kinds(alloc, parts)?;
    Ok(first_of(parts.complexes(), known.as_slice()))
}
