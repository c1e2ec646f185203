ghost use Rattle.std.specs.Prelude.{◌≡◌, ◌<◌, length, slice_get, IsTrue, ◌↔◌};
ghost use Rattle.xs_codes.specs.Least.{IsLeast};
ghost use Rattle.component_references.specs.Ranked.{IsRanked};
ghost use Rattle.component_references.specs.Heights.{IsType};
ghost use Rattle.component_tables.specs.ContentTypes.{AreContentsOf, content_of};
ghost use Rattle.derive_faults.specs.TypeFaults.{IsFirstCode, IsFaultAt, IsTypeFault};
ghost use Rattle.derive_faults.specs.Extensions as spec;

use crate::{coded, earlier, finals_of, when};
use component_tables::{ContentType, ContentTypes};
use xs_codes::{Code, Fault, sooner};
use xs_components::{ComplexId, ComplexType, Components, ContentForm};

// The phase of compiling that looks at derivation.
const PHASE: u8 = 7;

// Whether content of its own goes with that of a base.
fn content_fits(content: &ContentForm, base: ContentType) -> bool
    ensures { result ≡ spec.content_fits content.now base }
{
    match content {
        ContentForm::Simple { .. } => base != ContentType::ElementOnly
            && base != ContentType::Mixed,
        ContentForm::Complex { effective, mixed } => match effective {
            None => true,
            Some(_) => model_fits(*mixed, base),
        },
    }
}

// Whether a content model goes with the content of a base.
fn model_fits(mixed: bool, base: ContentType) -> bool
    ensures { result ≡ spec.model_fits mixed base }
{
    match base {
        ContentType::Empty => true,
        ContentType::ElementOnly => !mixed,
        ContentType::Mixed => mixed,
        ContentType::SimpleType | ContentType::SimpleContent => false,
    }
}

// The first code of an extension.
fn first_code(parts: &Components, contents: &ContentTypes, part: &ComplexType) -> Option<Code>
    requires base { IsType parts.now part.now.base }
    requires contents { AreContentsOf parts.now contents.now }
    ensures first { IsFirstCode (spec.BreaksAny parts.now part.now) result }
{
    let finals = finals_of(parts, part.base);
    let base = contents.content_of(part.base);
    earlier(
        when(finals.extension, Code::CosCtExtends1_1),
        when(!content_fits(&part.content, base), Code::CosCtExtends1_4),
    )
}

// The first code of a complex type, if it is an extension.
fn extension_code(parts: &Components, contents: &ContentTypes, part: &ComplexType) -> Option<Code>
    requires base { IsType parts.now part.now.base }
    requires contents { AreContentsOf parts.now contents.now }
    ensures first { IsFirstCode (spec.BreaksExtension parts.now part.now) result }
{
    if part.by_extension {
        first_code(parts, contents, part)
    } else {
        None
    }
}

// The first fault of a complex type.
fn fault_of(parts: &Components, contents: &ContentTypes, id: ComplexId) -> Option<Fault>
    requires ranked { IsRanked parts.now }
    requires contents { AreContentsOf parts.now contents.now }
    requires there { id < length parts.now.complexes.parts }
    ensures least { IsLeast (IsFaultAt 7 parts.now (spec.Breaks parts.now) id) result }
{
    let part = parts.complex(id);
    coded(PHASE, part.at, extension_code(parts, contents, part))
}

/// The first complex type that extends its base as this does not allow: the base is final for extension (cos-ct-extends.1.1),
/// or content is added to content of another kind (cos-ct-extends.1.4). `contents` are the content types of the components.
pub fn first_extension(parts: &Components, contents: &ContentTypes) -> Option<Fault>
    requires ranked { IsRanked parts.now }
    requires contents { AreContentsOf parts.now contents.now }
    ensures least { IsLeast (spec.IsExtensionFault parts.now) result }
{
    let mut best = None;
    let mut number = 0;
    while let Some(id) = parts.complex_at(number) {
        best = sooner(best, fault_of(parts, contents, id));
        number += 1;
    }
    best
}
