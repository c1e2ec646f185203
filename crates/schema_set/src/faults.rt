ghost use Rattle.std.specs.Prelude.{◌≡◌, ◌++◌, Contains, slice_get, IfOk};
ghost use Rattle.std.specs.Option.{option_copied, option_and_then, option_map};
ghost use Rattle.std.specs.List.{flat_map};
ghost use Rattle.xs_codes.specs.declared.code.Code.TheVariants as code;
ghost use Rattle.xs_codes.specs.Least.{IsLeast};
ghost use Rattle.schema_set.specs.EffectiveSet.{document_at};
ghost use Rattle.schema_set.specs.Order as order;
ghost use Rattle.schema_set.specs.Composition as spec;
ghost use Rattle.schema_set.specs.inside.Faults as inside;
ghost use Rattle.schema_set.specs.Sourced.{AreSources};

use crate::SetDocument;
use crate::sources::Sources;
use crate::targets::{is_same, own_target, shaped_at};
use schema_shape::{Form, Shape};
use std::alloc::{AllocError, Global};
use xs_codes::{Code, Fault, sooner};
use xs_names::Text;

// The phase of compiling that judges how schema documents are composed.
const PHASE: u8 = 2;

// The namespace that a name says.
fn named(name: &Text) -> Option<&Text>
    ensures { option_copied result ≡ spec.named name.now }
{
    if name.as_str().is_empty() {
        None
    } else {
        Some(name)
    }
}

// The namespace that an import says.
fn namespace_of(namespace: &Option<Text>) -> Option<&Text>
    ensures { option_copied result ≡ option_and_then spec.named namespace.now }
{
    match namespace {
        None => None,
        Some(name) => named(name),
    }
}

// Whether the target namespace of an included document is there, and another.
fn is_other(own: Option<&Text>, target: Option<&Text>) -> bool
    ensures { result ≡ spec.is_other (option_copied own.entry) (option_copied target.entry) }
{
    match own {
        None => false,
        Some(_) => !is_same(own, target),
    }
}

// The own target namespace of the document of this number.
fn own_target_of<'a>(sources: &Sources<'a>, number: u32) -> Option<&'a Text>
    requires { order.IsNumber sources.now.available.now number }
    ensures { option_copied result ≡ order.own_target_of sources.now.available.now number }
{
    let place = number as usize - 1;
    own_target(shaped_at(sources.available, place))
}

// The code of an include or a redefine; `other` is that of another target namespace.
fn inclusion_code(
    sources: &Sources<'_>,
    target: Option<&Text>,
    location: &Text,
    other: Code,
) -> Result<Option<Code>, AllocError>
    requires { AreSources sources.now }
    ensures { IfOk result (λ code. code ≡ slice_get (spec.inclusion_codes other sources.now.available.now (option_copied target.entry) (document_at sources.now.available.now location.now)) 0) }
{
    match sources.find(location.as_str())? {
        None => Ok(Some(Code::XLocation)),
        Some(number) => {
            if is_other(own_target_of(sources, number), target) {
                Ok(Some(other))
            } else {
                Ok(None)
            }
        },
    }
}

// Whether an import names the target namespace of its document.
fn imports_own(target: Option<&Text>, namespace: &Option<Text>) -> bool
    ensures { result ≡ spec.imports_own (option_copied target.entry) namespace.now }
{
    match namespace {
        None => false,
        Some(name) => is_same(named(name), target),
    }
}

// Whether neither an import nor its document names a namespace.
fn imports_absent(target: Option<&Text>, namespace: &Option<Text>) -> bool
    ensures { result ≡ spec.imports_absent (option_copied target.entry) namespace.now }
{
    !target.is_some() && !namespace.is_some()
}

// Whether an import loads a document of another target namespace than it names.
fn loads_other(
    sources: &Sources<'_>,
    namespace: &Option<Text>,
    location: &Option<Text>,
) -> Result<bool, AllocError>
    requires { AreSources sources.now }
    ensures { IfOk result (λ other. other ≡ spec.loads_other sources.now.available.now namespace.now (spec.loaded sources.now.available.now location.now)) }
{
    match location {
        None => Ok(false),
        Some(location) => match sources.find(location.as_str())? {
            None => Ok(false),
            Some(number) => Ok(!is_same(own_target_of(sources, number), namespace_of(namespace))),
        },
    }
}

// The first code of an import that breaks these constraints.
fn first_import_code(own: bool, absent: bool, other: bool) -> Option<Code>
    ensures { result ≡ slice_get (spec.code_if own code.SrcImport1_1 ++ (spec.code_if absent code.SrcImport1_2 ++ spec.code_if other code.SrcImport3_1)) 0 }
{
    if own {
        return Some(Code::SrcImport1_1);
    }
    if absent {
        return Some(Code::SrcImport1_2);
    }
    if other {
        return Some(Code::SrcImport3_1);
    }
    None
}

// The first code of an import.
fn import_code(
    sources: &Sources<'_>,
    target: Option<&Text>,
    namespace: &Option<Text>,
    location: &Option<Text>,
) -> Result<Option<Code>, AllocError>
    requires { AreSources sources.now }
    ensures { IfOk result (λ code. code ≡ slice_get (spec.import_codes sources.now.available.now (option_copied target.entry) namespace.now (spec.loaded sources.now.available.now location.now)) 0) }
{
    let own = imports_own(target, namespace);
    let absent = imports_absent(target, namespace);
    let other = loads_other(sources, namespace, location)?;
    Ok(first_import_code(own, absent, other))
}

// The first code that an element breaks in a document of this target namespace.
fn code_of(
    sources: &Sources<'_>,
    target: Option<&Text>,
    form: &Form,
) -> Result<Option<Code>, AllocError>
    requires { AreSources sources.now }
    ensures { IfOk result (λ code. code ≡ slice_get (spec.broken_codes sources.now.available.now (option_copied target.entry) form.now) 0) }
{
    match form {
        Form::Include { location } => {
            inclusion_code(sources, target, location, Code::SrcInclude2_1)
        },
        Form::Redefine { location } => {
            inclusion_code(sources, target, location, Code::SrcRedefine3_1)
        },
        Form::Import {
            namespace,
            location,
        } => import_code(sources, target, namespace, location),
        _ => Ok(None),
    }
}

// The fault of a code, if there is one.
fn fault_of(document: u32, item: u32, code: Option<Code>) -> Option<Fault>
    ensures { result ≡ option_map (inside.fault_at document item) code }
{
    match code {
        None => None,
        Some(code) => Some(Fault {
            phase: PHASE,
            document,
            item,
            code,
        }),
    }
}

// The first fault of an element.
fn shape_fault(
    sources: &Sources<'_>,
    document: &SetDocument<'_>,
    shape: &Shape,
) -> Result<Option<Fault>, AllocError>
    requires { AreSources sources.now }
    ensures { IfOk result (IsLeast (Contains (inside.shape_faults sources.now.available.now document.now shape.now))) }
{
    let code = code_of(sources, document.target.as_ref(), &shape.form)?;
    Ok(fault_of(document.number, shape.item, code))
}

// The first fault of elements of a document.
fn shapes_fault(
    sources: &Sources<'_>,
    document: &SetDocument<'_>,
    shapes: &[Shape],
) -> Result<Option<Fault>, AllocError>
    requires { AreSources sources.now }
    ensures { IfOk result (IsLeast (Contains (flat_map (inside.shape_faults sources.now.available.now document.now) shapes.now))) }
{
    let mut first = None;
    for shape in shapes {
        let found = shape_fault(sources, document, shape)?;
        first = sooner(first, found);
    }
    Ok(first)
}

// The first fault of a document.
fn document_fault(
    sources: &Sources<'_>,
    document: &SetDocument<'_>,
) -> Result<Option<Fault>, AllocError>
    requires { AreSources sources.now }
    ensures { IfOk result (IsLeast (Contains (inside.document_faults sources.now.available.now document.now))) }
{
    let shapes = document.shaped.shapes.as_slice();
    let first = shapes_fault(sources, document, shapes)?;
    Ok(first)
}

// The first fault of the documents of a set.
pub(crate) fn first_fault(
    sources: &Sources<'_>,
    documents: &[SetDocument<'_>],
) -> Result<Option<Fault>, AllocError>
    requires { AreSources sources.now }
    ensures { IfOk result (IsLeast (Contains (inside.set_faults sources.now.available.now documents.now))) }
{
    let mut first = None;
    for document in documents {
        let found = document_fault(sources, document)?;
        first = sooner(first, found);
    }
    Ok(first)
}
