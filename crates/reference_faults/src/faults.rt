ghost use Rattle.std.specs.Prelude.{◌≡◌, ◌<◌, IfOk, length, slice_get};
ghost use Rattle.std.specs.Option.{option_map};
ghost use Rattle.representations.specs.Named.{AreNamed};
ghost use Rattle.representations.specs.Names.{spaces_of};
ghost use Rattle.xs_codes.specs.declared.code.Code.TheVariants.{XLimitComponents};
ghost use Rattle.xs_codes.specs.Least.{IsLeast};
ghost use Rattle.reference_faults.specs.Faults as spec;
ghost use Rattle.reference_faults.specs.Resolution.{kinds_of};
ghost use Rattle.reference_faults.specs.inside.Named.{IsNamed};

use crate::attributes::{is_xmlns, is_xsi};
use crate::doubles::is_double;
use crate::imports::{are_imported, skip_to};
use crate::limit::past_limit;
use crate::lookup::{Lookup, kinds_of};
use crate::reference::references;
use representations::{Origin, Representation, Represented, Source};
use std::alloc::{AllocError, Global};
use xs_codes::{Code, Fault, sooner};
use xs_components::Place;
use xs_names::Names;

// The phase of compiling that looks at names.
const PHASE: u8 = 3;

// The fault of a code at a place.
fn name_fault(at: Place, code: Code) -> Fault
    ensures { result ≡ spec.name_fault at code }
{
    Fault {
        phase: PHASE,
        document: at.document,
        item: at.item,
        code,
    }
}

// The first code of the references of an element of the first document.
fn reference_code(
    alloc: Global,
    names: &Names,
    lookup: &Lookup,
    origins: &[Origin],
    form: &Represented,
) -> Result<Option<Code>, AllocError>
    requires named { IsNamed names.now form.now }
    ensures first { IfOk result (λ code. code ≡ slice_get (spec.reference_codes names.now lookup.now.spaces.now lookup.now.kinds.now (slice_get origins.now 0) form.now) 0) }
{
    let refs = references(alloc, form)?;
    if !lookup.all_resolve(refs.as_slice()) {
        return Ok(Some(Code::SrcResolve));
    }
    if !are_imported(names, origins, refs.as_slice()) {
        return Ok(Some(Code::SrcResolve4));
    }
    Ok(None)
}

// The first code of an element of the first document.
fn first_code(
    alloc: Global,
    names: &Names,
    lookup: &Lookup,
    origins: &[Origin],
    place: usize,
    form: &Represented,
) -> Result<Option<Code>, AllocError>
    requires named { IsNamed names.now form.now }
    ensures first { IfOk result (λ code. code ≡ slice_get (spec.codes_of names.now lookup.now.spaces.now lookup.now.kinds.now (slice_get origins.now 0) place form.now) 0) }
{
    if is_double(lookup.spaces, place) {
        return Ok(Some(Code::SchPropsCorrect2));
    }
    if is_xmlns(names, form) {
        return Ok(Some(Code::NoXmlns));
    }
    if is_xsi(names, form) {
        return Ok(Some(Code::NoXsi));
    }
    reference_code(alloc, names, lookup, origins, form)
}

// The first fault of an element.
fn element_fault(at: Place, code: Option<Code>) -> Option<Fault>
    ensures { result ≡ option_map (spec.name_fault at) code }
{
    match code {
        None => None,
        Some(code) => Some(name_fault(at, code)),
    }
}

// The fault of the first component past the limit.
fn limit_fault(at: Option<Place>) -> Option<Fault>
    ensures { result ≡ option_map (λ place. spec.name_fault place XLimitComponents) at }
{
    match at {
        None => None,
        Some(at) => Some(name_fault(at, Code::XLimitComponents)),
    }
}

// The first fault of the elements.
fn first_of(
    alloc: Global,
    names: &Names,
    lookup: &Lookup,
    origins: &[Origin],
    reps: &[Representation],
) -> Result<Option<Fault>, AllocError>
    requires spaces { lookup.now.spaces.now ≡ spaces_of reps.now }
    requires kinds { lookup.now.kinds.now ≡ kinds_of reps.now }
    requires named { AreNamed names.now reps.now }
    ensures least { IfOk result (IsLeast (spec.IsElementFault names.now origins.now reps.now)) }
{
    let mut best = None;
    let mut rest = origins;
    for (place, rep) in reps.iter().enumerate() {
        rest = skip_to(rest, place);
        let code = first_code(alloc, names, lookup, rest, place, &rep.form)?;
        best = sooner(best, element_fault(rep.at, code));
    }
    Ok(best)
}

/// The first fault of names and references among representations, by document, then element, then the place of the code in the
/// list of all; `None` where there is none. The names in each symbol space are those that the representations give, and each
/// name in these is in the table.
///
/// # Errors
///
/// `AllocError` is want of memory.
pub fn first_fault(
    alloc: Global,
    names: &Names,
    source: &Source,
    origins: &[Origin],
) -> Result<Option<Fault>, AllocError>
    requires spaces { source.now.spaces.now ≡ spaces_of source.now.reps.now }
    requires named { AreNamed names.now source.now.reps.now }
    ensures least { IfOk result (IsLeast (spec.IsBroken names.now origins.now source.now.reps.now)) }
{
    let kinds = kinds_of(alloc, source.reps)?;
    let lookup = Lookup {
        spaces: source.spaces,
        kinds: &kinds,
    };
    let element = first_of(alloc, names, &lookup, origins, source.reps)?;
    let limit = past_limit(alloc, source.reps)?;
    Ok(sooner(element, limit_fault(limit)))
}
