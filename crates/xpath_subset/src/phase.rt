//! The first fault of the phase, or the paths of all identity constraints.

ghost use Rattle.std.specs.Prelude.{◌≡◌, IfOk, MatchResult, None, Some};
ghost use Rattle.xs_codes.specs.Least.{IsLeast};
ghost use Rattle.xpath_subset.specs.Reads.{AreIdentities};
ghost use Rattle.xpath_subset.specs.Faults as spec;
ghost use Rattle.xpath_subset.specs.inside.Reading.{IsConstraintRead};

use crate::IdentityPaths;
use crate::fault_reading::{fault_at, fields_reading, selector_reading};
use std::alloc::{AllocError, Global};
use xs_codes::{Code, Fault, sooner};
use xs_components::{Components, Constraint, ConstraintKind};

// The least fault of a constraint, or without one its paths.
#[derive(Drop)]
struct ConstraintReading {
    fault: Option<Fault>,
    paths: IdentityPaths,
}

// The fault of a keyref with another number of fields than the key that it refers to.
fn count_fault(parts: &Components, constraint: &Constraint) -> Option<Fault>
    ensures { IsLeast (spec.IsCountFault parts.now constraint.now) result }
{
    let ConstraintKind::Keyref(key) = constraint.kind else {
        return None;
    };
    let referred = parts.constraints().get(key.number() as usize)?;
    if constraint.fields.len() == referred.fields.len() {
        return None;
    }
    Some(fault_at(constraint.at, Code::CPropsCorrect2))
}

// Reads the paths of a constraint.
fn constraint_reading(
    alloc: Global,
    parts: &Components,
    constraint: &Constraint,
) -> Result<ConstraintReading, AllocError>
    ensures { IfOk result (IsConstraintRead parts.now constraint.now) }
{
    let selector = selector_reading(alloc, &constraint.selector)?;
    let fields = fields_reading(alloc, constraint.fields.as_slice())?;
    let of_fields = sooner(fields.fault, count_fault(parts, constraint));
    Ok(ConstraintReading {
        fault: sooner(selector.fault, of_fields),
        paths: IdentityPaths {
            selector: selector.paths,
            fields: fields.paths,
        },
    })
}

/// The paths of all identity constraints of a set, by their numbers; or the first fault of the phase, by document, element and the
/// order of codes: a selector or a field that is none (c-selector-xpath, c-fields-xpaths), a keyref with another number of fields
/// than its key (c-props-correct.2).
///
/// # Errors
///
/// `AllocError` is want of memory.
pub fn read_identities(
    alloc: Global,
    parts: &Components,
) -> Result<Result<Vec<IdentityPaths>, Fault>, AllocError>
    ensures read { IfOk result (λ read. MatchResult read (λ paths. IsLeast (spec.IsIdentityFault parts.now) None × AreIdentities parts.now paths.items) (λ fault. IsLeast (spec.IsIdentityFault parts.now) (Some fault))) }
{
    let mut best = None;
    let mut identities = Vec::new(alloc);
    for constraint in parts.constraints() {
        let ConstraintReading {
            fault: found,
            paths: read,
        } = constraint_reading(alloc, parts, constraint)?;
        best = sooner(best, found);
        identities.push(read)?;
    }
    match best {
        None => Ok(Ok(identities)),
        Some(fault) => Ok(Err(fault)),
    }
}
