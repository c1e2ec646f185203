ghost use Rattle.std.specs.Prelude.{◌≡◌, ◌≢◌, ◌<◌, ◌≤◌, ◌==◌, ℕ, [], All, IfSome, length, slice_get, bytes_eq};
ghost use Rattle.std.specs.List.{list_all, list_any};
ghost use Rattle.reference_faults.specs.References.{name_of};
ghost use Rattle.reference_faults.specs.Imports as spec;

use crate::reference::Reference;
use representations::Origin;
use schema_values::SCHEMA_NAMESPACE;
use xs_names::{NameId, Names, NsId};

/// The origins without those that end at or before a place.
pub(crate) fn skip_to(origins: &[Origin], place: usize) -> &[Origin]
    ensures here { slice_get result.now 0 ≡ spec.origin_at origins.now place }
    ensures behind { (p : ℕ) → place ≤ p → spec.origin_at result.now p ≡ spec.origin_at origins.now p }
{
    let mut rest = origins;
    'skip: while let Some(first) = rest.first() {
        if place < first.end as usize {
            return rest;
        }
        rest = &rest[1..];
    }
    rest
}

// Whether the namespace is in the list.
fn has_space(spaces: &[NsId], space: NsId) -> bool
    ensures { result ≡ list_any (λ n. n == space) spaces.now }
{
    spaces.iter().any(|n| *n == space)
}

/// Whether a namespace has this name, which is not empty.
pub(crate) fn has_name(names: &Names, space: NsId, name: &str) -> bool
    requires there { space < length names.now.spaces }
    requires some { name.now ≢ [] }
    ensures { result ≡ bytes_eq (spec.space_name names.now space) name.now }
{
    match names.ns_text(space) {
        None => false,
        Some(text) => text == name,
    }
}

// Whether a document may refer to components of a namespace.
fn may_refer(names: &Names, origin: &Origin, space: NsId) -> bool
    requires there { space < length names.now.spaces }
    ensures { result ≡ spec.may_refer names.now origin.now space }
{
    space == origin.target
        || has_space(origin.imports.as_slice(), space)
        || has_name(names, space, SCHEMA_NAMESPACE)
}

// Whether a document may refer to the namespace of a reference.
fn is_imported(names: &Names, origin: &Origin, reference: Reference) -> bool
    requires named { IfSome (name_of reference) (spec.IsInTable names.now) }
    ensures { result ≡ spec.is_imported names.now origin.now reference }
{
    match reference.name() {
        None => true,
        Some(name) => may_refer(names, origin, names.ns(name)),
    }
}

// Whether a document may refer to the namespaces of all references.
fn imports_all(names: &Names, origin: &Origin, refs: &[Reference]) -> bool
    requires named { All (λ r. IfSome (name_of r) (spec.IsInTable names.now)) refs.now }
    ensures { result ≡ list_all (spec.is_imported names.now origin.now) refs.now }
{
    for reference in refs {
        if !is_imported(names, origin, *reference) {
            return false;
        }
    }
    true
}

/// Whether the first document, if there is one, may refer to the namespaces of all references.
pub(crate) fn are_imported(names: &Names, origins: &[Origin], refs: &[Reference]) -> bool
    requires named { All (λ r. IfSome (name_of r) (spec.IsInTable names.now)) refs.now }
    ensures { result ≡ spec.are_imported names.now (slice_get origins.now 0) refs.now }
{
    match origins.first() {
        None => true,
        Some(origin) => imports_all(names, origin, refs),
    }
}
