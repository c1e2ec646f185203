ghost use Rattle.std.specs.Prelude.{◌≡◌, ◌<◌, ◌==◌, ℕ, Some, None, All, map, IfOk, length, slice_index_or, if◌then◌else◌};
ghost use Rattle.std.specs.List.{list_any};
ghost use Rattle.std.specs.Option.{option_and_then};
ghost use Rattle.representations.specs.Named.{AreNamed};
ghost use Rattle.representations.specs.Behind.{AreBehind};
ghost use Rattle.redefine_names.specs.VersionNames.{original_at};
ghost use Rattle.redefine_names.specs.Redirections as spec;

use crate::declared::{VersionKind, declared_at};
use crate::names::version_at;
use crate::tables::{at_place, none_of};
use representations::Representation;
use std::alloc::{AllocError, Global};
use xs_names::{NameId, Names};

/// What references of a kind to a name go to in its place.
#[derive(Clone, Copy)]
pub struct Redirection {
    pub kind: VersionKind,
    pub from: NameId,
    pub to: NameId,
}

// The redirection in the version at a place, whose original is at another.
fn redirection_to(
    alloc: Global,
    names: &Names,
    reps: &[Representation],
    place: u32,
    original: u32,
) -> Result<Option<Redirection>, AllocError>
    requires named { AreNamed names.now reps.now }
    ensures { IfOk result (λ made. made ≡ spec.redirection_if names.now reps.now place (Some original)) }
{
    let Some(declared) = declared_at(reps, place as usize) else {
        return Ok(None);
    };
    match version_at(alloc, names, reps, original)? {
        None => Ok(None),
        Some(to) => Ok(Some(Redirection {
            kind: declared.kind,
            from: declared.name,
            to,
        })),
    }
}

// The redirection of the version at a place, where it has an original.
fn own_redirection(
    alloc: Global,
    names: &Names,
    reps: &[Representation],
    originals: &[Option<u32>],
    place: u32,
) -> Result<Option<Redirection>, AllocError>
    requires named { AreNamed names.now reps.now }
    ensures { IfOk result (λ made. made ≡ spec.own_redirection names.now reps.now originals.now place) }
{
    match at_place(originals, place as usize) {
        None => Ok(None),
        Some(original) => redirection_to(alloc, names, reps, place, original),
    }
}

// Puts a version at the places of members.
fn put_members(table: &mut Vec<Option<u32>>, members: &[u32], version: Option<u32>)
    requires within { All (λ member. member < length table.old.items) members.now }
    ensures many { length table.new.items ≡ length table.old.items }
    ensures put { (place : ℕ) → slice_index_or table.new.items place None
        ≡ (if list_any (λ member. member == place) members.now then version else slice_index_or table.old.items place None) }
{
    for member in members {
        table[*member as usize] = version;
    }
}

// The version at a place, where it has an original; else the one in which it stands.
fn version_or(originals: &[Option<u32>], place: u32, above: Option<u32>) -> Option<u32>
    ensures { result ≡ spec.version_or place (original_at originals.now place) above }
{
    match at_place(originals, place as usize) {
        None => above,
        Some(_) => Some(place),
    }
}

/// The redefining component that each element is or stands in, at whatever depth, by their places (Structures 4.2.2).
///
/// # Errors
///
/// `AllocError` is want of memory, or of places.
pub fn versions_around(
    alloc: Global,
    reps: &[Representation],
    originals: &[Option<u32>],
) -> Result<Vec<Option<u32>>, AllocError>
    requires behind { AreBehind reps.now }
    ensures many { IfOk result (λ table. length table.items ≡ length reps.now) }
    ensures around { IfOk result (λ table. (place : ℕ) → place < length reps.now → slice_index_or table.items place None ≡ spec.version_around reps.now originals.now place) }
{
    if reps.len() > u32::MAX as usize {
        return Err(AllocError);
    }
    let mut table = none_of(alloc, reps.len())?;
    for (place, rep) in reps.iter().enumerate() {
        let version = version_or(originals, place as u32, table[place]);
        table[place] = version;
        put_members(&mut table, rep.members.as_slice(), version);
    }
    Ok(table)
}

// The redirection of a version, where there is one.
fn redirection_in(
    alloc: Global,
    names: &Names,
    reps: &[Representation],
    originals: &[Option<u32>],
    version: Option<u32>,
) -> Result<Option<Redirection>, AllocError>
    requires named { AreNamed names.now reps.now }
    ensures { IfOk result (λ made. made ≡ option_and_then (spec.own_redirection names.now reps.now originals.now) version) }
{
    match version {
        None => Ok(None),
        Some(place) => own_redirection(alloc, names, reps, originals, place),
    }
}

// The redirections of versions, one by one.
fn redirections_in(
    alloc: Global,
    names: &Names,
    reps: &[Representation],
    originals: &[Option<u32>],
    versions: &[Option<u32>],
) -> Result<Vec<Option<Redirection>>, AllocError>
    requires named { AreNamed names.now reps.now }
    ensures { IfOk result (λ table. table.items ≡ map (option_and_then (spec.own_redirection names.now reps.now originals.now)) versions.now) }
{
    let mut table = Vec::new(alloc);
    for version in versions {
        table.push(redirection_in(alloc, names, reps, originals, *version)?)?;
    }
    Ok(table)
}

/// The redirection in each element, by its place.
pub(crate) fn redirections(
    alloc: Global,
    names: &Names,
    reps: &[Representation],
    originals: &[Option<u32>],
) -> Result<Vec<Option<Redirection>>, AllocError>
    requires named { AreNamed names.now reps.now }
    requires behind { AreBehind reps.now }
    ensures { IfOk result (λ table. (place : ℕ) → place < length reps.now → slice_index_or table.items place None ≡ spec.redirection_at names.now reps.now originals.now place) }
{
    let versions = versions_around(alloc, reps, originals)?;
    redirections_in(alloc, names, reps, originals, versions.as_slice())
}
