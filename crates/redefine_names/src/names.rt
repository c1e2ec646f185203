ghost use Rattle.std.specs.Prelude.{◌≡◌, ◌<◌, decimal, string_bytes, IfOk, OnOk, IfSome, length};
ghost use Rattle.xs_names.specs.Names.{Grown};
ghost use Rattle.representations.specs.Named.{AreNamed};
ghost use Rattle.redefine_names.specs.VersionNames as spec;

use crate::declared::{Declared, declared_at};
use itoa::Buffer;
use representations::Representation;
use std::alloc::{AllocError, Global};
use xs_names::{NameId, Names};

// The local part of the name of the version at a place: that of its name, a space, and the place.
fn version_local(alloc: Global, local: &str, place: u32) -> Result<String, AllocError>
    ensures { IfOk result (λ text. string_bytes text ≡ spec.version_local local.now place) }
{
    let mut text = String::new(alloc);
    text.push_str(local)?;
    text.push_str(" ")?;
    let mut digits = Buffer::new();
    text.push_str(digits.format(place as u64))?;
    Ok(text)
}

// Puts the name of the version at a place into the table.
fn add_declared(
    alloc: Global,
    names: &mut Names,
    declared: Declared,
    place: u32,
) -> Result<(), AllocError>
    requires named { declared.name < length names.old.names }
    ensures table { OnOk result (names.new ≡ spec.with_name_of names.old place (Some declared)) }
    ensures grown { Grown names.old names.new }
{
    let local = version_local(alloc, names.local(declared.name), place)?;
    let space = names.ns(declared.name);
    names.intern(space, local.as_str())?;
    Ok(())
}

// The same of the version that a redefining one goes back to, where there is one.
fn add_version(
    alloc: Global,
    names: &mut Names,
    reps: &[Representation],
    original: Option<u32>,
) -> Result<(), AllocError>
    requires named { AreNamed names.old reps.now }
    ensures table { OnOk result (names.new ≡ spec.with_version names.old reps.now original) }
    ensures grown { Grown names.old names.new }
{
    let Some(place) = original else {
        return Ok(());
    };
    match declared_at(reps, place as usize) {
        None => Ok(()),
        Some(declared) => add_declared(alloc, names, declared, place),
    }
}

/// Puts the names of originals into the table, in the order of the versions that go back to them.
pub(crate) fn add_versions(
    alloc: Global,
    names: &mut Names,
    reps: &[Representation],
    originals: &[Option<u32>],
) -> Result<(), AllocError>
    requires named { AreNamed names.old reps.now }
    ensures table { OnOk result (names.new ≡ spec.with_versions names.old reps.now originals.now) }
    ensures grown { Grown names.old names.new }
{
    for original in originals {
        add_version(alloc, names, reps, *original)?;
    }
    Ok(())
}

// The number of the name of the version of what is declared at a place.
fn number_of(
    alloc: Global,
    names: &Names,
    declared: Declared,
    place: u32,
) -> Result<Option<NameId>, AllocError>
    requires named { declared.name < length names.now.names }
    ensures number { IfOk result (λ number. number ≡ spec.number_of names.now place (Some declared)) }
    ensures within { IfOk result (λ number. IfSome number (λ n. n < length names.now.names)) }
{
    let local = version_local(alloc, names.local(declared.name), place)?;
    Ok(names.lookup(names.ns(declared.name), local.as_str()))
}

/// The number of the name of the version at a place, where the table has it.
pub(crate) fn version_at(
    alloc: Global,
    names: &Names,
    reps: &[Representation],
    place: u32,
) -> Result<Option<NameId>, AllocError>
    requires named { AreNamed names.now reps.now }
    ensures number { IfOk result (λ number. number ≡ spec.version_at names.now reps.now place) }
    ensures within { IfOk result (λ number. IfSome number (λ n. n < length names.now.names)) }
{
    match declared_at(reps, place as usize) {
        None => Ok(None),
        Some(declared) => number_of(alloc, names, declared, place),
    }
}
