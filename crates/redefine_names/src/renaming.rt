ghost use Rattle.std.specs.Prelude.{◌≡◌, ◌<◌, ℕ, None, IfOk, OnOk, length, slice_index_or, if◌then◌else◌};
ghost use Rattle.xs_names.specs.Names.{Grown};
ghost use Rattle.representations.specs.Named.{AreNamed};
ghost use Rattle.representations.specs.Behind.{AreBehind};
ghost use Rattle.redefine_names.specs.VersionNames as versions;
ghost use Rattle.redefine_names.specs.Redirections.{redirection_at};
ghost use Rattle.redefine_names.specs.Renamed as spec;
ghost use Rattle.redefine_names.specs.inside.Tables as inside;

use crate::names::{add_versions, version_at};
use crate::redirections::{Redirection, redirections};
use crate::references::redirected;
use crate::tables::{at_place, none_of};
use representations::{Representation, Represented};
use std::alloc::{AllocError, Global};
use xs_lists::Listed;
use xs_names::{NameId, Names};

// A component under another name.
fn rename(name: NameId, form: Represented) -> Represented
    ensures { result ≡ spec.named_by name form }
{
    match form {
        Represented::SimpleType { finals, .. } => Represented::SimpleType {
            name: Some(name),
            finals,
        },
        Represented::ComplexType(mut head) => {
            head.name = Some(name);
            Represented::ComplexType(head)
        }
        Represented::Group { .. } => Represented::Group { name },
        Represented::AttributeGroup { .. } => Represented::AttributeGroup { name },
        _ => form,
    }
}

// The same where it is given one.
fn named(name: Option<NameId>, form: Represented) -> Represented
    ensures { result ≡ spec.named name form }
{
    match name {
        None => form,
        Some(name) => rename(name, form),
    }
}

// A representation under a name and with a redirection.
fn renamed_as(
    alloc: Global,
    name: Option<NameId>,
    redirection: Option<Redirection>,
    rep: Representation,
) -> Result<Representation, AllocError>
    ensures { IfOk result (λ made. made ≡ spec.renamed_as name redirection rep) }
{
    let Representation {
        at,
        scope,
        min,
        max,
        members,
        form,
    } = rep;
    let form = named(name, redirected(alloc, redirection, form)?);
    Ok(Representation {
        at,
        scope,
        min,
        max,
        members,
        form,
    })
}

// Puts the name of an original at its place.
fn put_name(
    alloc: Global,
    names: &Names,
    reps: &[Representation],
    original: Option<u32>,
    table: &mut [Option<NameId>],
) -> Result<(), AllocError>
    requires named { AreNamed names.now reps.now }
    ensures many { length table.new ≡ length table.old }
    ensures put { OnOk result ((place : ℕ) → place < length table.old → slice_index_or table.new place None
        ≡ (if spec.is_place place original then versions.version_at names.now reps.now place else slice_index_or table.old place None)) }
{
    let Some(place) = original else {
        return Ok(());
    };
    let name = version_at(alloc, names, reps, place)?;
    if (place as usize) < table.len() {
        table[place as usize] = name;
    }
    Ok(())
}

// The names of originals, by their places.
fn original_names(
    alloc: Global,
    names: &Names,
    reps: &[Representation],
    originals: &[Option<u32>],
) -> Result<Vec<Option<NameId>>, AllocError>
    requires named { AreNamed names.now reps.now }
    ensures { IfOk result (λ table. (place : ℕ) → place < length reps.now → slice_index_or table.items place None ≡ spec.original_name names.now reps.now originals.now place) }
{
    let mut table = none_of(alloc, reps.len())?;
    for original in originals {
        put_name(alloc, names, reps, *original, table.as_mut_slice())?;
    }
    Ok(table)
}

// The names of originals and the redirections, by places.
#[derive(Drop)]
struct Renaming {
    names: Vec<Option<NameId>>,
    redirections: Vec<Option<Redirection>>,
}

impl Renaming {
    fn of(
        alloc: Global,
        names: &mut Names,
        reps: &[Representation],
        originals: &[Option<u32>],
    ) -> Result<Renaming, AllocError>
        requires named { AreNamed names.old reps.now }
        requires behind { AreBehind reps.now }
        ensures table { OnOk result (names.new ≡ versions.with_versions names.old reps.now originals.now) }
        ensures names { IfOk result (λ made. (place : ℕ) → place < length reps.now → slice_index_or made.names.items place None ≡ spec.original_name names.new reps.now originals.now place) }
        ensures redirections { IfOk result (λ made. (place : ℕ) → place < length reps.now → slice_index_or made.redirections.items place None ≡ redirection_at names.new reps.now originals.now place) }
        ensures grown { Grown names.old names.new }
    {
        add_versions(alloc, names, reps, originals)?;
        Ok(Renaming {
            names: original_names(alloc, names, reps, originals)?,
            redirections: redirections(alloc, names, reps, originals)?,
        })
    }

    // All representations renamed.
    fn rename_all(
        &self,
        alloc: Global,
        reps: Listed<Representation>,
    ) -> Result<Listed<Representation>, AllocError>
        ensures { IfOk result (λ made. made ≡ inside.renamed_by self.now.names.items self.now.redirections.items 0 reps) }
    {
        let mut made = Listed::new(alloc);
        for rep in reps.into_vec() {
            let name = at_place(self.names.as_slice(), made.len());
            let redirection = at_place(self.redirections.as_slice(), made.len());
            made.push(renamed_as(alloc, name, redirection, rep)?)?;
        }
        Ok(made)
    }
}

/// The representations of a schema set with the versions of redefined components apart (Structures 4.2.2): an original gets a name of
/// its own, which no document can write, and what redefines it refers to it by this name. The original of each representation that
/// redefines a component comes by its place. The names of originals come into the table behind the others.
///
/// # Errors
///
/// `AllocError` is want of memory. Names may have come into the table then.
pub fn name_versions(
    alloc: Global,
    names: &mut Names,
    reps: Listed<Representation>,
    originals: &[Option<u32>],
) -> Result<Listed<Representation>, AllocError>
    requires named { AreNamed names.old reps }
    requires behind { AreBehind reps }
    ensures table { OnOk result (names.new ≡ versions.with_versions names.old reps originals.now) }
    ensures renamed { IfOk result (λ made. made ≡ spec.renamed names.new reps originals.now) }
    ensures named { IfOk result (AreNamed names.new) }
    ensures grown { Grown names.old names.new }
{
    let renaming = Renaming::of(alloc, names, reps.as_slice(), originals)?;
    renaming.rename_all(alloc, reps)
}
