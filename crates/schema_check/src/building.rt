ghost use Rattle.std.specs.Prelude.{◌≡◌, IfOk, OnOk};
ghost use Rattle.xs_names.specs.Names.{Grown};
ghost use Rattle.xs_codes.specs.Least.{IsLeast};
ghost use Rattle.representations.specs.Behind.{AreBehind};
ghost use Rattle.representations.specs.Named.{AreNamed};
ghost use Rattle.representations.specs.Names as symbols;
ghost use Rattle.set_representations.specs.Documents.{set_table};
ghost use Rattle.redefine_names.specs.VersionNames.{with_versions};
ghost use Rattle.redefine_names.specs.Renamed.{renamed};
ghost use Rattle.build_components.specs.Built.{built};
ghost use Rattle.redefine_names.specs.Groups.{AreRedefined};
ghost use Rattle.schema_check.specs.Components as spec;

use redefine_names::{
    RedefinedGroups, first_shared, name_versions, names_alone_change, redefined_groups,
};
use reference_faults::first_fault;
use representations::{Origin, Representation, Source, spaces_of};
use schema_set::EffectiveSet;
use set_representations::{RepresentedSet, represent};
use std::alloc::{AllocError, Global};
use xs_codes::{Fault, sooner};
use xs_components::Components;
use xs_names::{Names, Scope};

/// The components of a schema set, and the groups and attribute groups that redefine others without a reference to themselves.
#[derive(Drop)]
pub struct BuiltSet {
    pub parts: Components,
    pub redefined: RedefinedGroups,
}

// The first fault of names and references, and of originals.
fn first_of_both(
    alloc: Global,
    names: &Names,
    origins: &[Origin],
    source: &Source,
    originals: &[Option<u32>],
) -> Result<Option<Fault>, AllocError>
    requires spaces { source.now.spaces.now ≡ symbols.spaces_of source.now.reps.now }
    requires named { AreNamed names.now source.now.reps.now }
    ensures least { IfOk result (IsLeast (spec.IsFault names.now origins.now source.now.reps.now originals.now)) }
{
    let shared = first_shared(alloc, source.reps, originals)?;
    let broken = first_fault(alloc, names, source, origins)?;
    Ok(sooner(shared, broken))
}

// The components of what is represented, with what redefines others without a reference to itself.
fn build_parts(
    alloc: Global,
    source: &Source,
    originals: &[Option<u32>],
) -> Result<BuiltSet, AllocError>
    requires behind { AreBehind source.now.reps.now }
    ensures parts { IfOk result (λ made. made.parts ≡ built source.now) }
    ensures redefined { IfOk result (λ made. AreRedefined source.now.reps.now originals.now made.redefined) }
{
    let redefined = redefined_groups(alloc, source.reps, originals)?;
    let parts = build_components::build(alloc, source)?;
    Ok(BuiltSet { parts, redefined })
}

// The components of what is represented, or the first fault of names and references.
fn build_source(
    alloc: Global,
    names: &Names,
    origins: &[Origin],
    source: &Source,
    originals: &[Option<u32>],
) -> Result<Result<BuiltSet, Fault>, AllocError>
    requires spaces { source.now.spaces.now ≡ symbols.spaces_of source.now.reps.now }
    requires named { AreNamed names.now source.now.reps.now }
    requires behind { AreBehind source.now.reps.now }
    ensures made { IfOk result (spec.IsMade names.now origins.now source.now.reps.now originals.now source.now.scopes.now) }
{
    match first_of_both(alloc, names, origins, source, originals)? {
        Some(fault) => Ok(Err(fault)),
        None => {
            let built = build_parts(alloc, source, originals)?;
            Ok(Ok(built))
        },
    }
}

// The same of what documents are read as, the versions of redefined components apart.
fn build_versions(
    alloc: Global,
    names: &Names,
    origins: &[Origin],
    reps: &[Representation],
    originals: &[Option<u32>],
    scopes: &[Scope],
) -> Result<Result<BuiltSet, Fault>, AllocError>
    requires named { AreNamed names.now reps.now }
    requires behind { AreBehind reps.now }
    ensures made { IfOk result (spec.IsMade names.now origins.now reps.now originals.now scopes.now) }
{
    let spaces = spaces_of(alloc, reps)?;
    let source = Source {
        reps,
        spaces: &spaces,
        scopes,
    };
    build_source(alloc, names, origins, &source, originals)
}

// The same of what documents are read as.
fn build_read(
    alloc: Global,
    names: &mut Names,
    read: RepresentedSet,
    originals: &[Option<u32>],
) -> Result<Result<BuiltSet, Fault>, AllocError>
    requires named { AreNamed names.old read.reps }
    requires behind { AreBehind read.reps }
    ensures table { OnOk result (names.new ≡ with_versions names.old read.reps originals.now) }
    ensures made { IfOk result (spec.IsMade names.new read.origins (renamed names.new read.reps originals.now) originals.now read.scopes) }
    ensures grown { Grown names.old names.new }
{
    let RepresentedSet {
        reps,
        scopes,
        origins,
    } = read;
    names_alone_change();
    let versions = name_versions(alloc, names, reps, originals)?;
    build_versions(
        alloc,
        names,
        origins.as_slice(),
        versions.as_slice(),
        originals,
        scopes.as_slice(),
    )
}

/// The components of a schema set (Structures 3.15.1) with the groups and attribute groups that redefine others without a reference
/// to themselves, or its first fault of names and references: by document, then element, then the order of the codes. The original
/// of each element that redefines a component comes by its place among the elements of the set. The names that stand in the documents
/// come into the table, in the order of the documents, and those of originals behind them.
///
/// # Errors
///
/// `AllocError` is want of memory, or of places: a set has at most 2 to the power of 32 elements. Names may have come into the
/// table then.
pub fn build(
    alloc: Global,
    names: &mut Names,
    set: &EffectiveSet<'_>,
    originals: &[Option<u32>],
) -> Result<Result<BuiltSet, Fault>, AllocError>
    ensures table { OnOk result (names.new ≡ spec.all_names (set_table names.old set.now.documents) set.now.documents originals.now) }
    ensures built { IfOk result (spec.IsBuilt (set_table names.old set.now.documents) set.now.documents originals.now) }
    ensures grown { Grown names.old names.new }
{
    let read = represent(alloc, names, set.documents.as_slice())?;
    build_read(alloc, names, read, originals)
}
