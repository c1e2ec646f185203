ghost use Rattle.std.specs.Prelude.{◌≡◌, ℕ, List, None, Some, map, if◌then◌else◌, IfOk, OnOk};
ghost use Rattle.std.specs.List.{find};
ghost use Rattle.std.specs.Option.{option_map, option_or};
ghost use Rattle.std.specs.Str.{bytes_eq};
ghost use Rattle.redefine_originals.specs.Versions as spec;
ghost use Rattle.redefine_originals.specs.inside.Entries.{version_entry};
ghost use Rattle.redefine_originals.specs.inside.Named.{found};

use crate::versions::{Redefinable, Version, declared_as, is_same_kind};
use std::alloc::{AllocError, Global};
use std::collections::HashMap;

/// Versions by their names. Of several for one name the first that was noted counts.
#[derive(Drop)]
pub(crate) struct NamedVersions<'a> {
    inner: HashMap<&'a str, Version<'a>>,
}

impl<'a> NamedVersions<'a> {
    /// No versions.
    pub(crate) fn new(alloc: Global) -> Self
        ensures { (q : List ℕ) → found result q ≡ None }
    {
        NamedVersions {
            inner: HashMap::new(alloc),
        }
    }

    /// The version of a name.
    pub(crate) fn find(&self, name: &str) -> Option<Version<'a>>
        ensures { option_map version_entry result ≡ found self.now name.now }
    {
        match self.inner.get(name) {
            None => None,
            Some(version) => Some(*version),
        }
    }

    /// Notes the version of a name, unless one was noted.
    pub(crate) fn note(&mut self, name: &'a str, version: Version<'a>) -> Result<(), AllocError>
        ensures { OnOk result ((q : List ℕ) → found self.new q ≡ option_or (found self.old q) (if bytes_eq name.now q then Some (version_entry version.entry) else None)) }
    {
        match self.find(name) {
            Some(_) => Ok(()),
            None => {
                self.inner.insert(name, version)?;
                Ok(())
            },
        }
    }
}

// Notes a version, if it is one of a component of this kind.
fn note_if<'a>(
    named: &mut NamedVersions<'a>,
    kind: Redefinable,
    version: Version<'a>,
) -> Result<(), AllocError>
    ensures { OnOk result ((q : List ℕ) → found named.new q
        ≡ option_or (found named.old q) (if spec.declares kind q version.entry.shape.now then Some (version_entry version.entry) else None)) }
{
    match declared_as(&version.shape.form) {
        None => Ok(()),
        Some(declared) => {
            if is_same_kind(kind, declared.kind) {
                named.note(declared.name.as_str(), version)
            } else {
                Ok(())
            }
        },
    }
}

/// The versions of components of a kind, by their names. Of several for one name the first counts.
pub(crate) fn named_versions<'a>(
    alloc: Global,
    kind: Redefinable,
    versions: &[Version<'a>],
) -> Result<NamedVersions<'a>, AllocError>
    ensures { IfOk result (λ named. (q : List ℕ) → found named q ≡ find (λ v. spec.declares kind q v.shape) (map version_entry versions.now)) }
{
    let mut named = NamedVersions::new(alloc);
    for version in versions {
        note_if(&mut named, kind, *version)?;
    }
    Ok(named)
}
