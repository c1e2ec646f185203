ghost use Rattle.std.specs.Prelude.{◌≡◌, ℕ, List, ◌++◌, map, IfOk, OnOk};
ghost use Rattle.std.specs.Option.{option_map, option_to_list, option_or};
ghost use Rattle.std.specs.List.{find, flat_map};
ghost use Rattle.redefine_originals.specs.Versions as spec;
ghost use Rattle.redefine_originals.specs.inside.Entries.{child_entry, version_entry};
ghost use Rattle.redefine_originals.specs.inside.DocumentVersions as inside;

use crate::children::redefining;
use crate::inside::inside;
use crate::named::{NamedVersions, named_versions};
use crate::versions::{Child, Redefinable, Version};
use schema_shape::Shape;
use std::alloc::{AllocError, Global};
use xs_lists::Listed;

/// The versions that a document has of components, by their kinds and names.
#[derive(Drop)]
pub(crate) struct DocumentVersions<'a> {
    types: NamedVersions<'a>,
    groups: NamedVersions<'a>,
    attribute_groups: NamedVersions<'a>,
}

// Puts what stands in the redefines of a document to its versions.
fn put_redefining<'a>(
    document: u32,
    children: &[Child<'a>],
    versions: &mut Listed<Version<'a>>,
) -> Result<(), AllocError>
    ensures { OnOk result (map version_entry versions.new ≡ map version_entry versions.old ++ map (spec.in_redefine document) (map child_entry children.now)) }
{
    for child in children {
        versions.push(Version {
            document,
            location: Some(child.location),
            shape: child.shape,
        })?;
    }
    Ok(())
}

// Puts what stands at the top of a document to its versions.
fn put_top<'a>(
    document: u32,
    top: &[&'a Shape],
    versions: &mut Listed<Version<'a>>,
) -> Result<(), AllocError>
    ensures { OnOk result (map version_entry versions.new ≡ map version_entry versions.old ++ map (spec.on_top document) (map (λ s. s.now) top.now)) }
{
    for shape in top {
        versions.push(Version {
            document,
            location: None,
            shape,
        })?;
    }
    Ok(())
}

// What stands at the top of a document.
fn at_top(alloc: Global, shapes: &[Shape]) -> Result<Listed<&Shape>, AllocError>
    ensures { IfOk result (λ found. map (λ s. s.now) found ≡ spec.at_top shapes.now) }
{
    match shapes.get(0) {
        None => Ok(Listed::new(alloc)),
        Some(schema) => inside(alloc, shapes, schema),
    }
}

// The versions that the document of this number has: what stands in its redefines, then what stands at its top.
fn versions_of(
    alloc: Global,
    document: u32,
    shapes: &[Shape],
) -> Result<Listed<Version<'_>>, AllocError>
    ensures { IfOk result (λ versions. map version_entry versions ≡ inside.all_versions document shapes.now) }
{
    let children = redefining(alloc, shapes)?;
    let top = at_top(alloc, shapes)?;
    let mut versions = Listed::new(alloc);
    put_redefining(document, children.as_slice(), &mut versions)?;
    put_top(document, top.as_slice(), &mut versions)?;
    Ok(versions)
}

impl<'a> DocumentVersions<'a> {
    /// The versions that the document of this number has.
    pub(crate) fn new(alloc: Global, document: u32, shapes: &'a [Shape]) -> Result<Self, AllocError>
        ensures { IfOk result (inside.HasVersions document shapes.now) }
    {
        let all = versions_of(alloc, document, shapes)?;
        let types = named_versions(alloc, Redefinable::Type, all.as_slice())?;
        let groups = named_versions(alloc, Redefinable::Group, all.as_slice())?;
        let attribute_groups = named_versions(alloc, Redefinable::AttributeGroup, all.as_slice())?;
        Ok(DocumentVersions {
            types,
            groups,
            attribute_groups,
        })
    }

    /// The version of a component of this kind and name.
    pub(crate) fn find(&self, kind: Redefinable, name: &str) -> Option<Version<'a>>
        ensures { option_map version_entry result ≡ inside.version_found self.now kind name.now }
    {
        match kind {
            Redefinable::Type => self.types.find(name),
            Redefinable::Group => self.groups.find(name),
            Redefinable::AttributeGroup => self.attribute_groups.find(name),
        }
    }
}
