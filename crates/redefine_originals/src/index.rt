ghost use Rattle.std.specs.Prelude.{◌≡◌, ◌+◌, ◌-◌, ◌<◌, ◌^◌, ℕ, List, ◌∷◌, [], Some, All, length, slice_get, IfOk};
ghost use Rattle.std.specs.Option.{option_map};
ghost use Rattle.schema_set.specs.Order.{IsNumber};
ghost use Rattle.schema_set.specs.Sourced.{AreSources};
ghost use Rattle.redefine_originals.specs.Versions as spec;
ghost use Rattle.redefine_originals.specs.inside.Entries.{version_entry};
ghost use Rattle.redefine_originals.specs.inside.Orders as orders;
ghost use Rattle.redefine_originals.specs.Indexed as indexed;

use crate::document_versions::DocumentVersions;
use crate::orders::all_orders;
use crate::versions::{Redefinable, Version};
use schema_set::{Available, Sources};
use std::alloc::{AllocError, Global};

/// Where the originals of redefined components are found: the versions that all documents have, by kind and name, and in which order
/// the documents are looked through.
#[derive(Drop)]
pub struct Originals<'a> {
    pub sources: Sources<'a>,
    // Of each document its versions.
    pub(crate) versions: Vec<DocumentVersions<'a>>,
    // Of each document those to look through from it on.
    pub(crate) orders: Vec<Vec<u32>>,
}

// The versions that each document has.
fn all_versions<'a>(
    alloc: Global,
    available: &'a [Available],
) -> Result<Vec<DocumentVersions<'a>>, AllocError>
    requires few { length available.now < 2 ^ 16 }
    ensures { IfOk result (λ versions. indexed.AreVersions available.now versions.items) }
{
    let mut versions = Vec::new(alloc);
    let mut number = 1;
    for document in available {
        let own = DocumentVersions::new(alloc, number, document.shaped.shapes.as_slice())?;
        versions.push(own)?;
        number += 1;
    }
    Ok(versions)
}

impl<'a> Originals<'a> {
    /// Of the components of these documents.
    ///
    /// # Errors
    ///
    /// `AllocError` is want of memory.
    pub fn new(sources: Sources<'a>) -> Result<Self, AllocError>
        requires sources { AreSources sources }
        ensures index { IfOk result indexed.AreIndexed }
        ensures same { IfOk result (λ index. index.sources.available.now ≡ sources.entry.available.now) }
    {
        let versions = all_versions(sources.alloc, sources.available)?;
        let orders = all_orders(&sources)?;
        Ok(Originals {
            sources,
            versions,
            orders,
        })
    }

    // The version that the document of this number has of a component.
    fn version_at(&self, document: u32, kind: Redefinable, name: &str) -> Option<Version<'a>>
        requires index { indexed.AreIndexed self.now }
        requires document { IsNumber self.now.sources.available.now document }
        ensures { option_map version_entry result ≡ spec.version_at self.now.sources.available.now kind name.now document }
    {
        self.versions[document as usize - 1].find(kind, name)
    }

    // The first version of a component in documents that are looked through in this order.
    fn first_of(&self, order: &[u32], kind: Redefinable, name: &str) -> Option<Version<'a>>
        requires index { indexed.AreIndexed self.now }
        requires order { All (IsNumber self.now.sources.available.now) order.now }
        ensures { option_map version_entry result ≡ orders.first_of self.now.sources.available.now kind name.now order.now }
    {
        for document in order {
            match self.version_at(*document, kind, name) {
                Some(version) => return Some(version),
                None => {},
            }
        }
        None
    }

    // The first version of a component in a document and what it includes and redefines.
    fn first_version(&self, start: u32, kind: Redefinable, name: &str) -> Option<Version<'a>>
        requires index { indexed.AreIndexed self.now }
        requires start { IsNumber self.now.sources.available.now start }
        ensures { spec.Finds self.now.sources.available.now kind name.now (start ∷ []) [] (option_map version_entry result) }
    {
        let order = self.orders[start as usize - 1].as_slice();
        self.first_of(order, kind, name)
    }

    /// The original of what a redefine of this location holds, by its kind and name (Structures 4.2.2): the version that the
    /// redefined document has, which is its own redefining child or else its top declaration; else the first among the documents
    /// that this one includes and redefines, depth first. There is none where no document has the location.
    ///
    /// # Errors
    ///
    /// `AllocError` is want of memory.
    pub fn original(
        &self,
        location: &str,
        kind: Redefinable,
        name: &str,
    ) -> Result<Option<Version<'a>>, AllocError>
        requires index { indexed.AreIndexed self.now }
        ensures original { IfOk result (λ found. spec.IsOriginal self.now.sources.available.now location.now kind name.now (option_map version_entry found)) }
    {
        match self.sources.find(location)? {
            None => Ok(None),
            Some(start) => Ok(self.first_version(start, kind, name)),
        }
    }
}
