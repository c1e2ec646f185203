ghost use Rattle.std.specs.Prelude.{◌≡◌, ◌<◌, ◌^◌, ◌++◌, ℕ, List, Some, length, map, IfOk, OnOk};
ghost use Rattle.std.specs.List.{AllZip};
ghost use Rattle.schema_set.specs.declared.documents.SetDocument.{SetDocument};
ghost use Rattle.redefine_originals.specs.Indexed.{AreIndexed};
ghost use Rattle.redefine_originals.specs.inside.Entries.{child_entry};
ghost use Rattle.schema_shape.specs.declared.forms.Shape.{Shape};
ghost use Rattle.redefine_originals.specs.Originals as spec;
ghost use Rattle.redefine_originals.specs.inside.Numbered.{child_found};
ghost use Rattle.redefine_originals.specs.inside.Places.{ArePlaces};

use crate::numbered::{NumberedChildren, numbered_children};
use crate::places::SetPlaces;
use crate::{Child, Originals, declared_as, redefining};
use schema_set::{Available, SetDocument, Sources};
use std::alloc::{AllocError, Global};
use xs_names::Text;

// So many documents have numbers.
const MOST: usize = 65535;

// The place of the original of what stands in a redefine.
fn child_place(
    index: &Originals<'_>,
    places: &SetPlaces<'_, '_>,
    target: &Option<Text>,
    child: Child<'_>,
) -> Result<Option<u32>, AllocError>
    requires index { AreIndexed index.now }
    requires places { ArePlaces places.now }
    ensures { IfOk result (spec.IsChildPlace index.now.sources.available.now places.now.set.now target.now (Some (child_entry child.entry))) }
{
    let Some(declared) = declared_as(&child.shape.form) else {
        return Ok(None);
    };
    let location = child.location.as_str();
    let name = declared.name.as_str();
    match index.original(location, declared.kind, name)? {
        None => Ok(None),
        Some(version) => Ok(places.find(target, version.document, version.shape.item)),
    }
}

// The place of the original of an element of a document, where it stands in a redefine.
fn element_place(
    index: &Originals<'_>,
    places: &SetPlaces<'_, '_>,
    target: &Option<Text>,
    children: &NumberedChildren<'_>,
    item: u32,
) -> Result<Option<u32>, AllocError>
    requires index { AreIndexed index.now }
    requires places { ArePlaces places.now }
    ensures { IfOk result (spec.IsChildPlace index.now.sources.available.now places.now.set.now target.now (child_found children.now item)) }
{
    match children.find(item) {
        None => Ok(None),
        Some(child) => child_place(index, places, target, child),
    }
}

// Puts the places of the originals of the elements of a document behind others.
fn add_elements(
    index: &Originals<'_>,
    places: &SetPlaces<'_, '_>,
    document: &SetDocument<'_>,
    children: &NumberedChildren<'_>,
    originals: &mut Vec<Option<u32>>,
) -> Result<(), AllocError>
    requires index { AreIndexed index.now }
    requires places { ArePlaces places.now }
    requires children { (item : ℕ) → child_found children.now item ≡ spec.child_of (spec.shapes_of document.now) item }
    ensures { OnOk result ((before : List (SetDocument × Shape)) → AllZip (spec.IsOriginalPlace index.now.sources.available.now places.now.set.now) before originals.old.items
        → AllZip (spec.IsOriginalPlace index.now.sources.available.now places.now.set.now) (before ++ map (λ s. (document.now, s)) (spec.shapes_of document.now)) originals.new.items) }
{
    for shape in document.shaped.shapes.as_slice() {
        let place = element_place(index, places, &document.target, children, shape.item)?;
        originals.push(place)?;
    }
    Ok(())
}

// What stands in the redefines of a document, by the numbers of elements.
fn document_children<'a>(
    alloc: Global,
    document: &SetDocument<'a>,
) -> Result<NumberedChildren<'a>, AllocError>
    ensures { IfOk result (λ children. (item : ℕ) → child_found children item ≡ spec.child_of (spec.shapes_of document.now) item) }
{
    let children = redefining(alloc, document.shaped.shapes.as_slice())?;
    numbered_children(alloc, children.as_slice())
}

// The same, where what stands in its redefines is not known yet.
fn add_document(
    index: &Originals<'_>,
    places: &SetPlaces<'_, '_>,
    document: &SetDocument<'_>,
    originals: &mut Vec<Option<u32>>,
) -> Result<(), AllocError>
    requires index { AreIndexed index.now }
    requires places { ArePlaces places.now }
    ensures { OnOk result ((before : List (SetDocument × Shape)) → AllZip (spec.IsOriginalPlace index.now.sources.available.now places.now.set.now) before originals.old.items
        → AllZip (spec.IsOriginalPlace index.now.sources.available.now places.now.set.now) (before ++ map (λ s. (document.now, s)) (spec.shapes_of document.now)) originals.new.items) }
{
    let children = document_children(index.sources.alloc, document)?;
    add_elements(index, places, document, &children, originals)
}

// The places of the originals of the elements of a set.
fn originals_of(
    index: &Originals<'_>,
    places: &SetPlaces<'_, '_>,
) -> Result<Vec<Option<u32>>, AllocError>
    requires index { AreIndexed index.now }
    requires places { ArePlaces places.now }
    ensures { IfOk result (λ originals. spec.AreOriginals index.now.sources.available.now places.now.set.now originals.items) }
{
    let mut originals = Vec::new(index.sources.alloc);
    for document in places.set {
        add_document(index, places, document, &mut originals)?;
    }
    Ok(originals)
}

/// The place of the original of each element of the documents of a set that redefines a component (Structures 4.2.2), by the places
/// of these elements: document by document, in document order.
///
/// # Errors
///
/// `AllocError` is want of memory, or of places: there are 65,535 documents at most, and a set has at most 2 to the power of 32
/// elements.
pub fn set_originals(
    alloc: Global,
    available: &[Available],
    set: &[SetDocument<'_>],
) -> Result<Vec<Option<u32>>, AllocError>
    requires some { 0 < length available.now }
    ensures originals { IfOk result (λ originals. spec.AreOriginals available.now set.now originals.items) }
{
    if available.len() > MOST {
        return Err(AllocError);
    }
    let sources = Sources::new(alloc, available)?;
    let index = Originals::new(sources)?;
    let places = SetPlaces::new(alloc, set)?;
    originals_of(&index, &places)
}
