ghost use Rattle.std.specs.Prelude.{◌≡◌, ◌+◌, ◌≤◌, ◌==◌, ℕ, None, Some, length, if◌then◌else◌, IfOk, OnOk};
ghost use Rattle.std.specs.List.{position_from};
ghost use Rattle.std.specs.Option.{option_or};
ghost use Rattle.redefine_originals.specs.Originals as spec;
ghost use Rattle.redefine_originals.specs.inside.Places as inside;

use crate::NumberedLists;
use schema_set::{SetDocument, is_same};
use schema_shape::Shape;
use std::alloc::{AllocError, Global};
use std::collections::HashMap;
use xs_names::Text;

/// The places of the elements of a document, by their numbers. Of several of one number the first that was noted counts.
#[derive(Drop)]
pub(crate) struct DocumentPlaces {
    inner: HashMap<u32, u32>,
}

impl DocumentPlaces {
    /// No places.
    fn new(alloc: Global) -> Self
        ensures { (item : ℕ) → inside.place_found result item ≡ None }
    {
        DocumentPlaces {
            inner: HashMap::new(alloc),
        }
    }

    /// The place of the element of a number.
    fn find(&self, item: u32) -> Option<u32>
        ensures { result ≡ inside.place_found self.now item }
    {
        self.inner.get(&item).copied()
    }

    /// Notes the place of an element, unless an earlier one has its number.
    fn note(&mut self, item: u32, place: u32) -> Result<(), AllocError>
        ensures { OnOk result ((other : ℕ) → inside.place_found self.new other ≡ option_or (inside.place_found self.old other) (if item == other then Some place else None)) }
    {
        match self.find(item) {
            Some(_) => Ok(()),
            None => {
                self.inner.insert(item, place)?;
                Ok(())
            },
        }
    }
}

// The places of the elements of a document, which begin here.
fn document_places(
    alloc: Global,
    place: u32,
    shapes: &[Shape],
) -> Result<DocumentPlaces, AllocError>
    requires fits { place + length shapes.now ≤ u32.MAX }
    ensures { IfOk result (inside.HasPlaces place shapes.now) }
{
    let mut places = DocumentPlaces::new(alloc);
    let mut at = place;
    for shape in shapes {
        places.note(shape.item, at)?;
        at += 1;
    }
    Ok(places)
}

/// A document of a set: its target namespace there, and the places of its elements.
#[derive(Drop)]
pub(crate) struct PlacedDocument<'s> {
    target: &'s Option<Text>,
    places: DocumentPlaces,
}

/// The documents of a set, and the places of their elements: document by document, in document order.
#[derive(Drop)]
pub(crate) struct SetPlaces<'s, 'a> {
    pub(crate) set: &'s [SetDocument<'a>],
    // By the numbers of documents. One that is in the set with two target namespaces stands twice.
    documents: NumberedLists<PlacedDocument<'s>>,
}

impl<'s, 'a> SetPlaces<'s, 'a> {
    /// Of these documents.
    ///
    /// # Errors
    ///
    /// `AllocError` is want of memory, or of places: there are 2 to the power of 32.
    pub(crate) fn new(alloc: Global, set: &'s [SetDocument<'a>]) -> Result<Self, AllocError>
        ensures places { IfOk result inside.ArePlaces }
        ensures same { IfOk result (λ places. places.set.now ≡ set.now) }
    {
        let mut documents = NumberedLists::new(alloc);
        let mut place = 0;
        for d in set {
            let shapes = d.shaped.shapes.as_slice();
            if shapes.len() > (u32::MAX - place) as usize {
                return Err(AllocError);
            }
            let places = document_places(alloc, place, shapes)?;
            let target = &d.target;
            documents.push(d.number, PlacedDocument { target, places })?;
            place += shapes.len() as u32;
        }
        Ok(SetPlaces { set, documents })
    }

    /// The place of the element of a number in the document of a number that has this target namespace in the set.
    pub(crate) fn find(&self, target: &Option<Text>, document: u32, item: u32) -> Option<u32>
        requires { inside.ArePlaces self.now }
        ensures { result ≡ spec.version_place 0 self.now.set.now target.now document item }
    {
        for d in self.documents.get(document) {
            if is_same(d.target.as_ref(), target.as_ref()) {
                return d.places.find(item);
            }
        }
        None
    }
}
