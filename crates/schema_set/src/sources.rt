ghost use Rattle.std.specs.Prelude.{◌≡◌, ◌<◌, ◌^◌, ℕ, List, None, Some, length, if◌then◌else◌, IfOk, IfSome, OnOk};
ghost use Rattle.std.specs.List.{list_any};
ghost use Rattle.std.specs.Map.{update};
ghost use Rattle.std.specs.Option.{option_or};
ghost use Rattle.std.specs.Str.{bytes_eq};
ghost use Rattle.std.specs.HashMap.{get_by_text};
ghost use Rattle.xs_names.specs.WhiteSpace.{collapsed};
ghost use Rattle.schema_set.specs.EffectiveSet.{document_at};
ghost use Rattle.schema_set.specs.Order.{IsNumber};
ghost use Rattle.schema_set.specs.Sourced as spec;

use crate::Available;
use crate::targets::{own_target, target_place};
use std::alloc::{AllocError, Global};
use std::collections::HashMap;
use xs_names::{Text, WhiteSpace, normalized};

/// The documents that there are, and where a location and a target namespace lead.
#[derive(Drop)]
pub struct Sources<'a> {
    pub alloc: Global,
    pub available: &'a [Available],
    // Of each document how many stand before the first with its target namespace.
    pub(crate) places: Vec<u32>,
    // By location, with its white space collapsed, the number of the first document that has it.
    pub(crate) numbers: HashMap<String, u32>,
}

// The places of the target namespaces of all documents.
fn own_places(alloc: Global, available: &[Available]) -> Result<Vec<u32>, AllocError>
    requires few { length available.now < 2 ^ 16 }
    ensures { IfOk result (λ places. places.items ≡ spec.own_places available.now available.now) }
{
    let mut places = Vec::new(alloc);
    for document in available {
        let place = target_place(available, own_target(&document.shaped));
        places.push(place as u32)?;
    }
    Ok(places)
}

// The number that a text has.
fn number_of(numbers: &HashMap<String, u32>, key: &str) -> Option<u32>
    ensures { result ≡ get_by_text numbers.now key.now }
{
    numbers.get(key).copied()
}

// Gives a text a number.
fn put(
    alloc: Global,
    numbers: &mut HashMap<String, u32>,
    key: &str,
    number: u32,
) -> Result<(), AllocError>
    ensures { OnOk result ((q : List ℕ) → get_by_text numbers.new q ≡ update bytes_eq (get_by_text numbers.old) key.now (Some number) q) }
{
    let text = String::from_str(alloc, key)?;
    numbers.insert(text, number)?;
    Ok(())
}

// Gives a text a number, unless it has one.
fn note(
    alloc: Global,
    numbers: &mut HashMap<String, u32>,
    key: &str,
    number: u32,
) -> Result<(), AllocError>
    ensures { OnOk result ((q : List ℕ) → get_by_text numbers.new q
        ≡ option_or (get_by_text numbers.old q) (if bytes_eq key.now q then Some number else None)) }
{
    match number_of(numbers, key) {
        Some(_) => Ok(()),
        None => {
            put(alloc, numbers, key, number)?;
            Ok(())
        },
    }
}

// Notes that the document of this number has a location, unless an earlier one has it.
fn note_location(
    alloc: Global,
    numbers: &mut HashMap<String, u32>,
    location: &Text,
    number: u32,
) -> Result<(), AllocError>
    ensures { OnOk result ((q : List ℕ) → get_by_text numbers.new q
        ≡ option_or (get_by_text numbers.old q) (if bytes_eq (collapsed location.now) q then Some number else None)) }
{
    let key = normalized(alloc, WhiteSpace::Collapse, location.as_str())?;
    note(alloc, numbers, key.as_str(), number)?;
    Ok(())
}

// Notes the locations of the document of this number.
fn note_locations(
    alloc: Global,
    numbers: &mut HashMap<String, u32>,
    locations: &[Text],
    number: u32,
) -> Result<(), AllocError>
    ensures { OnOk result ((q : List ℕ) → get_by_text numbers.new q
        ≡ option_or (get_by_text numbers.old q) (if list_any (λ other. bytes_eq (collapsed other) q) locations.now then Some number else None)) }
{
    for location in locations {
        note_location(alloc, numbers, location, number)?;
    }
    Ok(())
}

// The number of the first document of each location.
fn location_numbers(
    alloc: Global,
    available: &[Available],
) -> Result<HashMap<String, u32>, AllocError>
    requires few { length available.now < 2 ^ 16 }
    ensures { IfOk result (λ numbers. (location : List ℕ) → get_by_text numbers (collapsed location) ≡ document_at available.now location) }
{
    let mut numbers = HashMap::new(alloc);
    let mut number = 1;
    for document in available {
        note_locations(alloc, &mut numbers, document.locations.as_slice(), number)?;
        number += 1;
    }
    Ok(numbers)
}

impl<'a> Sources<'a> {
    /// Of these documents.
    ///
    /// # Errors
    ///
    /// `AllocError` is want of memory.
    pub fn new(alloc: Global, available: &'a [Available]) -> Result<Self, AllocError>
        requires some { 0 < length available.now }
        requires few { length available.now < 2 ^ 16 }
        ensures sources { IfOk result spec.AreSources }
        ensures same { IfOk result (λ sources. sources.available.now ≡ available.now) }
    {
        let places = own_places(alloc, available)?;
        let numbers = location_numbers(alloc, available)?;
        Ok(Sources {
            alloc,
            available,
            places,
            numbers,
        })
    }

    /// The number of the first document that has a location (Structures 4.2.1), the white space of both collapsed.
    ///
    /// # Errors
    ///
    /// `AllocError` is want of memory.
    pub fn find(&self, location: &str) -> Result<Option<u32>, AllocError>
        requires { spec.AreSources self.now }
        ensures found { IfOk result (λ found. found ≡ document_at self.now.available.now location.now) }
        ensures number { IfOk result (λ found. IfSome found (IsNumber self.now.available.now)) }
    {
        let key = normalized(self.alloc, WhiteSpace::Collapse, location)?;
        Ok(number_of(&self.numbers, key.as_str()))
    }
}
