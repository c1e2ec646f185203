ghost use Rattle.std.specs.Prelude.{◌≡◌, ◌<◌, ◌≤◌, ◌+◌, ◌-◌, ◌*◌, ◌^◌, ◌++◌, length, filter_map, option_to_list, IfOk, OnOk};
ghost use Rattle.schema_set.specs.Order.{IsNumber, own_target_of, target_place};
ghost use Rattle.schema_set.specs.inside.Following as spec;
ghost use Rattle.schema_set.specs.Sourced.{AreSources};

use crate::sources::Sources;
use crate::targets::shaped_at;
use schema_shape::{Form, Shape};
use std::alloc::{AllocError, Global};
use xs_names::Text;

// The number of a document with the target namespace of a place, among so many.
fn with_place(count: u32, place: u32, number: u32) -> u32
    requires number { (0 < number) × (number ≤ count) }
    requires place { place < count }
    requires few { count < 2 ^ 16 }
    ensures { result ≡ (number - 1) * count + place }
{
    let before = number - 1;
    let row = before * count;
    row + place
}

// The document of a location with the target namespace of this place.
fn included(sources: &Sources<'_>, place: u32, location: &Text) -> Result<Option<u32>, AllocError>
    requires sources { AreSources sources.now }
    requires place { place < length sources.now.available.now }
    ensures { IfOk result (λ next. next ≡ spec.next_included sources.now.available.now place location.now) }
{
    match sources.find(location.as_str())? {
        None => Ok(None),
        Some(number) => Ok(Some((number - 1) * sources.available.len() as u32 + place)),
    }
}

// The place of the own target namespace of a document.
fn own_place(sources: &Sources<'_>, number: u32) -> u32
    requires sources { AreSources sources.now }
    requires number { IsNumber sources.now.available.now number }
    ensures place { result ≡ target_place sources.now.available.now (own_target_of sources.now.available.now number) }
    ensures within { result < length sources.now.available.now }
{
    let place = sources.places[number as usize - 1];
    place
}

// The number of a document with its own target namespace.
#[tactic(auto, using(crate::proofs::ReachLaws::own_within))]
pub(crate) fn own_number(sources: &Sources<'_>, number: u32) -> u32
    requires sources { AreSources sources.now }
    requires number { IsNumber sources.now.available.now number }
    ensures own { result ≡ spec.with_own sources.now.available.now number }
    ensures within { result < length sources.now.available.now * length sources.now.available.now }
{
    let place = own_place(sources, number);
    with_place(sources.available.len() as u32, place, number)
}

// The document of a location with its own target namespace.
fn imported(sources: &Sources<'_>, location: &Text) -> Result<Option<u32>, AllocError>
    requires sources { AreSources sources.now }
    ensures { IfOk result (λ next. next ≡ spec.next_imported sources.now.available.now location.now) }
{
    match sources.find(location.as_str())? {
        None => Ok(None),
        Some(number) => Ok(Some(own_number(sources, number))),
    }
}

// What an element leads to, in a document with the target namespace of this place.
fn next_of(sources: &Sources<'_>, place: u32, form: &Form) -> Result<Option<u32>, AllocError>
    requires sources { AreSources sources.now }
    requires place { place < length sources.now.available.now }
    ensures { IfOk result (λ next. next ≡ spec.next_of sources.now.available.now place form.now) }
{
    match form {
        Form::Include { location } => included(sources, place, location),
        Form::Redefine { location } => included(sources, place, location),
        Form::Import { location, .. } => match location {
            None => Ok(None),
            Some(location) => imported(sources, location),
        },
        _ => Ok(None),
    }
}

// Puts a number to others, if there is one.
fn push_next(found: &mut Vec<u32>, next: Option<u32>) -> Result<(), AllocError>
    ensures { OnOk result (found.new.items ≡ found.old.items ++ option_to_list next) }
{
    if let Some(next) = next {
        found.push(next)?;
    }
    Ok(())
}

// What elements lead to, in a document with the target namespace of this place.
fn following_of(sources: &Sources<'_>, place: u32, shapes: &[Shape]) -> Result<Vec<u32>, AllocError>
    requires sources { AreSources sources.now }
    requires place { place < length sources.now.available.now }
    ensures { IfOk result (λ next. next.items ≡ filter_map (λ shape. spec.next_of sources.now.available.now place shape.form) shapes.now) }
{
    let mut found = Vec::new(sources.alloc);
    for shape in shapes {
        let next = next_of(sources, place, &shape.form)?;
        push_next(&mut found, next)?;
    }
    Ok(found)
}

// The elements of the document at a place.
fn shapes_at<'a>(sources: &Sources<'a>, place: u32) -> &'a [Shape]
    requires { place < length sources.now.available.now }
    ensures { result.now ≡ spec.shapes_at sources.now.available.now place }
{
    shaped_at(sources.available, place as usize)
        .shapes
        .as_slice()
}

// What a document with a target namespace leads to.
#[tactic(auto, using(crate::proofs::ReachLaws::row_below, crate::proofs::ReachLaws::column_below))]
pub(crate) fn following(sources: &Sources<'_>, x: u32) -> Result<Vec<u32>, AllocError>
    requires sources { AreSources sources.now }
    requires there { x < length sources.now.available.now * length sources.now.available.now }
    ensures { IfOk result (λ next. next.items ≡ spec.following sources.now.available.now x) }
{
    let count = sources.available.len() as u32;
    let row = x / count;
    let column = x % count;
    let shapes = shapes_at(sources, row);
    let next = following_of(sources, column, shapes)?;
    Ok(next)
}
