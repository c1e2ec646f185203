ghost use Rattle.std.specs.Prelude.{◌≡◌, ◌≤◌, ◌+◌, filter_map, reverse, length, IfOk};
ghost use Rattle.set_representations.specs.Members as spec;
ghost use Rattle.set_representations.specs.inside.Building.{found};

use crate::item_places::ItemPlaces;
use schema_shape::Shape;
use std::alloc::{AllocError, Global};
use xs_lists::Listed;

// The places of elements by their numbers.
fn places_of(alloc: Global, known: &ItemPlaces, items: &[u32]) -> Result<Listed<u32>, AllocError>
    ensures { IfOk result (λ places. places ≡ filter_map (found known.now) items.now) }
{
    let mut places = Listed::new(alloc);
    for item in items {
        let Some(place) = known.find(*item) else {
            continue;
        };
        places.push(place)?;
    }
    Ok(places)
}

/// The places of the members of each of the elements of a document, whose places begin here. The last element's come first.
pub(crate) fn member_places(
    alloc: Global,
    first: u32,
    shapes: &[Shape],
) -> Result<Listed<Listed<u32>>, AllocError>
    ensures places { IfOk result (λ places. places ≡ reverse (spec.all_members first shapes.now)) }
    ensures fits { IfOk result (λ places. first + length shapes.now ≤ u32.MAX) }
{
    if shapes.len() > (u32::MAX - first) as usize {
        return Err(AllocError);
    }
    let mut known = ItemPlaces::new(alloc);
    let mut members = Listed::new(alloc);
    let mut left = shapes.len();
    while left > 0 {
        left -= 1;
        let shape = &shapes[left];
        members.push(places_of(alloc, &known, shape.members.as_slice())?)?;
        known.put(shape.item, first + left as u32)?;
    }
    Ok(members)
}
