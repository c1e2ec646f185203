ghost use Rattle.std.specs.Prelude.{◌≡◌, IfOk};
ghost use Rattle.set_representations.specs.Numbers as spec;

use component_tables::Symbols;
use std::alloc::{AllocError, Global};
use xs_lists::Listed;
use xs_names::NameId;

/// The number at a place, if there is one.
pub fn number_at<T: Copy>(numbers: &[Option<T>], place: usize) -> Option<T>
    ensures number { result ≡ spec.number_at numbers.now place }
{
    match numbers.get(place) {
        None => None,
        Some(number) => *number,
    }
}

/// The number of the component that a name means in a symbol space, if it means one.
pub fn number_named<T: Copy>(numbers: &[Option<T>], symbols: &Symbols, name: NameId) -> Option<T>
    ensures number { result ≡ spec.number_named numbers.now symbols.now name }
{
    match symbols.first(name) {
        None => None,
        Some(place) => number_at(numbers, place as usize),
    }
}

/// The number at the first of some places that has one.
pub fn first_number<T: Copy>(numbers: &[Option<T>], places: &[u32]) -> Option<T>
    ensures number { result ≡ spec.first_number numbers.now places.now }
{
    for place in places {
        let number = number_at(numbers, *place as usize);
        if number.is_some() {
            return number;
        }
    }
    None
}

/// The numbers at places, in order.
///
/// # Errors
///
/// `AllocError` is want of memory.
pub fn numbers_in<T: Copy>(
    alloc: Global,
    numbers: &[Option<T>],
    places: &[u32],
) -> Result<Listed<T>, AllocError>
    ensures numbers { IfOk result (λ list. list ≡ spec.numbers_in numbers.now places.now) }
{
    let mut list = Listed::new(alloc);
    for place in places {
        if let Some(number) = number_at(numbers, *place as usize) {
            list.push(number)?;
        }
    }
    Ok(list)
}
