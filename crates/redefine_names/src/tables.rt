ghost use Rattle.std.specs.Prelude.{◌≡◌, ℕ, None, IfOk, length, slice_index_or};

use std::alloc::{AllocError, Global};

/// A table of so many places at which nothing stands.
pub(crate) fn none_of<T: Copy + Drop>(
    alloc: Global,
    count: usize,
) -> Result<Vec<Option<T>>, AllocError>
    ensures many { IfOk result (λ table. length table.items ≡ count) }
    ensures none { IfOk result (λ table. (place : ℕ) → slice_index_or table.items place None ≡ None) }
{
    let mut table = Vec::new(alloc);
    while table.len() < count {
        table.push(None)?;
    }
    Ok(table)
}

/// What stands at a place of a table.
pub(crate) fn at_place<T: Copy>(table: &[Option<T>], place: usize) -> Option<T>
    ensures { result ≡ slice_index_or table.now place None }
{
    match table.get(place) {
        None => None,
        Some(found) => *found,
    }
}
