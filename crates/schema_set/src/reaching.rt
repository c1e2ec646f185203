ghost use Rattle.std.specs.Prelude.{◌≡◌, ◌<◌, ◌*◌, ◌^◌, ◌↔◌, ℕ, true, false, All, length, vec_len, IfOk, OnOk};
ghost use Rattle.schema_set.specs.inside.Following.{Reaches};
ghost use Rattle.schema_set.specs.inside.Marks.{marked, IsMarking};
ghost use Rattle.schema_set.specs.Sourced.{AreSources};

use crate::following::{following, own_number};
use crate::sources::Sources;
use std::alloc::{AllocError, Global};

// Marks numbers, and puts those that were not marked to what is to be done.
fn mark(xs: &[u32], seen: &mut [bool], todo: &mut Vec<u32>) -> Result<(), AllocError>
    requires within { All (λ y. y < length seen.old) xs.now }
    requires todo { All (λ y. y < length seen.old) todo.old.items }
    ensures marking { OnOk result (IsMarking xs.now seen.old seen.new todo.old.items todo.new.items) }
    ensures all { OnOk result (All (λ y. marked seen.new y ≡ true) xs.now) }
    ensures todo { OnOk result (All (λ y. y < length seen.old) todo.new.items) }
{
    for y in xs {
        if seen[*y as usize] {
            continue;
        }
        todo.push(*y)?;
        seen[*y as usize] = true;
    }
    Ok(())
}

// Marks all that the document of this place leads to, with its own target namespace.
fn spread(sources: &Sources<'_>, start: u32, seen: &mut [bool]) -> Result<(), AllocError>
    requires sources { AreSources sources.now }
    requires place { start < length sources.now.available.now }
    requires len { length seen.old ≡ length sources.now.available.now * length sources.now.available.now }
    requires none { (y : ℕ) → marked seen.old y ≡ false }
    ensures reached { OnOk result ((y : ℕ) → (marked seen.new y ≡ true) ↔ Reaches sources.now.available.now start y) }
{
    let mut todo = Vec::new(sources.alloc);
    let first = own_number(sources, start + 1);
    todo.push(first)?;
    seen[first as usize] = true;
    while let Some(y) = todo.pop() {
        let next = following(sources, y)?;
        mark(&next, seen, &mut todo)?;
    }
    Ok(())
}

// So many documents with target namespaces are numbered.
fn square(count: usize) -> usize
    requires some { 0 < count }
    requires few { count < 2 ^ 16 }
    ensures value { result ≡ count * count }
    ensures some { 0 < result }
{
    count * count
}

// Which documents, with which target namespaces, the document of this place leads to.
pub(crate) fn reach(sources: &Sources<'_>, start: u32) -> Result<Vec<bool>, AllocError>
    requires sources { AreSources sources.now }
    requires place { start < length sources.now.available.now }
    ensures len { IfOk result (λ seen. vec_len seen ≡ length sources.now.available.now * length sources.now.available.now) }
    ensures reached { IfOk result (λ seen. (y : ℕ) → (marked seen.items y ≡ true) ↔ Reaches sources.now.available.now start y) }
{
    let count = sources.available.len();
    let all = square(count);
    let mut seen = Vec::from_elem(sources.alloc, false, all)?;
    spread(sources, start, seen.as_mut_slice())?;
    Ok(seen)
}
