ghost use Rattle.std.specs.Prelude.{◌≡◌, ◌+◌, ◌<◌, ◌^◌, ℕ, ◌↔◌, true, false, All, length, vec_len, IfOk, OnOk};
ghost use Rattle.component_references.specs.NumberedCircles.{IsWithin, Leads};
ghost use Rattle.component_references.specs.inside.Marks.{marked, unmarked, IsMarking};

use crate::graph::refs_at;
use std::alloc::{AllocError, Global};
use xs_lists::Listed;

// Marks some parts, and puts those that were not marked to what is to be done.
fn mark(xs: &[u32], seen: &mut [bool], todo: &mut Vec<u32>) -> Result<(), AllocError>
    requires within { All (λ y. y < length seen.old) xs.now }
    requires todo { All (λ y. y < length seen.old) todo.old.items }
    ensures marking { OnOk result (IsMarking xs.now seen.old seen.new todo.old.items todo.new.items) }
    ensures all { OnOk result (All (λ y. marked seen.new y ≡ true) xs.now) }
    ensures todo { OnOk result (All (λ y. y < length seen.old) todo.new.items) }
{
    for y in xs {
        if seen[*y as usize] {
            continue;
        }
        todo.push(*y)?;
        seen[*y as usize] = true;
    }
    Ok(())
}

// Marks the parts that the references of a part lead to.
fn spread(alloc: Global, refs: &[Listed<u32>], x: u32, seen: &mut [bool]) -> Result<(), AllocError>
    requires within { IsWithin refs.now }
    requires there { x < length refs.now }
    requires len { length seen.old ≡ length refs.now }
    requires none { (y : ℕ) → marked seen.old y ≡ false }
    ensures { OnOk result ((y : ℕ) → (marked seen.new y ≡ true) ↔ Leads refs.now x y) }
{
    let mut todo = Vec::new(alloc);
    mark(refs_at(refs, x as usize), seen, &mut todo)?;
    while let Some(y) = todo.pop() {
        mark(refs_at(refs, y as usize), seen, &mut todo)?;
    }
    Ok(())
}

// Which parts the references of a part lead to.
pub(crate) fn reach(alloc: Global, refs: &[Listed<u32>], x: u32) -> Result<Vec<bool>, AllocError>
    requires within { IsWithin refs.now }
    requires there { x < length refs.now }
    ensures len { IfOk result (λ seen. vec_len seen ≡ length refs.now) }
    ensures reached { IfOk result (λ seen. (y : ℕ) → (marked seen.items y ≡ true) ↔ Leads refs.now x y) }
{
    let mut seen = Vec::from_elem(alloc, false, refs.len())?;
    spread(alloc, refs, x, seen.as_mut_slice())?;
    Ok(seen)
}
