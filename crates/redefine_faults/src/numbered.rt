ghost use Rattle.std.specs.Prelude.{◌≡◌, map, IfOk};
ghost use Rattle.std.specs.List.Sorted.{IsPermutation};
ghost use Rattle.redefine_faults.specs.inside.Numbers as inside;

use schema_shape::Shape;
use std::alloc::{AllocError, Global};
use std::marker::Model;

/// The elements of a document in the order of their numbers, to be found by them. Contracts see the list of them.
#[derive(Drop)]
pub(crate) struct Numbered<'a> {
    shapes: Vec<&'a Shape>,
}

impl<'a> Model for Numbered<'a> {
    ghost use Rattle.std.specs.Prelude.{List, map};
    ghost use Rattle.std.specs.List.Sorted.{IsNonDecreasingBy};
    ghost use Rattle.schema_shape.specs.declared.forms.Shape.{Shape as ShapeData};

    ghost Value = { List ShapeData };

    ghost view = { λ n. map (λ r. r.now) n.shapes.items };

    ghost invariant = { λ n. IsNonDecreasingBy (λ r. r.now.item) n.shapes.items };
}

// All elements of a document.
fn all_shapes<'a>(alloc: Global, shapes: &'a [Shape]) -> Result<Vec<&'a Shape>, AllocError>
    ensures { IfOk result (λ all. map (λ r. r.now) all.items ≡ shapes.now) }
{
    let mut all = Vec::with_capacity(alloc, shapes.len())?;
    for shape in shapes {
        all.push(shape)?;
    }
    Ok(all)
}

impl<'a> Numbered<'a> {
    /// The elements of a document.
    pub(crate) fn new(alloc: Global, shapes: &'a [Shape]) -> Result<Self, AllocError>
        ensures { IfOk result (λ numbered. IsPermutation shapes.now numbered) }
    {
        let mut sorted = all_shapes(alloc, shapes)?;
        sorted.sort_by_key(|shape| shape.item)?;
        Ok(Numbered { shapes: sorted })
    }

    /// The elements of a number.
    pub(crate) fn of_number(&self, item: u32) -> &[&'a Shape]
        ensures { map (λ r. r.now) result.now ≡ inside.of_number self.now item }
    {
        let end = self.shapes.partition_point(|shape| shape.item <= item);
        let front = &self.shapes[..end];
        let start = front.partition_point(|shape| shape.item < item);
        &front[start..]
    }
}
