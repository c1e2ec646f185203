ghost use Rattle.std.specs.Prelude.{◌≡◌, ◌++◌, ◌∷◌, [], map, IfOk, OnOk};
ghost use Rattle.std.specs.List.{flat_map};
ghost use Rattle.redefine_faults.specs.inside.Below as inside;

use crate::numbered::Numbered;
use schema_shape::Shape;
use std::alloc::{AllocError, Global};
use std::collections::HashSet;
use xs_lists::Listed;

// Puts the members of an element to what is left.
fn put_members(members: &[u32], left: &mut Vec<u32>) -> Result<(), AllocError>
    ensures { OnOk result (left.new.items ≡ left.old.items ++ members.now) }
{
    for item in members {
        left.push(*item)?;
    }
    Ok(())
}

// Puts an element to those that were found, and its members to what is left.
fn put_shape<'a>(
    shape: &'a Shape,
    found: &mut Listed<&'a Shape>,
    left: &mut Vec<u32>,
) -> Result<(), AllocError>
    ensures found { OnOk result (map (λ r. r.now) found.new ≡ map (λ r. r.now) found.old ++ shape.now ∷ []) }
    ensures left { OnOk result (left.new.items ≡ left.old.items ++ shape.now.members) }
{
    found.push(shape)?;
    put_members(shape.members.as_slice(), left)?;
    Ok(())
}

// Puts elements to those that were found, and their members to what is left.
fn put_shapes<'a>(
    shapes: &[&'a Shape],
    found: &mut Listed<&'a Shape>,
    left: &mut Vec<u32>,
) -> Result<(), AllocError>
    ensures found { OnOk result (map (λ r. r.now) found.new ≡ map (λ r. r.now) found.old ++ map (λ r. r.now) shapes.now) }
    ensures left { OnOk result (left.new.items ≡ left.old.items ++ flat_map (λ s. s.members) (map (λ r. r.now) shapes.now)) }
{
    for shape in shapes {
        put_shape(*shape, found, left)?;
    }
    Ok(())
}

// The elements below one of them. Each number is looked up once, so that the work grows with what is below alone.
pub(crate) fn below<'a>(
    alloc: Global,
    numbered: &Numbered<'a>,
    version: &Shape,
) -> Result<Listed<&'a Shape>, AllocError>
    ensures { IfOk result (λ found. inside.AreBelow numbered.now version.now (map (λ r. r.now) found)) }
{
    let mut seen = HashSet::new(alloc);
    let mut found = Listed::new(alloc);
    let mut left = Vec::new(alloc);
    put_members(version.members.as_slice(), &mut left)?;
    while let Some(item) = left.pop() {
        let is_new = seen.insert(item)?;
        if !is_new {
            continue;
        }
        put_shapes(numbered.of_number(item), &mut found, &mut left)?;
    }
    Ok(found)
}
