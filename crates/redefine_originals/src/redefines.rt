ghost use Rattle.std.specs.Prelude.{◌≡◌, ◌≤◌, ◌==◌, ◌&&◌, ◌++◌, ◌∷◌, [], ℕ, List, map, length, if◌then◌else◌, IfOk, OnOk};
ghost use Rattle.std.specs.List.{flat_map, list_any};
ghost use Rattle.std.specs.Option.{option_map, option_to_list};
ghost use Rattle.redefine_originals.specs.inside.Entries.{child_entry};
ghost use Rattle.redefine_originals.specs.inside.Lists.{listed};
ghost use Rattle.redefine_originals.specs.inside.Redefines as spec;

use crate::lists::NumberedLists;
use crate::versions::Child;
use schema_shape::{Form, Shape};
use std::alloc::{AllocError, Global};
use std::collections::HashSet;
use xs_lists::Listed;
use xs_names::Text;

/// A redefine: its location, and the numbers of the elements in it.
#[derive(Clone, Copy)]
pub(crate) struct Redefine<'a> {
    pub(crate) location: &'a Text,
    pub(crate) members: &'a [u32],
}

// An element as a redefine, if it is one.
fn redefine_of(shape: &Shape) -> Option<Redefine<'_>>
    ensures { option_map spec.redefine_entry result ≡ spec.redefine_at shape.now }
{
    match &shape.form {
        Form::Redefine { location } => Some(Redefine {
            location,
            members: shape.members.as_slice(),
        }),
        _ => None,
    }
}

// Puts a redefine to others, if there is one.
fn put_redefine<'a>(
    found: &mut Listed<Redefine<'a>>,
    redefine: Option<Redefine<'a>>,
) -> Result<(), AllocError>
    ensures { OnOk result (map spec.redefine_entry found.new ≡ map spec.redefine_entry found.old ++ option_to_list (option_map spec.redefine_entry redefine.entry)) }
{
    if let Some(redefine) = redefine {
        found.push(redefine)?;
    }
    Ok(())
}

/// The redefines of a document, in document order.
pub(crate) fn redefines(alloc: Global, shapes: &[Shape]) -> Result<Listed<Redefine<'_>>, AllocError>
    ensures { IfOk result (λ found. map spec.redefine_entry found ≡ spec.redefines shapes.now) }
{
    let mut found = Listed::new(alloc);
    for shape in shapes {
        put_redefine(&mut found, redefine_of(shape))?;
    }
    Ok(found)
}

// Notes of an element, if that is new, that it stands in the redefine of this number.
fn note_if(
    is_new: bool,
    member: u32,
    number: u32,
    owners: &mut NumberedLists<u32>,
) -> Result<(), AllocError>
    ensures { OnOk result ((item : ℕ) → listed owners.new item ≡ listed owners.old item ++ (if is_new && (member == item) then number ∷ [] else [])) }
{
    if is_new {
        owners.push(member, number)?;
    }
    Ok(())
}

// Notes of the members of the redefine of this number that they stand in it.
fn note_members(
    alloc: Global,
    members: &[u32],
    number: u32,
    owners: &mut NumberedLists<u32>,
) -> Result<(), AllocError>
    ensures { OnOk result ((item : ℕ) → listed owners.new item ≡ listed owners.old item ++ (if list_any (λ other. other == item) members.now then number ∷ [] else [])) }
{
    let mut noted = HashSet::new(alloc);
    for member in members {
        let is_new = noted.insert(*member)?;
        note_if(is_new, *member, number, owners)?;
    }
    Ok(())
}

/// The numbers of the redefines in which the elements of each number stand.
pub(crate) fn owners_of(
    alloc: Global,
    redefines: &[Redefine<'_>],
) -> Result<NumberedLists<u32>, AllocError>
    requires few { length redefines.now ≤ u32.MAX }
    ensures { IfOk result (λ owners. (item : ℕ) → listed owners item ≡ spec.owner_numbers item 0 (map spec.redefine_entry redefines.now)) }
{
    let mut owners = NumberedLists::new(alloc);
    let mut number = 0;
    for redefine in redefines {
        note_members(alloc, redefine.members, number, &mut owners)?;
        number += 1;
    }
    Ok(owners)
}

// Puts an element to what stands in the redefines of these numbers.
fn put_shape<'a>(
    owners: &[u32],
    shape: &'a Shape,
    inside: &mut NumberedLists<&'a Shape>,
) -> Result<(), AllocError>
    ensures { OnOk result ((number : ℕ) → map (λ s. s.now) (listed inside.new number) ≡ map (λ s. s.now) (listed inside.old number) ++ spec.repeated number owners.now shape.now) }
{
    for owner in owners {
        inside.push(*owner, shape)?;
    }
    Ok(())
}

/// What stands in the redefine of each number, in document order.
pub(crate) fn inside_each<'a>(
    alloc: Global,
    shapes: &'a [Shape],
    owners: &NumberedLists<u32>,
) -> Result<NumberedLists<&'a Shape>, AllocError>
    ensures { IfOk result (λ inside. (number : ℕ) → map (λ s. s.now) (listed inside number) ≡ flat_map (λ s. spec.repeated number (listed owners.now s.item) s) shapes.now) }
{
    let mut inside = NumberedLists::new(alloc);
    for shape in shapes {
        put_shape(owners.get(shape.item), shape, &mut inside)?;
    }
    Ok(inside)
}

// Puts what stands in a redefine of this location to others.
fn put_inside<'a>(
    location: &'a Text,
    inside: &[&'a Shape],
    children: &mut Listed<Child<'a>>,
) -> Result<(), AllocError>
    ensures { OnOk result (map child_entry children.new ≡ map child_entry children.old ++ map (spec.child_in location.now) (map (λ s. s.now) inside.now)) }
{
    for shape in inside {
        children.push(Child { location, shape })?;
    }
    Ok(())
}

/// What stands in redefines, one after the other.
pub(crate) fn children_of<'a>(
    alloc: Global,
    redefines: &[Redefine<'a>],
    inside: &NumberedLists<&'a Shape>,
) -> Result<Listed<Child<'a>>, AllocError>
    requires few { length redefines.now ≤ u32.MAX }
    ensures { IfOk result (λ children. map child_entry children ≡ spec.all_inside (λ number. map (λ s. s.now) (listed inside.now number)) 0 (map spec.redefine_entry redefines.now)) }
{
    let mut children = Listed::new(alloc);
    let mut number = 0;
    for redefine in redefines {
        put_inside(redefine.location, inside.get(number), &mut children)?;
        number += 1;
    }
    Ok(children)
}
