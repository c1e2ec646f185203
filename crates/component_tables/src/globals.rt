//! The element declarations at the top of schema documents, by their names.

ghost use Rattle.std.specs.Prelude.{◌≡◌, ◌≤◌, ◌==◌, ℕ, Some, None, ◌<◌, length, slice_index_or, if◌then◌else◌, IfOk, OnOk};
ghost use Rattle.std.specs.Option.{option_or};
ghost use Rattle.component_tables.specs.Types.{global_of};
ghost use Rattle.component_tables.specs.Found.{IsAdded};

use std::alloc::{AllocError, Global};
use xs_components::{Components, ElementDecl, ElementId};
use xs_names::NameId;

/// For each name the first declaration at the top that has it; the numbers of names are places in the list.
pub(crate) fn find_globals(
    alloc: Global,
    parts: &Components,
) -> Result<Vec<Option<ElementId>>, AllocError>
    ensures { IfOk result (λ globals. (name : ℕ) → slice_index_or globals.items name None ≡ global_of parts.now name) }
{
    let mut globals = Vec::new(alloc);
    for (number, element) in parts.elements().iter().enumerate() {
        add(&mut globals, parts, number as u32, element)?;
    }
    Ok(globals)
}

/// The declaration at the top with a name.
pub(crate) fn global_at(globals: &[Option<ElementId>], name: NameId) -> Option<ElementId>
    ensures { result ≡ slice_index_or globals.now name None }
{
    match globals.get(name.number() as usize) {
        Some(global) => *global,
        None => None,
    }
}

// Adds the declaration of a number, if it stands at the top and no earlier one has its name.
fn add(
    globals: &mut Vec<Option<ElementId>>,
    parts: &Components,
    number: u32,
    element: &ElementDecl,
) -> Result<(), AllocError>
    requires there { number < length parts.now.elements.parts }
    ensures { OnOk result (IsAdded globals.old.items number element.now globals.new.items) }
{
    if !element.global {
        return Ok(());
    }
    let Some(id) = parts.element_at(number) else {
        return Ok(());
    };
    let name = element.name.number() as usize;
    lengthen(globals, name + 1)?;
    put(globals, id, name);
    Ok(())
}

// Writes a declaration in a place, if none stands there.
fn put(globals: &mut Vec<Option<ElementId>>, id: ElementId, place: usize)
    requires { place < length globals.old.items }
    ensures { (n : ℕ) → slice_index_or globals.new.items n None ≡ option_or (slice_index_or globals.old.items n None) (if place == n then Some id else None) }
{
    match globals[place] {
        Some(_) => {}
        None => globals[place] = Some(id),
    }
}

// Makes the list so long, with places of none.
fn lengthen(globals: &mut Vec<Option<ElementId>>, count: usize) -> Result<(), AllocError>
    ensures long { OnOk result (count ≤ length globals.new.items) }
    ensures same { OnOk result ((n : ℕ) → slice_index_or globals.new.items n None ≡ slice_index_or globals.old.items n None) }
{
    while globals.len() < count {
        globals.push(None)?;
    }
    Ok(())
}
