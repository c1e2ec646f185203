ghost use Rattle.std.specs.Prelude.{◌≡◌, ◌++◌, ◌∷◌, [], length, reverse, if◌then◌else◌, IfOk, OnOk};
ghost use Rattle.schema_set.specs.Order.{IsNumber};
ghost use Rattle.schema_set.specs.Sourced.{AreSources};
ghost use Rattle.redefine_originals.specs.Versions as spec;
ghost use Rattle.redefine_originals.specs.inside.Orders as inside;

use crate::inclusions::all_included;
use schema_set::{Available, Sources};
use std::alloc::{AllocError, Global};
use std::collections::HashSet;

// Puts a document to others, if that is wanted.
fn push_if(wanted: bool, document: u32, found: &mut Vec<u32>) -> Result<(), AllocError>
    ensures { OnOk result (found.new.items ≡ found.old.items ++ (if wanted then document ∷ [] else [])) }
{
    if wanted {
        found.push(document)?;
    }
    Ok(())
}

// The same documents, each once, where it stands first.
fn firsts(alloc: Global, documents: &[u32]) -> Result<Vec<u32>, AllocError>
    ensures { IfOk result (λ found. found.items ≡ inside.firsts [] documents.now) }
{
    let mut noted = HashSet::new(alloc);
    let mut found = Vec::new(alloc);
    for document in documents {
        let is_new = noted.insert(*document)?;
        push_if(is_new, *document, &mut found)?;
    }
    Ok(found)
}

// The documents that each document includes and redefines, each once.
fn all_inclusions(sources: &Sources<'_>) -> Result<Vec<Vec<u32>>, AllocError>
    requires sources { AreSources sources.now }
    ensures { IfOk result (λ inclusions. inside.AreInclusions sources.now.available.now inclusions.items) }
{
    let mut inclusions = Vec::new(sources.alloc);
    for document in sources.available {
        let found = all_included(sources, document.shaped.shapes.as_slice())?;
        let once = firsts(sources.alloc, found.as_slice())?;
        inclusions.push(once)?;
    }
    Ok(inclusions)
}

// Puts documents before those that are to be looked at. The last of these is the next.
fn put_all_before(found: &[u32], left: &mut Vec<u32>) -> Result<(), AllocError>
    ensures { OnOk result (reverse left.new.items ≡ found.now ++ reverse left.old.items) }
{
    for document in found.iter().rev() {
        left.push(*document)?;
    }
    Ok(())
}

// The documents to look through from one on, in order: depth first and each once.
fn order_from(
    sources: &Sources<'_>,
    inclusions: &[Vec<u32>],
    start: u32,
) -> Result<Vec<u32>, AllocError>
    requires inclusions { inside.AreInclusions sources.now.available.now inclusions.now }
    requires start { IsNumber sources.now.available.now start }
    ensures { IfOk result (λ order. inside.IsOrder sources.now.available.now start order.items) }
{
    let mut seen = Vec::from_elem(sources.alloc, false, sources.available.len())?;
    let mut left = Vec::new(sources.alloc);
    left.push(start)?;
    let mut order = Vec::new(sources.alloc);
    while let Some(document) = left.pop() {
        let place = document as usize - 1;
        if seen[place] {
            continue;
        }
        seen[place] = true;
        order.push(document)?;
        put_all_before(inclusions[place].as_slice(), &mut left)?;
    }
    Ok(order)
}

/// The documents to look through from each document on, in order: depth first and each once.
pub(crate) fn all_orders(sources: &Sources<'_>) -> Result<Vec<Vec<u32>>, AllocError>
    requires sources { AreSources sources.now }
    ensures { IfOk result (λ orders. inside.AreOrders sources.now.available.now orders.items) }
{
    let inclusions = all_inclusions(sources)?;
    let mut orders = Vec::new(sources.alloc);
    let mut number = 1;
    for _ in sources.available {
        let order = order_from(sources, inclusions.as_slice(), number)?;
        orders.push(order)?;
        number += 1;
    }
    Ok(orders)
}
