ghost use Rattle.std.specs.Prelude.{◌≡◌, ◌<◌, ◌*◌, ◌^◌, ◌++◌, ◌∷◌, ℕ, List, length, map, if◌then◌else◌, IfOk, OnOk};
ghost use Rattle.schema_set.specs.EffectiveSet.{own_target};
ghost use Rattle.schema_set.specs.inside.Entries as spec;
ghost use Rattle.schema_set.specs.inside.Marks.{marks};

use crate::targets::{own_target, shaped_at};
use crate::{Available, SetDocument};
use schema_shape::ShapedSchema;
use std::alloc::{AllocError, Global};
use xs_lists::Listed;
use xs_names::Text;

// A copy of the target namespace of a document.
fn target_of(shaped: &ShapedSchema) -> Result<Option<Text>, AllocError>
    ensures { IfOk result (λ target. target ≡ own_target shaped.now.shapes) }
{
    match own_target(shaped) {
        None => Ok(None),
        Some(target) => Ok(Some(target.try_clone()?)),
    }
}

// The document of a number.
#[tactic(auto, using(crate::proofs::ReachLaws::row_below, crate::proofs::ReachLaws::column_below))]
fn entry_at(available: &[Available], x: usize) -> Result<SetDocument<'_>, AllocError>
    requires some { 0 < length available.now }
    requires few { length available.now < 2 ^ 16 }
    requires there { x < length available.now * length available.now }
    ensures { IfOk result (λ d. spec.entry_of d ≡ spec.entry_at available.now x) }
{
    let count = available.len();
    let row = x / count;
    let column = x % count;
    let shaped = shaped_at(available, row);
    let first = shaped_at(available, column);
    let target = target_of(first)?;
    Ok(SetDocument {
        number: row as u32 + 1,
        target,
        shaped,
    })
}

// Puts the document of a number to others.
fn add_entry<'a>(
    documents: &mut Listed<SetDocument<'a>>,
    available: &'a [Available],
    x: usize,
) -> Result<(), AllocError>
    requires some { 0 < length available.now }
    requires few { length available.now < 2 ^ 16 }
    requires there { x < length available.now * length available.now }
    ensures { OnOk result ((more : List ℕ) → map spec.entry_of documents.new ++ map (spec.entry_at available.now) more
        ≡ map spec.entry_of documents.old ++ map (spec.entry_at available.now) (x ∷ more)) }
{
    let document = entry_at(available, x)?;
    documents.push(document)?;
    Ok(())
}

// Puts the document of a number to others, if it is wanted.
#[tactic(auto, using(crate::proofs::EntryLaws::entries_wanted, crate::proofs::EntryLaws::entries_unwanted))]
fn push_entry<'a>(
    documents: &mut Listed<SetDocument<'a>>,
    available: &'a [Available],
    x: usize,
    wanted: bool,
) -> Result<(), AllocError>
    requires some { 0 < length available.now }
    requires few { length available.now < 2 ^ 16 }
    requires there { x < length available.now * length available.now }
    ensures { OnOk result ((more : List ℕ) → map spec.entry_of documents.new ++ map (spec.entry_at available.now) more
        ≡ map spec.entry_of documents.old ++ map (spec.entry_at available.now) (if wanted then x ∷ more else more)) }
{
    if wanted {
        add_entry(documents, available, x)?;
        return Ok(());
    }
    Ok(())
}

// The documents whose numbers are marked, in order.
pub(crate) fn entries<'a>(
    alloc: Global,
    available: &'a [Available],
    seen: &[bool],
) -> Result<Listed<SetDocument<'a>>, AllocError>
    requires some { 0 < length available.now }
    requires few { length available.now < 2 ^ 16 }
    requires len { length seen.now ≡ length available.now * length available.now }
    ensures { IfOk result (λ documents. map spec.entry_of documents ≡ map (spec.entry_at available.now) (marks 0 seen.now)) }
{
    let mut documents = Listed::new(alloc);
    let mut x = 0;
    for wanted in seen {
        push_entry(&mut documents, available, x, *wanted)?;
        x += 1;
    }
    Ok(documents)
}
