//! The assessment of a document, with the codes of its identity constraints and IDs.

ghost use Rattle.std.specs.Prelude.{◌≡◌, All, map, IfOk, OnOk};
ghost use Rattle.xs_names.specs.Names.{IsSound};
ghost use Rattle.assessment.specs.Assessment.{Assessed};
ghost use Rattle.compiled_schema.specs.Usable.{IsUsable, set_of};
ghost use Rattle.plain_tree.specs.Found.{HasNames};
ghost use Rattle.forest_keys.specs.Entries.{AreEntries};
ghost use Rattle.forest_keys.specs.inside.Coded.{IsEntryNamed, coded};
ghost use Rattle.forest_keys.specs.inside.Parsed.{flat, sized_of};
ghost use Rattle.forest_keys.specs.inside.Marking.{codes_in, with_marks};

use crate::ids::{id_codes, mark_first};
use crate::joining::join_identity;
use compiled_schema::Compiled;
use path_walk::KeySet;
use plain_tree::Tree;
use std::alloc::{AllocError, Global};
use tree_assess::{ElementEntry, assess_plain};
use what_is_found::identity_codes_join_the_assessment;

// Puts the codes of identity constraints to entries.
fn join_set(
    alloc: Global,
    compiled: &Compiled,
    entries: &mut [ElementEntry],
) -> Result<(), AllocError>
    requires usable { IsUsable compiled.now }
    requires named { All (IsEntryNamed compiled.now.names) entries.old }
    requires whole { (found : Assessed) × (map sized_of entries.old ≡ flat found) }
    ensures { OnOk result (entries.new ≡ coded compiled.now.names compiled.now.parts compiled.now.identities.items entries.old) }
{
    let set = KeySet {
        alloc,
        names: &compiled.names,
        parts: &compiled.parts,
        contents: &compiled.contents,
        identities: compiled.identities.as_slice(),
    };
    join_identity(&set, entries)
}

// Puts the codes of identity constraints to entries, and then those of IDs to the root, which is the first.
fn join_codes(
    alloc: Global,
    compiled: &Compiled,
    entries: &mut Vec<ElementEntry>,
) -> Result<(), AllocError>
    requires usable { IsUsable compiled.now }
    requires named { All (IsEntryNamed compiled.now.names) entries.old.items }
    requires whole { (found : Assessed) × (map sized_of entries.old.items ≡ flat found) }
    ensures { OnOk result (entries.new.items
        ≡ with_marks (codes_in entries.old.items) (coded compiled.now.names compiled.now.parts compiled.now.identities.items entries.old.items)) }
{
    let ids = id_codes(alloc, entries)?;
    join_set(alloc, compiled, entries)?;
    mark_first(entries, ids.as_slice())?;
    Ok(())
}

/// The assessment of a document by a schema set (Structures 5.2): the entries of its elements in document order, with the codes of its
/// identity constraints and of its IDs. The set is usable, and has the names of the document in its table.
///
/// # Errors
///
/// `AllocError` is want of memory, or there would be more than 4,294,967,295 elements, or so many targets of one identity constraint of
/// an element with a fault or with one key-sequence, or a constraint with a number of 2,147,483,648 or more.
pub fn assess(
    alloc: Global,
    compiled: &mut Compiled,
    tree: &Tree,
) -> Result<Vec<ElementEntry>, AllocError>
    requires usable { IsUsable compiled.old }
    requires sound { IsSound compiled.old.names }
    requires names { HasNames compiled.old.names tree.now.forest }
    ensures assessed { IfOk result (λ entries. AreEntries (set_of compiled.old) compiled.old.identities.items tree.now.forest entries.items) }
    ensures same { compiled.new ≡ compiled.old }
{
    let mut entries = assess_plain(alloc, compiled, tree)?;
    join_codes(alloc, compiled, &mut entries)?;
    identity_codes_join_the_assessment();
    Ok(entries)
}
