//! Changes of own tuples, carried upwards.

ghost use Rattle.std.specs.Prelude.{◌≡◌, ℕ, ◌*◌, ◌<◌, ◌≤◌, ◌^◌, IfOk, OnOk, Bool, Some, None, length};
ghost use Rattle.identity_tables.specs.KeyTables.{own_count};
ghost use Rattle.identity_constraints.specs.Counting.{Links, Numbers, IsLinked, IsTouched, StandFor, firsts, is_visible as visible};
ghost use Rattle.key_records.specs.Tables.{AreParents, AreSettled, ArePending, AreTold, HasSameOwn, IsAlikeBut, IsOneMoreOwn, for_key, own, said, same_key_tuple, is_in_table, level};

use identity_tables::{KeyTables, Tuple};
use std::alloc::AllocError;

// An element of which a child has begun or ceased to have a tuple in its table, which the element does not count yet.
#[derive(Clone, Copy)]
struct Waiting {
    at: u32,
    grows: bool,
}

// Whether the table of an element has the tuple, by its counts.
fn is_seen(tables: &KeyTables, n: u32, key: u32, tuple: &Tuple) -> bool
    requires few { key < 2 ^ 31 }
    ensures { result ≡ is_in_table tables.now n (for_key key tuple.now) }
{
    let own = tables.own_count(n, 2 * key, tuple);
    let said = tables.own_count(n, 2 * key + 1, tuple);
    identity_constraints::is_seen(own, said)
}

// The parent of an element.
fn parent_of(parents: &[Option<u32>], n: u32) -> Option<u32>
    ensures { (t : Links) → AreParents t parents.now → t.parent n ≡ result }
{
    match parents.get(n as usize) {
        None => None,
        Some(parent) => *parent,
    }
}

// What the parent of an element does not count yet, where a count of the element has changed.
fn note(
    parents: &[Option<u32>],
    tables: &KeyTables,
    n: u32,
    key: u32,
    tuple: &Tuple,
    was: bool,
) -> Option<Waiting>
    requires few { key < 2 ^ 31 }
    requires linked { (t : Links) × AreParents t parents.now }
    ensures pending { (t : Links) → AreParents t parents.now → IsTouched same_key_tuple t (own tables.now) (said tables.now) n (for_key key tuple.now) was → ArePending t key tuple.now tables.now result }
    ensures upward { level result ≤ n }
{
    let now = is_seen(tables, n, key, tuple);
    if now == was {
        return None;
    }
    match parent_of(parents, n) {
        None => None,
        Some(at) => Some(Waiting { at, grows: now }),
    }
}

// Counts one child element more, or one less, where one waits.
fn recount(
    tables: &mut KeyTables,
    key: u32,
    tuple: &Tuple,
    waiting: Waiting,
) -> Result<(), AllocError>
    requires few { key < 2 ^ 31 }
    requires pending { (t : Links) × ArePending t key tuple.now tables.old (Some waiting) }
    ensures touched { OnOk result ((t : Links) → IsLinked t → ArePending t key tuple.now tables.old (Some waiting) → IsTouched same_key_tuple t (own tables.new) (said tables.new) waiting.at (for_key key tuple.now) (is_in_table tables.old waiting.at (for_key key tuple.now))) }
    ensures own { OnOk result (HasSameOwn tables.old tables.new) }
    ensures alike { OnOk result (IsAlikeBut waiting.at (for_key key tuple.now) tables.old tables.new) }
{
    let table = 2 * key + 1;
    if waiting.grows {
        return tables.add(waiting.at, table, tuple.clone()?);
    }
    tables.drop_entry(waiting.at, table, tuple);
    Ok(())
}

// Makes the count of an element right where one waits, and tells the element.
fn settle_at(
    parents: &[Option<u32>],
    tables: &mut KeyTables,
    key: u32,
    tuple: &Tuple,
    waiting: Waiting,
    told: &mut Vec<u32>,
) -> Result<Option<Waiting>, AllocError>
    requires few { key < 2 ^ 31 }
    requires linked { (t : Links) × AreParents t parents.now × ArePending t key tuple.now tables.old (Some waiting) }
    ensures pending { IfOk result (λ waits. (t : Links) → IsLinked t → AreParents t parents.now → ArePending t key tuple.now tables.old (Some waiting) → ArePending t key tuple.now tables.new waits) }
    ensures own { OnOk result (HasSameOwn tables.old tables.new) }
    ensures told { OnOk result (AreTold (for_key key tuple.now) tables.old tables.new told.old.items told.new.items) }
    ensures upward { IfOk result (λ waits. level waits ≤ waiting.at) }
{
    let was = is_seen(tables, waiting.at, key, tuple);
    recount(tables, key, tuple, waiting)?;
    told.push(waiting.at)?;
    Ok(note(parents, tables, waiting.at, key, tuple, was))
}

// Makes every count right where one waits, and tells the elements of those counts.
fn settle(
    parents: &[Option<u32>],
    tables: &mut KeyTables,
    key: u32,
    tuple: &Tuple,
    waiting: Option<Waiting>,
    told: &mut Vec<u32>,
) -> Result<(), AllocError>
    requires few { key < 2 ^ 31 }
    requires linked { (t : Links) × IsLinked t × AreParents t parents.now × ArePending t key tuple.now tables.old waiting }
    ensures settled { OnOk result ((t : Links) → IsLinked t → AreParents t parents.now → ArePending t key tuple.now tables.old waiting → AreSettled t tables.new) }
    ensures own { OnOk result (HasSameOwn tables.old tables.new) }
    ensures told { OnOk result (AreTold (for_key key tuple.now) tables.old tables.new told.old.items told.new.items) }
{
    let mut waits = waiting;
    while let Some(next) = waits {
        waits = settle_at(parents, tables, key, tuple, next, told)?;
    }
    Ok(())
}

/// Adds a tuple to the own ones of an element for a key or unique, and carries what is seen of it upwards (Structures 3.11.5).
/// `parents` are the parents of elements by their numbers, each of a lower number. The elements at which a count of the tuple changes
/// are put behind those told before: at all others the same is in the table.
///
/// # Errors
///
/// `AllocError` is want of memory, or a table would hold more than 4,294,967,295 tuples. Then nothing is said of the tables.
pub fn add_tuple(
    parents: &[Option<u32>],
    tables: &mut KeyTables,
    scope: u32,
    key: u32,
    tuple: &Tuple,
    told: &mut Vec<u32>,
) -> Result<(), AllocError>
    requires few { key < 2 ^ 31 }
    requires linked { (t : Links) × IsLinked t × AreParents t parents.now × AreSettled t tables.old }
    ensures settled { OnOk result ((t : Links) → IsLinked t → AreParents t parents.now → AreSettled t tables.old → AreSettled t tables.new) }
    ensures own { OnOk result (IsOneMoreOwn tables.old tables.new scope key tuple.now) }
    ensures told { OnOk result (AreTold (for_key key tuple.now) tables.old tables.new told.old.items told.new.items) }
{
    let was = is_seen(tables, scope, key, tuple);
    tables.add(scope, 2 * key, tuple.clone()?)?;
    told.push(scope)?;
    let waits = note(parents, tables, scope, key, tuple, was);
    settle(parents, tables, key, tuple, waits, told)
}

/// Drops a tuple from the own ones of an element for a key or unique once, and carries what is seen of it upwards, as `add_tuple`.
///
/// # Errors
///
/// As those of `add_tuple`.
pub fn drop_tuple(
    parents: &[Option<u32>],
    tables: &mut KeyTables,
    scope: u32,
    key: u32,
    tuple: &Tuple,
    told: &mut Vec<u32>,
) -> Result<(), AllocError>
    requires few { key < 2 ^ 31 }
    requires there { 1 ≤ own_count tables.old scope (2 * key) tuple.now }
    requires linked { (t : Links) × IsLinked t × AreParents t parents.now × AreSettled t tables.old }
    ensures settled { OnOk result ((t : Links) → IsLinked t → AreParents t parents.now → AreSettled t tables.old → AreSettled t tables.new) }
    ensures own { OnOk result (IsOneMoreOwn tables.new tables.old scope key tuple.now) }
    ensures told { OnOk result (AreTold (for_key key tuple.now) tables.old tables.new told.old.items told.new.items) }
{
    let was = is_seen(tables, scope, key, tuple);
    tables.drop_entry(scope, 2 * key, tuple);
    told.push(scope)?;
    let waits = note(parents, tables, scope, key, tuple, was);
    settle(parents, tables, key, tuple, waits, told)
}

/// Whether the table of an element for a key or unique has the tuple: it is an own one, or the table of exactly one child element
/// has it (Structures 3.11.5).
pub fn is_visible(tables: &KeyTables, n: u32, key: u32, tuple: &Tuple) -> bool
    requires few { key < 2 ^ 31 }
    ensures counted { result ≡ is_in_table tables.now n (for_key key tuple.now) }
    ensures visible { (t : Links) (below : Numbers) → AreSettled t tables.now → t.children n ≡ firsts below → StandFor t below → result ≡ visible (own tables.now) (for_key key tuple.now) n below }
{
    is_seen(tables, n, key, tuple)
}
