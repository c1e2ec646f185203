ghost use Rattle.std.specs.Prelude.{◌≡◌, ◌≤◌, ◌^◌, map, MatchOption};
ghost use Rattle.session_model.specs.Asking.{attr_total, entry_total, code_total};
ghost use Rattle.tree_assess.specs.Entries.{entry_of};

use assess_records::{AttrRecord, Shared};
use tree_assess::ElementEntry;

/// The number of codes of the records of attributes, `None` where it does not fit.
fn count_attr_codes(attrs: &[Shared<AttrRecord>]) -> Option<u64>
    ensures { MatchOption result (2 ^ 64 ≤ attr_total attrs.now) (λ total. total ≡ attr_total attrs.now) }
{
    let mut total: u64 = 0;
    for record in attrs {
        total = total.checked_add(record.get().codes.len() as u64)?;
    }
    Some(total)
}

/// The number of codes of the records of an element and of its attributes, `None` where it does not fit.
fn count_entry_codes(entry: &ElementEntry) -> Option<u64>
    ensures { MatchOption result (2 ^ 64 ≤ entry_total (entry_of entry.now)) (λ total. total ≡ entry_total (entry_of entry.now)) }
{
    let of_attrs = count_attr_codes(entry.attrs.as_slice())?;
    of_attrs.checked_add(entry.element.codes.len() as u64)
}

/// The number of codes of all records; `None` where it does not fit, since it is past 18,446,744,073,709,551,615.
pub fn count_codes(entries: &[ElementEntry]) -> Option<u64>
    ensures { MatchOption result (2 ^ 64 ≤ code_total (map entry_of entries.now)) (λ total. total ≡ code_total (map entry_of entries.now)) }
{
    let mut total: u64 = 0;
    for entry in entries {
        total = total.checked_add(count_entry_codes(entry)?)?;
    }
    Some(total)
}
