//! What the children of an element show of themselves.

ghost use Rattle.std.specs.Prelude.{◌≡◌, ◌<◌, All, length, IfOk};
ghost use Rattle.assess_records.specs.Numbered.{Scope as Prefixes, heads, names_of, characters};
ghost use Rattle.plain_tree.specs.Found.{HasNames};

use crate::numbers::known_name;
use std::alloc::{AllocError, Global};
use tree_rows::{Content, Sibling, Siblings};
use xs_names::{NameId, Names, Text};

/// The numbers of the names of the elements among siblings, in document order. The names stand in the table.
///
/// # Errors
///
/// `AllocError` is want of memory.
pub fn child_names(
    alloc: Global,
    names: &mut Names,
    children: &Siblings<'_>,
) -> Result<Vec<NameId>, AllocError>
    requires { HasNames names.old children.now }
    ensures named { IfOk result (λ ids. (scope : Prefixes) → ids.items ≡ names_of (heads names.old scope children.now)) }
    ensures known { IfOk result (λ ids. All (λ id. id < length names.old.names) ids.items) }
    ensures same { names.new ≡ names.old }
{
    let mut ids = Vec::new(alloc);
    let mut left = children.again();
    'left: while let Some(Sibling { row, next, .. }) = left.first() {
        if let Content::Element(name) = &row.content {
            let id = known_name(names, name)?;
            ids.push(id)?;
        }
        left = next;
    }
    Ok(ids)
}

/// The characters of the texts among siblings, one after another.
///
/// # Errors
///
/// `AllocError` is want of memory.
pub fn text_of(alloc: Global, children: &Siblings<'_>) -> Result<Text, AllocError>
    ensures { IfOk result (λ t. t ≡ characters children.now) }
{
    let mut chars = String::new(alloc);
    let mut left = children.again();
    'left: while let Some(Sibling { row, next, .. }) = left.first() {
        if let Content::Chars(text) = &row.content {
            chars.push_str(text.as_str())?;
        }
        left = next;
    }
    Text::from_string(chars)
}
