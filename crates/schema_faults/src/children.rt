ghost use Rattle.std.specs.Prelude.{◌≡◌, ◌≤◌, length, IfOk};
ghost use Rattle.std.specs.List.{prefix_len, list_any};
ghost use Rattle.schema_values.specs.Table as table;
ghost use Rattle.schema_faults.specs.Children as spec;

use schema_values::{Class, Step, Tag, is_in, tag_of};
use std::alloc::{AllocError, Global};
use tree_rows::{Content, Sibling, Siblings};
use xs_names::is_white_space;

/// The elements among the siblings by their names, in order.
pub(crate) fn child_tags(alloc: Global, siblings: Siblings<'_>) -> Result<Vec<Tag>, AllocError>
    ensures { IfOk result (λ tags. tags.items ≡ spec.child_tags siblings.entry) }
{
    let mut tags = Vec::new(alloc);
    let mut left = siblings;
    'left: while let Some(
        Sibling {
            row,
            children,
            next,
        },
    ) = left.first()
    {
        if let Content::Element(name) = &row.content {
            tags.push(tag_of(name))?;
        }
        left = next;
    }
    Ok(tags)
}

/// Whether a text among the siblings has characters other than white space.
pub(crate) fn has_characters(siblings: Siblings<'_>) -> bool
    ensures { result ≡ spec.has_characters siblings.entry }
{
    let mut left = siblings;
    'left: while let Some(
        Sibling {
            row,
            children,
            next,
        },
    ) = left.first()
    {
        if let Content::Chars(text) = &row.content {
            if !is_white_space(text.as_str()) {
                return true;
            }
        }
        left = next;
    }
    false
}

/// Whether one of the names is of the class.
pub(crate) fn has_child(class: Class, tags: &[Tag]) -> bool
    ensures { result ≡ list_any (table.is_in class) tags.now }
{
    tags.iter().any(|tag| is_in(class, *tag))
}

/// How many of the first names are of the class.
fn run_of(class: Class, tags: &[Tag]) -> usize
    ensures value { result ≡ prefix_len (table.is_in class) tags.now }
    ensures within { result ≤ length tags.now }
{
    for (i, tag) in tags.iter().enumerate() {
        if !is_in(class, *tag) {
            return i;
        }
    }
    tags.len()
}

/// Whether a step takes so many children.
fn allows(step: Step, n: usize) -> bool
    ensures { result ≡ spec.allows step n }
{
    (!step.required || n >= 1) && (step.repeats || n <= 1)
}

/// Whether the children are those of the steps, in order.
pub(crate) fn follows(steps: &[Step], tags: &[Tag]) -> bool
    ensures { result ≡ spec.follows steps.now tags.now }
{
    let mut left = tags;
    for step in steps {
        let n = run_of(step.class, left);
        if !allows(*step, n) {
            return false;
        }
        left = &left[n..];
    }
    left.is_empty()
}
