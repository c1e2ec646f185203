//! Two sessions side by side.

ghost use Rattle.std.specs.Prelude.{◌≡◌, true};
ghost use Rattle.tree_edits.specs.Edits.{can_be_made};

use crate::opening::{SchemaLines, items_of, open, tree_of};
use crate::same::are_same_records;
use edit_script::{Command, read_command};
use session_model::{Session, SessionError};
use std::alloc::{AllocError, Global};
use std::process::Abort;
use tree_edits::Edit;
use xs_names::Text;
use xsv_steps::{Silent, Steps};

/// A document with its schema documents, and commands. The first line of a command is its own, the others are its block's.
#[derive(Clone, Copy)]
pub struct Case {
    pub schemas: &'static [SchemaLines],
    pub document: &'static [&'static str],
    pub commands: &'static [&'static [&'static str]],
}

/// Two sessions over one document.
#[derive(Drop)]
pub struct Pair<P: Session + Drop, Q: Session + Drop> {
    pub one: P,
    pub other: Q,
}

// Sees that both have the same of a number: whether it is of a node, the records, and the next element.
fn compare_node<P: Session + Drop, Q: Session + Drop, A: Abort>(
    rt: &A,
    pair: &Pair<P, Q>,
    node: u32,
) {
    assert!(rt; pair.one.live(node) == pair.other.live(node));
    assert!(rt; pair.one.node_after(node) == pair.other.node_after(node));
    match (pair.one.records(node), pair.other.records(node)) {
        (None, None) => {}
        (Some(a), Some(b)) => assert!(rt; are_same_records(&a, &b)),
        _ => panic!(rt; "records in one session alone"),
    }
}

/// Sees that both have the same of all numbers below `most`, and of the whole document.
pub fn compare<P: Session + Drop, Q: Session + Drop, A: Abort>(
    rt: &A,
    pair: &Pair<P, Q>,
    most: u32,
) {
    assert!(rt; pair.one.revision() == pair.other.revision());
    assert!(rt; pair.one.code_total() == pair.other.code_total());
    assert!(rt; pair.one.root_validity() == pair.other.root_validity());
    for node in 0..most {
        compare_node(rt, pair, node);
    }
}

/// Two sessions over the document of these lines.
///
/// # Errors
///
/// `AllocError` is want of memory.
pub fn open_pair<P: Session + Drop, Q: Session + Drop, A: Abort>(
    rt: &A,
    alloc: Global,
    schemas: &[SchemaLines],
    document: &[&str],
) -> Result<Pair<P, Q>, AllocError> {
    let steps = &mut Steps::new(Silent);
    let one = open(rt, alloc, schemas, tree_of(rt, alloc, document)?, steps)?;
    let other = open(rt, alloc, schemas, tree_of(rt, alloc, document)?, steps)?;
    Ok(Pair { one, other })
}

/// Makes an edit in both, and answers whether it was made: both answer alike.
///
/// # Errors
///
/// `AllocError` is want of memory.
pub fn apply<P: Session + Drop, Q: Session + Drop, A: Abort>(
    rt: &A,
    pair: &mut Pair<P, Q>,
    edit: &Edit,
) -> Result<bool, AllocError>
    requires { can_be_made edit.now ≡ true }
{
    let steps = &mut Steps::new(Silent);
    let one = pair.one.apply(edit, steps);
    let other = pair.other.apply(edit, steps);
    if one == Err(SessionError::Memory) || other == Err(SessionError::Memory) {
        return Err(AllocError);
    }
    assert!(rt; one == other);
    Ok(one.is_ok())
}

// Makes the edit of a command in both, where it is one.
fn answer<P: Session + Drop, Q: Session + Drop, A: Abort>(
    rt: &A,
    alloc: Global,
    pair: &mut Pair<P, Q>,
    lines: &[&str],
) -> Result<(), AllocError> {
    let Some((line, block)) = lines.split_first() else {
        return Ok(());
    };
    let line = Text::new(alloc, line)?;
    let block = items_of(alloc, block)?;
    match read_command(alloc, &line, Some(block))? {
        Ok(Command::Change(edit)) => {
            let _made = apply(rt, pair, &edit)?;
        }
        Ok(_other) => {}
        Err(_) => panic!(rt; "no command"),
    }
    Ok(())
}

/// Opens a document in two sessions, makes edits, and sees that both have the same records after each.
///
/// # Errors
///
/// `AllocError` is want of memory.
pub fn alike<P: Session + Drop, Q: Session + Drop, A: Abort>(
    rt: &A,
    alloc: Global,
    case: &Case,
) -> Result<(), AllocError> {
    let mut pair: Pair<P, Q> = open_pair(rt, alloc, case.schemas, case.document)?;
    compare(rt, &pair, 40);
    for lines in case.commands {
        answer(rt, alloc, &mut pair, lines)?;
        compare(rt, &pair, 40);
    }
    Ok(())
}
