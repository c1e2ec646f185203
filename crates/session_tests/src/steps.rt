//! What opening and edits take, in steps. A session that assessed a long document again at each edit would not end in the time that
//! a test has.

ghost use Rattle.std.specs.Prelude.{◌≡◌, true, IfOk};
ghost use Rattle.tree_edits.specs.Edits.{can_be_made};

use crate::opening::{SchemaLines, items_of, open, tree_of};
use crate::rows::{AMBIVALENT_CHILD_DOCUMENT, AMBIVALENT_CHILD_SCHEMAS};
use edit_session::EditSession;
use item_listing::{Items, read_item};
use plain_tree::{Tree, read_tree};
use session_model::Session;
use std::alloc::{AllocError, Global};
use std::process::Abort;
use std::test::Fail;
use tree_building::is_one_element;
use tree_edits::Edit;
use xsv_steps::{Steps, Tally};

/// A list of items, each with an attribute that may be left out.
const LIST_SCHEMA: [&str; 21] = [
    "(xs:schema",
    "Axmlns:xs http://www.w3.org/2001/XMLSchema",
    "(xs:element",
    "Aname list",
    "(xs:complexType",
    "(xs:sequence",
    "(xs:element",
    "Aname item",
    "AminOccurs 0",
    "AmaxOccurs unbounded",
    "(xs:complexType",
    "(xs:attribute",
    "Aname v",
    "Atype xs:unsignedShort",
    ")xs:attribute",
    ")xs:complexType",
    ")xs:element",
    ")xs:sequence",
    ")xs:complexType",
    ")xs:element",
    ")xs:schema",
];

const LIST_SCHEMAS: [SchemaLines; 1] = [SchemaLines {
    location: "s",
    lines: &LIST_SCHEMA,
}];

/// The insertion of the element of these lines, or a removal where they are not one.
fn insertion(alloc: Global, parent: u32, index: u32, lines: &[&str]) -> Result<Edit, AllocError>
    ensures { IfOk result (λ edit. can_be_made edit ≡ true) }
{
    let items = items_of(alloc, lines)?;
    if is_one_element(alloc, items.as_slice())? {
        return Ok(Edit::Insert {
            parent,
            index,
            items,
        });
    }
    Ok(Edit::Remove { node: parent })
}

/// Makes an edit, and answers how many steps it took.
fn steps_of<S: Session, A: Abort>(
    rt: &A,
    session: &mut S,
    edit: &Edit,
    steps: &mut Steps<Tally>,
) -> u64
    requires { can_be_made edit.now ≡ true }
{
    let before = steps.ledger().count;
    assert!(rt; session.apply(edit, steps).is_ok());
    steps.ledger().count.wrapping_sub(before)
}

fn insert_before_ambivalent<S: Session + Drop, A: Abort>(
    rt: &A,
    alloc: Global,
) -> Result<u64, AllocError> {
    let mut steps = Steps::new(Tally { count: 0 });
    let tree = tree_of(rt, alloc, &AMBIVALENT_CHILD_DOCUMENT)?;
    let mut session: S = open(rt, alloc, &AMBIVALENT_CHILD_SCHEMAS, tree, &mut steps)?;
    let edit = insertion(alloc, 1, 0, &["(a", "-2", ")a"])?;
    Ok(steps_of(rt, &mut session, &edit, &mut steps))
}

/// Three children whose terms go by their places, two of them with another type, and two nodes more: `32 * 4 * 4 + 8 * 4`.
#[test]
fn an_insertion_before_children_of_ambivalent_names(rt: HostRuntime) -> Result<(), Fail> {
    assert!(rt; insert_before_ambivalent::<EditSession, HostRuntime>(&rt, rt.alloc())? <= 544);
    Ok(())
}

fn push(alloc: Global, items: &mut Items, line: &str) -> Result<(), AllocError> {
    if let Ok(item) = read_item(alloc, true, line.as_bytes())? {
        items.push(item)?;
    }
    Ok(())
}

/// A list of so many empty items.
fn list_of<A: Abort>(rt: &A, alloc: Global, count: u32) -> Result<Tree, AllocError> {
    let mut items = Items::new(alloc);
    push(alloc, &mut items, "(list")?;
    for _ in 0..count {
        push(alloc, &mut items, "(item")?;
        push(alloc, &mut items, ")item")?;
    }
    push(alloc, &mut items, ")list")?;
    match read_tree(alloc, items.as_slice())? {
        Ok(tree) => Ok(tree),
        Err(_) => panic!(rt; "no tree"),
    }
}

/// Puts an item into the middle of a list of 100,000, and takes it away, so many times.
fn insert_and_remove<S: Session, A: Abort>(
    rt: &A,
    alloc: Global,
    session: &mut S,
    steps: &mut Steps<Tally>,
    count: u32,
) -> Result<(), AllocError> {
    let edit = insertion(alloc, 1, 50_000, &["(item", ")item"])?;
    for number in 0..count {
        assert!(rt; steps_of(rt, session, &edit, steps) <= 584);
        let node = number.saturating_add(100_002);
        assert!(rt; steps_of(rt, session, &Edit::Remove { node }, steps) <= 584);
        assert!(rt; session.code_total() == 0);
    }
    Ok(())
}

fn edit_long_list<S: Session + Drop, A: Abort>(rt: &A, alloc: Global) -> Result<(), AllocError> {
    let mut steps = Steps::new(Tally { count: 0 });
    let tree = list_of(rt, alloc, 100_000)?;
    let mut session: S = open(rt, alloc, &LIST_SCHEMAS, tree, &mut steps)?;
    assert!(rt; steps.ledger().count <= 800_008);
    insert_and_remove(rt, alloc, &mut session, &mut steps, 10_000)
}

/// A list of 100,001 nodes: 8 steps a node to open it, and `32 * 18 + 8` at most for each edit.
#[test]
fn edits_of_a_long_list(rt: HostRuntime) -> Result<(), Fail> {
    edit_long_list::<EditSession, HostRuntime>(&rt, rt.alloc())?;
    Ok(())
}
