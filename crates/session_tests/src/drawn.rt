//! Drawn sessions: edits of every kind over a document with mixed content, wildcards, a substitution group, an `all`, declarations of
//! one name by place, types and nil that elements say, values that the schema adds, keys in scopes within scopes, and IDs.

ghost use Rattle.std.specs.Prelude.{◌≡◌, true, IfOk};
ghost use Rattle.tree_edits.specs.Edits.{can_be_made};

use crate::alike::{Pair, apply, compare, open_pair};
use crate::opening::{SchemaLines, items_of};
use crate::random::Random;
use edit_session::EditSession;
use plain_session::PlainSession;
use session_model::Session;
use std::alloc::{AllocError, Global};
use std::process::Abort;
use std::test::Fail;
use tree_building::is_one_element;
use tree_edits::Edit;
use xs_names::Text;

// The schema document.
const SCHEMA: [&str; 189] = [
    "(xs:schema",
    "Axmlns:xs http://www.w3.org/2001/XMLSchema",
    "(xs:element",
    "Aname r",
    "Atype R",
    "(xs:key",
    "Aname k",
    "(xs:selector",
    "Axpath item",
    ")xs:selector",
    "(xs:field",
    "Axpath @n",
    ")xs:field",
    ")xs:key",
    "(xs:keyref",
    "Aname f",
    "Arefer k",
    "(xs:selector",
    "Axpath .//ref",
    ")xs:selector",
    "(xs:field",
    "Axpath @n",
    ")xs:field",
    ")xs:keyref",
    "(xs:unique",
    "Aname u",
    "(xs:selector",
    "Axpath list/a",
    ")xs:selector",
    "(xs:field",
    "Axpath .",
    ")xs:field",
    ")xs:unique",
    ")xs:element",
    "(xs:element",
    "Aname item",
    "Atype ITEM",
    "Anillable true",
    "Adefault 7",
    ")xs:element",
    "(xs:element",
    "Aname base",
    "Atype BASE",
    ")xs:element",
    "(xs:element",
    "Aname more",
    "Atype MORE",
    "AsubstitutionGroup base",
    ")xs:element",
    "(xs:element",
    "Aname a",
    "Atype xs:date",
    ")xs:element",
    "(xs:complexType",
    "Aname R",
    "Amixed true",
    "(xs:choice",
    "AminOccurs 0",
    "AmaxOccurs unbounded",
    "(xs:element",
    "Aref item",
    ")xs:element",
    "(xs:element",
    "Aref base",
    ")xs:element",
    "(xs:element",
    "Aname ref",
    "Atype REF",
    ")xs:element",
    "(xs:element",
    "Aname box",
    "Atype BOX",
    ")xs:element",
    "(xs:element",
    "Aname list",
    "Atype LIST",
    ")xs:element",
    "(xs:element",
    "Aref r",
    ")xs:element",
    "(xs:any",
    "Anamespace ##other",
    "AprocessContents lax",
    ")xs:any",
    ")xs:choice",
    "(xs:attribute",
    "Aname d",
    "Atype xs:int",
    "Adefault 1",
    ")xs:attribute",
    ")xs:complexType",
    "(xs:complexType",
    "Aname ITEM",
    "(xs:simpleContent",
    "(xs:extension",
    "Abase xs:integer",
    "(xs:attribute",
    "Aname n",
    "Atype xs:NCName",
    ")xs:attribute",
    "(xs:attribute",
    "Aname i",
    "Atype xs:ID",
    ")xs:attribute",
    ")xs:extension",
    ")xs:simpleContent",
    ")xs:complexType",
    "(xs:complexType",
    "Aname REF",
    "(xs:simpleContent",
    "(xs:extension",
    "Abase xs:NCName",
    "(xs:attribute",
    "Aname n",
    "Atype xs:NCName",
    "Ause required",
    ")xs:attribute",
    "(xs:attribute",
    "Aname to",
    "Atype xs:IDREFS",
    ")xs:attribute",
    "(xs:anyAttribute",
    "Anamespace ##other",
    "AprocessContents lax",
    ")xs:anyAttribute",
    ")xs:extension",
    ")xs:simpleContent",
    ")xs:complexType",
    "(xs:complexType",
    "Aname BASE",
    "(xs:sequence",
    "(xs:element",
    "Aname a",
    "Atype xs:int",
    "AminOccurs 0",
    ")xs:element",
    "(xs:element",
    "Aname b",
    "Atype xs:string",
    "AminOccurs 0",
    ")xs:element",
    ")xs:sequence",
    ")xs:complexType",
    "(xs:complexType",
    "Aname MORE",
    "(xs:complexContent",
    "(xs:extension",
    "Abase BASE",
    "(xs:sequence",
    "(xs:element",
    "Aname c",
    "Atype xs:date",
    "AminOccurs 0",
    ")xs:element",
    ")xs:sequence",
    ")xs:extension",
    ")xs:complexContent",
    ")xs:complexType",
    "(xs:complexType",
    "Aname BOX",
    "Amixed true",
    "(xs:all",
    "(xs:element",
    "Aname a",
    "Atype xs:int",
    "AminOccurs 0",
    ")xs:element",
    "(xs:element",
    "Aname b",
    "Atype xs:string",
    ")xs:element",
    ")xs:all",
    ")xs:complexType",
    "(xs:complexType",
    "Aname LIST",
    "(xs:sequence",
    "(xs:element",
    "Aname a",
    "Atype xs:int",
    ")xs:element",
    "(xs:any",
    "Anamespace ##any",
    "AprocessContents lax",
    "AminOccurs 0",
    "AmaxOccurs unbounded",
    ")xs:any",
    ")xs:sequence",
    ")xs:complexType",
    ")xs:schema",
];

const SCHEMAS: [SchemaLines; 1] = [SchemaLines {
    location: "s",
    lines: &SCHEMA,
}];

// The document, of nodes that are numbered to 26.
const DOCUMENT: [&str; 45] = [
    "(r",
    "Axmlns:xsi http://www.w3.org/2001/XMLSchema-instance",
    "Axmlns:xs http://www.w3.org/2001/XMLSchema",
    "Axmlns:p urn:p",
    "(item",
    "An one",
    "Ai x1",
    "-5",
    ")item",
    "(ref",
    "An one",
    "Ato x1",
    "-t",
    ")ref",
    "(list",
    "(a",
    "-1",
    ")a",
    "(a",
    "-2001-01-01",
    ")a",
    ")list",
    "(box",
    "-m",
    "(b",
    ")b",
    "(a",
    "-3",
    ")a",
    ")box",
    "(more",
    "(a",
    "-1",
    ")a",
    ")more",
    "(r",
    "(item",
    "An one",
    ")item",
    "(ref",
    "An one",
    "-t",
    ")ref",
    ")r",
    ")r",
];

// What is inserted.
const BLOCKS: [&[&str]; 12] = [
    &["(item", "An two", "-6", ")item"],
    &["(item", "Ai x2", ")item"],
    &["(ref", "An two", "Ato x1 x2", "-t", ")ref"],
    &["(a", "-4", ")a"],
    &["(a", "-2002-02-02", ")a"],
    &["(more", "(b", ")b", "(c", "-2001-01-01", ")c", ")more"],
    &["(base", "Axsi:type MORE", "(c", ")c", ")base"],
    &["(r", "(item", "An one", ")item", "(r", ")r", ")r"],
    &["(item", "Axsi:nil true", ")item"],
    &[
        "(list", "(a", "-x", ")a", "(p:q", "(a", ")a", ")p:q", ")list",
    ],
    &["(box", "(a", ")a", "-t", "(b", ")b", ")box"],
    &["(p:q", "Ap:x 1", ")p:q"],
];

// The names that elements are given.
const NAMES: [&str; 12] = [
    "item", "ref", "list", "box", "base", "more", "a", "b", "c", "r", "p:q", "zz",
];

// The attributes that are set and taken away.
const ATTRIBUTES: [&str; 9] = [
    "n", "i", "to", "d", "xsi:type", "xsi:type", "xsi:nil", "p:x", "zz",
];

// The values of attributes, and the characters of texts.
const VALUES: [&str; 19] = [
    "one",
    "two",
    "x1",
    "x2",
    "x1 x2",
    "true",
    "false",
    "1",
    "7",
    " 3 ",
    "",
    "BASE",
    "MORE",
    "R",
    "ITEM",
    "LIST",
    "xs:integer",
    "xs:date",
    "2001-01-01",
];

/// The insertion of a block below a node.
fn drawn_insertion(
    alloc: Global,
    random: &mut Random,
    parent: u32,
    index: u32,
) -> Result<Edit, AllocError>
    ensures { IfOk result (λ edit. can_be_made edit ≡ true) }
{
    let Some(block) = BLOCKS.get(random.below(12) as usize) else {
        return Ok(Edit::Remove { node: parent });
    };
    let items = items_of(alloc, block)?;
    if is_one_element(alloc, items.as_slice())? {
        return Ok(Edit::Insert {
            parent,
            index,
            items,
        });
    }
    Ok(Edit::Remove { node: parent })
}

/// An edit of a node.
fn drawn_edit(alloc: Global, random: &mut Random, node: u32) -> Result<Edit, AllocError>
    ensures { IfOk result (λ edit. can_be_made edit ≡ true) }
{
    let index = random.below(4);
    match random.below(12) {
        0 | 1 | 2 => drawn_insertion(alloc, random, node, index),
        3 => Ok(Edit::AddText {
            parent: node,
            index,
            text: Text::new(alloc, random.one_of(&VALUES))?,
        }),
        4 => Ok(Edit::SetText {
            node,
            text: Text::new(alloc, random.one_of(&VALUES))?,
        }),
        5 | 6 => Ok(Edit::Remove { node }),
        7 | 8 => Ok(Edit::Rename {
            node,
            name: Text::new(alloc, random.one_of(&NAMES))?,
        }),
        9 => Ok(Edit::UnsetAttr {
            node,
            name: Text::new(alloc, random.one_of(&ATTRIBUTES))?,
        }),
        _ => Ok(Edit::SetAttr {
            node,
            name: Text::new(alloc, random.one_of(&ATTRIBUTES))?,
            value: Text::new(alloc, random.one_of(&VALUES))?,
        }),
    }
}

/// The number of a drawn node below `most`; mostly one that is there.
fn drawn_node<S: Session>(session: &S, random: &mut Random, most: u32) -> u32 {
    for _ in 0..10 {
        let node = random.below(most);
        if session.live(node).is_some() {
            return node;
        }
    }
    random.below(most)
}

/// Makes so many drawn edits in both sessions, and sees after each that both have the same. Answers how many were made.
fn make_edits<P: Session + Drop, Q: Session + Drop, A: Abort>(
    rt: &A,
    alloc: Global,
    pair: &mut Pair<P, Q>,
    random: &mut Random,
    count: u32,
) -> Result<u32, AllocError> {
    let mut most: u32 = 28;
    let mut made: u32 = 0;
    for _ in 0..count {
        let node = drawn_node(&pair.one, random, most);
        let edit = drawn_edit(alloc, random, node)?;
        if apply(rt, pair, &edit)? {
            made = made.wrapping_add(1);
            most = most.saturating_add(5);
        }
        compare(rt, pair, most);
    }
    Ok(made)
}

/// A drawn session of 20 edits. Answers how many were made.
fn draw_session<P: Session + Drop, Q: Session + Drop, A: Abort>(
    rt: &A,
    alloc: Global,
    random: &mut Random,
) -> Result<u32, AllocError> {
    let mut pair: Pair<P, Q> = open_pair(rt, alloc, &SCHEMAS, &DOCUMENT)?;
    make_edits(rt, alloc, &mut pair, random, 20)
}

/// Draws so many sessions. Answers how many edits were made.
fn draw_sessions<A: Abort>(rt: &A, alloc: Global, count: u32) -> Result<u32, AllocError> {
    let mut random = Random { state: 52 };
    let mut made: u32 = 0;
    for _ in 0..count {
        let more = draw_session::<PlainSession, EditSession, A>(rt, alloc, &mut random)?;
        made = made.wrapping_add(more);
    }
    Ok(made)
}

#[test]
fn drawn_sessions(rt: HostRuntime) -> Result<(), Fail> {
    assert!(rt; draw_sessions(&rt, rt.alloc(), 400)? > 4_000);
    Ok(())
}

/// Holds whichever allocation fails: `rt try --test --fail-alloc N`.
#[test]
fn want_of_memory_ends_a_session(rt: HostRuntime) {
    let _made = draw_sessions(&rt, rt.alloc(), 1);
}
