//! Drawn sequences of changes.

ghost use Rattle.std.specs.Prelude.{◌≡◌, true, IfOk, OnOk};
ghost use Rattle.tree_edits.specs.Edits.{can_be_made};
ghost use Rattle.doc_changes.specs.Stands.{StandsFor};

use crate::calls::{compare, make_edit};
use crate::elements::make_element_edit;
use crate::lines::{DOCUMENT, items_of, part_lines};
use crate::random::Random;
use crate::readers::compare_readers;
use crate::spelled::Spaces;
use doc_tree::DocTree;
use plain_tree::{Tree, read_tree};
use std::alloc::{AllocError, Global};
use std::process::Abort;
use std::test::Fail;
use tree_building::is_one_element;
use tree_edits::Edit;
use xs_names::{Names, Text};

/// The insertion of a part below a node.
fn drawn_insertion(alloc: Global, parent: u32, index: u32, number: u32) -> Result<Edit, AllocError>
    ensures { IfOk result (λ edit. can_be_made edit ≡ true) }
{
    let items = items_of(alloc, part_lines(number))?;
    if is_one_element(alloc, items.as_slice())? {
        return Ok(Edit::Insert {
            parent,
            index,
            items,
        });
    }
    Ok(Edit::Remove { node: parent })
}

/// The names that elements and attributes are given, as they are written.
const NAMES: [&str; 6] = ["a", "b", "p:c", "p:a", "q:a", "f"];

fn drawn_name(alloc: Global, random: &mut Random) -> Result<Text, AllocError> {
    match NAMES.get(random.below(6) as usize) {
        Some(name) => Text::new(alloc, name),
        None => Text::new(alloc, "a"),
    }
}

/// The edit of a node that has this kind.
fn drawn_edit(alloc: Global, random: &mut Random, node: u32, kind: u32) -> Result<Edit, AllocError>
    ensures { IfOk result (λ edit. can_be_made edit ≡ true) }
{
    let index = random.below(4);
    let name = drawn_name(alloc, random)?;
    match kind {
        0 => drawn_insertion(alloc, node, index, random.below(3)),
        1 => Ok(Edit::AddText {
            parent: node,
            index,
            text: Text::new(alloc, "new")?,
        }),
        2 => Ok(Edit::SetText {
            node,
            text: Text::new(alloc, "other")?,
        }),
        3 => Ok(Edit::Remove { node }),
        4 => Ok(Edit::Rename { node, name }),
        5 => Ok(Edit::SetAttr {
            node,
            name,
            value: Text::new(alloc, if index == 0 { "" } else { "value" })?,
        }),
        _ => Ok(Edit::UnsetAttr { node, name }),
    }
}

/// The number of a drawn node.
fn drawn_node(random: &mut Random, doc: &DocTree, tree: &Tree) -> u32 {
    let place = random.below(doc.node_count());
    match tree.rows().get(place as usize) {
        Some(row) => row.number,
        None => 1,
    }
}

/// Makes a drawn change of this kind, and answers whether it could be made.
fn make_change<A: Abort>(
    rt: &A,
    alloc: Global,
    names: &mut Names,
    spaces: &Spaces,
    doc: &mut DocTree,
    tree: &mut Tree,
    random: &mut Random,
    kind: u32,
) -> Result<bool, AllocError>
    requires { StandsFor names.old doc.old tree.old }
    ensures { OnOk result (StandsFor names.new doc.new tree.new) }
{
    let node = drawn_node(random, doc, tree);
    let edit = drawn_edit(alloc, random, node, kind)?;
    if kind < 4 {
        make_edit(rt, alloc, names, doc, tree, &edit)
    } else {
        make_element_edit(rt, alloc, names, spaces, doc, tree, &edit)
    }
}

/// The kind of the next change. Nodes are taken away where there are many, so that the document stays small.
fn drawn_kind(random: &mut Random, doc: &DocTree) -> u32 {
    if doc.node_count() > 60 {
        3
    } else {
        random.below(7)
    }
}

/// How many changes of each kind were made.
type Tally = [u32; 7];

/// Makes so many drawn changes, and compares all readers after each hundredth.
fn make_changes<A: Abort>(
    rt: &A,
    alloc: Global,
    names: &mut Names,
    spaces: &Spaces,
    doc: &mut DocTree,
    tree: &mut Tree,
    count: u32,
) -> Result<Tally, AllocError>
    requires { StandsFor names.old doc.old tree.old }
{
    let mut random = Random { state: 31 };
    let mut tally = [0u32; 7];
    for number in 0..count {
        let kind = drawn_kind(&mut random, doc);
        let made = make_change(rt, alloc, names, spaces, doc, tree, &mut random, kind)?;
        if let Some(most) = tally.get_mut(kind as usize) {
            *most = most.wrapping_add(u32::from(made));
        }
        if number % 100 == 99 {
            compare(rt, names, doc, tree)?;
            compare_readers(rt, names, spaces, doc, tree);
        }
    }
    Ok(tally)
}

/// Makes so many drawn changes on the document of a tree.
fn change_tree<A: Abort>(
    rt: &A,
    alloc: Global,
    names: &mut Names,
    tree: &mut Tree,
    count: u32,
) -> Result<Tally, AllocError> {
    let spaces = Spaces::number_all(names)?;
    let mut doc = DocTree::from_plain(alloc, names, tree)?;
    make_changes(rt, alloc, names, &spaces, &mut doc, tree, count)
}

/// The tree of the document of the tests.
fn first_tree<A: Abort>(rt: &A, alloc: Global) -> Result<Tree, AllocError> {
    let items = items_of(alloc, &DOCUMENT)?;
    match read_tree(alloc, items.as_slice())? {
        Ok(tree) => Ok(tree),
        Err(_) => panic!(rt; "no tree"),
    }
}

/// Makes so many drawn changes on a document.
fn change_document<A: Abort>(rt: &A, alloc: Global, count: u32) -> Result<Tally, AllocError> {
    let mut tree = first_tree(rt, alloc)?;
    let mut names = Names::new(alloc)?;
    change_tree(rt, alloc, &mut names, &mut tree, count)
}

/// Holds whichever allocation fails: `rt try --test --fail-alloc N`.
#[test]
fn a_failed_change_leaves_all_as_it_was(rt: HostRuntime) {
    let _made = change_document(&rt, rt.alloc(), 100);
}

#[test]
fn drawn_changes(rt: HostRuntime) -> Result<(), Fail> {
    let made = change_document(&rt, rt.alloc(), 20_000)?;
    for count in made {
        assert!(rt; count > 100);
    }
    Ok(())
}
