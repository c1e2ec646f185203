ghost use Rattle.std.specs.Prelude.{IfOk};
ghost use Rattle.tree_rows.specs.Whole.{IsNamespace};

use item_listing::{Items, read_item};
use plain_tree::{Tree, fragment, read_tree};
use std::alloc::{AllocError, Global};
use std::process::Abort;
use std::test::Fail;
use tree_rows::{Attribute, Binding, Expanded, NodeKind};
use xs_names::{Names, Scope, Text};

/// The items of these lines.
fn items_of(alloc: Global, lines: &[&str]) -> Result<Items, AllocError> {
    let mut items = Items::new(alloc);
    for line in lines {
        if let Ok(item) = read_item(alloc, true, line.as_bytes())? {
            items.push(item)?;
        }
    }
    Ok(items)
}

const LINES: &[&str] = &[
    "(r",
    "Axmlns:p u",
    "Aa 1",
    "-x",
    "(p:b",
    "Ap:c 2",
    ")p:b",
    "-y",
    ")r",
];

fn check_places(rt: &impl Abort, tree: &Tree) {
    assert!(rt; tree.next_free() == 5 && tree.rows().len() == 4);
    assert!(rt; tree.kind(2) == Some(NodeKind::Chars) && tree.kind(5).is_none());
    assert!(rt; tree.child_at(1, 1) == Some(3) && tree.child_at(1, 3).is_none());
}

fn check_parts(rt: &impl Abort, tree: &Tree) {
    assert!(rt; tree.name(3).is_some_and(|name| name.local.as_str() == "b"));
    assert!(rt; tree.chars(4).is_some_and(|text| text.as_str() == "y"));
    assert!(rt;
        tree.attr_at(3, 0)
            .is_some_and(|attribute| attribute.value.as_str() == "2")
    );
    assert!(rt;
        tree.binding_at(1, 0)
            .is_some_and(|binding| binding.namespace.as_str() == "u")
    );
}

#[test]
fn reads_a_tree(rt: HostRuntime) -> Result<(), Fail> {
    let items = items_of(rt.alloc(), LINES)?;
    let tree = read_tree(rt.alloc(), items.as_slice())?
        .ok()
        .ok_or("no tree")?;
    check_places(&rt, &tree);
    check_parts(&rt, &tree);
    Ok(())
}

/// The tree of an element in a scope that binds the prefix `p` to the namespace `u`.
fn read_in_p(alloc: Global, names: &mut Names) -> Result<Option<Tree>, AllocError> {
    let items = items_of(alloc, &["(p:r", "-x", ")p:r"])?;
    let space = names.namespace_id("u")?;
    let mut scope = Scope::new(alloc)?;
    scope.bind(&Text::new(alloc, "p")?, space)?;
    Ok(fragment(alloc, names, &scope, items.as_slice())?.ok())
}

#[test]
fn reads_a_fragment_in_its_scope(rt: HostRuntime) -> Result<(), Fail> {
    let mut names = Names::new(rt.alloc())?;
    let tree = read_in_p(rt.alloc(), &mut names)?.ok_or("no tree")?;
    assert!(rt; tree.next_free() == 3 && tree.binding_at(1, 0).is_none());
    Ok(())
}

/// A name in no namespace.
fn plain(alloc: Global, local: &str) -> Result<Expanded, AllocError>
    ensures { IfOk result (λ name. IsNamespace name.namespace) }
{
    let local = Text::new(alloc, local)?;
    Ok(Expanded {
        namespace: None,
        local,
    })
}

/// The binding of `p` to `u`.
fn bound(alloc: Global) -> Result<Binding, AllocError> {
    let prefix = Text::new(alloc, "p")?;
    let namespace = Text::new(alloc, "u")?;
    Ok(Binding { prefix, namespace })
}

/// An attribute in no namespace.
fn attribute(alloc: Global) -> Result<Attribute, AllocError>
    ensures { IfOk result (λ attribute. IsNamespace attribute.name.namespace) }
{
    let name = plain(alloc, "a")?;
    let value = Text::new(alloc, "1")?;
    Ok(Attribute { name, value })
}

/// A root with a binding and an attribute, and below it an element and a text.
fn made_tree(alloc: Global) -> Result<Tree, AllocError> {
    let mut tree = Tree::root_alone(alloc, plain(alloc, "r")?, 10)?;
    tree.put_binding(1, bound(alloc)?)?;
    tree.put_attr(1, attribute(alloc)?)?;
    tree.put_element(alloc, 1, 4, plain(alloc, "a")?)?;
    tree.put_chars(alloc, 1, 2, Text::new(alloc, "t")?)?;
    Ok(tree)
}

#[test]
fn puts_parts_last(rt: HostRuntime) -> Result<(), Fail> {
    let tree = made_tree(rt.alloc())?;
    assert!(rt; tree.next_free() == 10 && tree.rows().len() == 3);
    assert!(rt; tree.child_at(1, 0) == Some(4) && tree.child_at(1, 1) == Some(2));
    assert!(rt; tree.attr_at(1, 0).is_some() && tree.binding_at(1, 0).is_some());
    Ok(())
}
