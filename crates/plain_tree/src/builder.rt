ghost use Rattle.std.specs.Prelude.{◌≡◌, ◌<◌, Ok, All, length, map, IfOk, OnOk, OnErr};
ghost use Rattle.tag_names.specs.Scopes.{first_scope, binding_in};
ghost use Rattle.tree_building.specs.Building as steps;
ghost use Rattle.tree_building.specs.Rules.{document_rules};
ghost use Rattle.tree_building.specs.Sound.{tree_of as document_of, IsWell};
ghost use Rattle.tree_rows.specs.Whole.{IsTree};

use crate::Tree;
use item_listing::Item;
use std::alloc::{AllocError, Global};
use std::marker::Model;
use tag_names::Prefixes;
use tree_building::{Built, Rules, TreeFault, build_document, build_fragment, documents_are_sound};
use xs_names::{Names, Scope};

/// Makes the tree of a document section, item by item. Contracts see what was built, or the fault of the item that was
/// refused first.
#[derive(Drop)]
pub struct Builder {
    inner: tree_building::Builder,
}

impl Model for Builder {
    ghost use Rattle.std.specs.Prelude.{Result};
    ghost use Rattle.tree_building.specs.declared.building.Building.{Building};
    ghost use Rattle.tree_building.specs.declared.fault.TreeFault.{TreeFault};
    ghost use Rattle.tree_building.specs.Sound.{WillBeSound};

    ghost Value = { Result Building TreeFault };

    ghost view = { λ b. b.inner };

    ghost invariant = { λ b. WillBeSound b.inner };
}

impl Builder {
    ghost use Rattle.tree_building.specs.Builder.{answer_of, end_of};

    /// A builder that has taken nothing.
    pub fn new(alloc: Global) -> Result<Self, AllocError>
        ensures { IfOk result (λ builder. builder ≡ Ok (steps.nothing document_rules first_scope)) }
    {
        documents_are_sound();
        let scope = Prefixes::new(alloc)?;
        let inner = tree_building::Builder::new(alloc, Rules::document(), scope);
        Ok(Builder { inner })
    }

    /// Takes the next item. Once an item was refused, each call answers its fault.
    ///
    /// # Errors
    ///
    /// `AllocError` is want of memory: the builder is then as it was. A `TreeFault` is the items'.
    pub fn item(&mut self, item: &Item) -> Result<Result<(), TreeFault>, AllocError>
        ensures after { OnOk result (self.new ≡ steps.after self.old item.now) }
        ensures answer { IfOk result (λ answer. answer ≡ answer_of self.new) }
        ensures err { OnErr result (self.new ≡ self.old) }
    {
        self.inner.item(item)
    }

    /// The tree at the end of the section.
    ///
    /// # Errors
    ///
    /// `AllocError` is want of memory; a `TreeFault` is the items'.
    pub fn finish(self) -> Result<Result<Tree, TreeFault>, AllocError>
        ensures read { IfOk result (λ read. read ≡ steps.document (end_of self)) }
        ensures tree { IfOk result (λ read. IfOk read IsTree) }
    {
        let Builder { inner } = self;
        match inner.finish()? {
            Ok(built) => Ok(Ok(tree_of(built))),
            Err(fault) => Ok(Err(fault)),
        }
    }
}

/// The tree of the nodes that were built.
fn tree_of(built: Built) -> Tree
    requires { IsWell built }
    ensures built { result ≡ document_of built }
    ensures tree { IsTree result }
{
    Tree::from_rows(built.rows.into_vec(), built.next)
}

/// The tree of the items of a document section, or the first reason why they are no tree.
///
/// # Errors
///
/// `AllocError` is want of memory; a `TreeFault` is the items'.
pub fn read_tree(alloc: Global, items: &[Item]) -> Result<Result<Tree, TreeFault>, AllocError>
    ensures read { IfOk result (λ read. read ≡ steps.tree items.now) }
    ensures tree { IfOk result (λ read. IfOk read IsTree) }
{
    match build_document(alloc, items)? {
        Ok(built) => Ok(Ok(tree_of(built))),
        Err(fault) => Ok(Err(fault)),
    }
}

/// The tree of items that stand in this scope, by the rules of a document section, or the first reason why they are no
/// tree. The scope's namespaces have their names in `names`.
///
/// # Errors
///
/// `AllocError` is want of memory; a `TreeFault` is the items'.
pub fn fragment(
    alloc: Global,
    names: &Names,
    scope: &Scope,
    items: &[Item],
) -> Result<Result<Tree, TreeFault>, AllocError>
    requires { All (λ bound. bound.1 < length names.now.spaces) scope.now }
    ensures read { IfOk result (λ read. read ≡ steps.document (steps.built document_rules (map (binding_in names.now) scope.now) items.now)) }
    ensures tree { IfOk result (λ read. IfOk read IsTree) }
{
    let scope = Prefixes::of_scope(alloc, names, scope)?;
    match build_fragment(alloc, &scope, items)? {
        Ok(built) => Ok(Ok(tree_of(built))),
        Err(fault) => Ok(Err(fault)),
    }
}
