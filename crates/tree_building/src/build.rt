ghost use Rattle.std.specs.Prelude.{◌≡◌, true, IfOk};
ghost use Rattle.tag_names.specs.Scopes.{first_scope};
ghost use Rattle.tree_building.specs.Blocks.{one_element, IsBlock};
ghost use Rattle.tree_building.specs.Building as steps;
ghost use Rattle.tree_building.specs.Rules.{document_rules};
ghost use Rattle.tree_building.specs.Sound.{IsWell};

use crate::{Builder, Rules, TreeFault};
use item_listing::Item;
use std::alloc::{AllocError, Global};
use tag_names::Prefixes;
use tree_rows::Row;
use xs_lists::Listed;

/// The nodes that were made, in document order.
pub type Rows = Listed<Row>;

/// The nodes of a tree.
#[derive(Drop)]
pub struct Built {
    /// The nodes in document order.
    pub rows: Rows,
    /// The number that the next new node gets.
    pub next: u32,
}

/// What all items build, or the first reason why they are no tree.
fn build(
    alloc: Global,
    rules: Rules,
    scope: Prefixes,
    items: &[Item],
) -> Result<Result<Built, TreeFault>, AllocError>
    ensures { IfOk result (λ built. built ≡ steps.built rules scope items.now) }
{
    let mut builder = Builder::new(alloc, rules, scope);
    for item in items {
        let _ = builder.item(item)?;
    }
    builder.finish()
}

/// The nodes of the items of a document section, or the first reason why they are no tree.
///
/// # Errors
///
/// `AllocError` is want of memory; a `TreeFault` is the items'.
pub fn build_document(alloc: Global, items: &[Item]) -> Result<Result<Built, TreeFault>, AllocError>
    ensures built { IfOk result (λ built. built ≡ steps.built document_rules first_scope items.now) }
    ensures sound { IfOk result (λ built. IfOk built IsWell) }
{
    let built = build(alloc, Rules::document(), Prefixes::new(alloc)?, items)?;
    Ok(built)
}

/// The nodes of items that stand in this scope, by the rules of a document, or the first reason why they are no tree.
///
/// # Errors
///
/// `AllocError` is want of memory; a `TreeFault` is the items'.
pub fn build_fragment(
    alloc: Global,
    scope: &Prefixes,
    items: &[Item],
) -> Result<Result<Built, TreeFault>, AllocError>
    ensures built { IfOk result (λ built. built ≡ steps.built document_rules scope.now items.now) }
    ensures sound { IfOk result (λ built. IfOk built IsWell) }
{
    let built = build(alloc, Rules::document(), scope.try_clone(alloc)?, items)?;
    Ok(built)
}

/// The nodes of the element that the items of a block are, with numbers and depths from 1. Names resolve in the scope
/// and the block's bindings, and are not judged.
pub fn build_block(alloc: Global, scope: &Prefixes, items: &[Item]) -> Result<Vec<Row>, AllocError>
    requires { one_element items.now ≡ true }
    ensures { IfOk result (λ rows. IsBlock scope.now items.now rows.items) }
{
    match build(alloc, Rules::block(), scope.try_clone(alloc)?, items)? {
        Ok(built) => Ok(built.rows.into_vec()),
        Err(_) => unreachable!(),
    }
}
