//! The nodes of a field, from a target downwards.

ghost use Rattle.std.specs.Prelude.{◌≡◌, ◌<◌, [], false, All, length, IfOk, OnOk};
ghost use Rattle.component_tables.specs.ContentTypes.{AreContentsOf};
ghost use Rattle.identity_constraints.specs.Seen.{KeyElement, KeyForest, element};
ghost use Rattle.identity_constraints.specs.Targets as spec;
ghost use Rattle.path_walk.specs.Sight.{AreNamed};
ghost use Rattle.path_walk.specs.inside.Nodes.{AreAdded, summed};
ghost use Rattle.xpath_subset.specs.inside.Steps.{child_count};
ghost use Rattle.path_walk.specs.inside.Ends.{EndsWithin};
ghost use Rattle.path_walk.specs.inside.Walk.{nodes_along, reached};

use crate::attributes::add_nodes;
use crate::nodes::FieldNodes;
use crate::{KeySet, KeySiblings};
use std::alloc::AllocError;
use xpath_subset::{Paths, Step};
use xs_names::NameId;

// How many elements steps lead down.
fn count_down(steps: &[Step]) -> usize
    ensures { result ≡ child_count steps.now }
{
    steps
        .iter()
        .filter(|step| matches!(step, Step::Child(_)))
        .count()
}

// Whether a field may reach nodes at the end of ways of more elements than so many.
fn reaches_deeper(field: &Paths, depth: usize) -> bool
    ensures { result ≡ false → EndsWithin field.now depth }
{
    field.as_slice().iter().any(|path| path.anywhere || depth < count_down(path.steps.as_slice()))
}

// Adds the nodes of a field among siblings and what is below them. The way leads to their parent, and is kept.
fn add_below<T: KeySiblings>(
    set: &KeySet<'_>,
    field: &Paths,
    siblings: T,
    way: &mut Vec<NameId>,
    nodes: &mut FieldNodes,
) -> Result<(), AllocError>
    requires contents { AreContentsOf set.now.parts.now set.now.contents.now }
    requires way { All (λ name. name < length set.now.names.now.names) way.old.items }
    requires named { AreNamed set.now.names.now (T.forest siblings) }
    ensures way { OnOk result (way.new.items ≡ way.old.items) }
    ensures nodes { OnOk result (AreAdded set.now.parts.now (nodes_along set.now.names.now field.now way.old.items (T.forest siblings)) nodes.old nodes.new) }
{
    let depth = way.len();
    if !reaches_deeper(field, depth) {
        return Ok(());
    }
    let mut left = siblings;
    'left: while let Some(own) = left.first() {
        way.push(own.name)?;
        add_nodes(set, field, way.as_slice(), &own, nodes)?;
        add_below(set, field, left.below(), way, nodes)?;
        way.truncate(depth);
        left = left.next();
    }
    Ok(())
}

/// The nodes of a field of the target that is the first of some siblings.
pub(crate) fn nodes_of<T: KeySiblings>(
    set: &KeySet<'_>,
    field: &Paths,
    target: T,
) -> Result<FieldNodes, AllocError>
    requires contents { AreContentsOf set.now.parts.now set.now.contents.now }
    requires named { AreNamed set.now.names.now (T.forest target) }
    ensures { IfOk result (λ nodes. (own : KeyElement) (below next : KeyForest) → T.forest target ≡ element own below next → nodes ≡ summed set.now.parts.now (spec.field_nodes set.now.names.now field.now (reached [] own below))) }
{
    let mut nodes = FieldNodes::new();
    let mut way = Vec::new(set.alloc);
    if let Some(own) = target.first() {
        add_nodes(set, field, way.as_slice(), &own, &mut nodes)?;
    }
    add_below(set, field, target.below(), &mut way, &mut nodes)?;
    Ok(nodes)
}
