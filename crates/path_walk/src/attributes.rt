//! Nodes of a field at one element.

ghost use Rattle.std.specs.Prelude.{◌≡◌, ◌<◌, All, length, IfSome, OnOk};
ghost use Rattle.std.specs.List.{flat_map};
ghost use Rattle.std.specs.Option.{option_map};
ghost use Rattle.component_tables.specs.ContentTypes.{AreContentsOf};
ghost use Rattle.xpath_subset.specs.Reaches.{expanded_name};
ghost use Rattle.xpath_subset.specs.Reached as paths;
ghost use Rattle.identity_constraints.specs.Targets as spec;
ghost use Rattle.identity_constraints.specs.Seen.{KeyForest};
ghost use Rattle.path_walk.specs.Sight.{IsNamed, seen};
ghost use Rattle.path_walk.specs.inside.Nodes.{AreAdded};
ghost use Rattle.path_walk.specs.inside.Walk.{reached};

use crate::declared_by::{governs_structure, is_nillable};
use crate::nodes::{FieldNodes, NodeFacts};
use crate::{KeySet, KeySight};
use assess_records::{AttrRecord, Shared};
use simple_values::Value;
use std::alloc::AllocError;
use xpath_subset::{Paths, is_reached, reached_is_a_test};
use xs_names::{NameId, Names};

/// Whether a selector or a field reaches a node at the end of a way.
pub(crate) fn reaches(
    names: &Names,
    field: &Paths,
    way: &[NameId],
    attribute: Option<NameId>,
) -> bool
    requires way { All (λ name. name < length names.now.names) way.now }
    requires attribute { IfSome attribute (λ name. name < length names.now.names) }
    ensures { result ≡ paths.reached field.now (spec.expanded names.now way.now) (option_map (expanded_name names.now) attribute) }
{
    reached_is_a_test();
    is_reached(field, names, way, attribute)
}

// Adds an element to the nodes of a field, where the field reaches it.
fn add_element(
    set: &KeySet<'_>,
    field: &Paths,
    way: &[NameId],
    own: &KeySight<'_>,
    nodes: &mut FieldNodes,
) -> Result<(), AllocError>
    requires contents { AreContentsOf set.now.parts.now set.now.contents.now }
    requires way { All (λ name. name < length set.now.names.now.names) way.now }
    ensures { OnOk result ((below : KeyForest) → AreAdded set.now.parts.now (spec.element_at set.now.names.now field.now (reached way.now (seen own.now) below)) nodes.old nodes.new) }
{
    if !reaches(set.names, field, way, None) {
        return Ok(());
    }
    let node = NodeFacts {
        value: own.value,
        complex: governs_structure(set.contents, own.of),
        nillable: is_nillable(set.parts, own),
    };
    nodes.add(set.alloc, node)
}

// Adds an attribute to the nodes of a field, where the field reaches it.
fn add_attribute(
    set: &KeySet<'_>,
    field: &Paths,
    way: &[NameId],
    attribute: KeyAttr<'_>,
    nodes: &mut FieldNodes,
) -> Result<(), AllocError>
    requires way { All (λ name. name < length set.now.names.now.names) way.now }
    requires named { attribute.record.now.name < length set.now.names.now.names }
    ensures { OnOk result (AreAdded set.now.parts.now (spec.attribute_at set.now.names.now field.now way.now (record { name = attribute.entry.record.now.name; value = attribute.entry.value.now })) nodes.old nodes.new) }
{
    let record = attribute.record.get();
    if !reaches(set.names, field, way, Some(record.name)) {
        return Ok(());
    }
    let node = NodeFacts {
        value: attribute.value.get(),
        complex: false,
        nillable: false,
    };
    nodes.add(set.alloc, node)
}

// An attribute with its value.
#[derive(Clone, Copy)]
struct KeyAttr<'a> {
    record: &'a Shared<AttrRecord>,
    value: &'a Shared<Option<Value>>,
}

// Adds the attributes of an element to the nodes of a field, as far as the field reaches them.
fn add_attributes(
    set: &KeySet<'_>,
    field: &Paths,
    way: &[NameId],
    own: &KeySight<'_>,
    nodes: &mut FieldNodes,
) -> Result<(), AllocError>
    requires way { All (λ name. name < length set.now.names.now.names) way.now }
    requires named { IsNamed set.now.names.now (seen own.now) }
    ensures { OnOk result (AreAdded set.now.parts.now (flat_map (spec.attribute_at set.now.names.now field.now way.now) (seen own.now).attributes) nodes.old nodes.new) }
{
    let mut attrs: &[Shared<AttrRecord>] = own.attrs;
    let mut values: &[Shared<Option<Value>>] = own.attr_values;
    'attrs: while let Some((attr, more)) = attrs.split_first() {
        let Some((value, others)) = values.split_first() else {
            return Ok(());
        };
        let attribute = KeyAttr {
            record: attr,
            value,
        };
        add_attribute(set, field, way, attribute, nodes)?;
        attrs = more;
        values = others;
    }
    Ok(())
}

/// Adds an element at the end of a way and its attributes to the nodes of a field, as far as the field reaches them.
pub(crate) fn add_nodes(
    set: &KeySet<'_>,
    field: &Paths,
    way: &[NameId],
    own: &KeySight<'_>,
    nodes: &mut FieldNodes,
) -> Result<(), AllocError>
    requires contents { AreContentsOf set.now.parts.now set.now.contents.now }
    requires way { All (λ name. name < length set.now.names.now.names) way.now }
    requires named { IsNamed set.now.names.now (seen own.now) }
    ensures { OnOk result ((below : KeyForest) → AreAdded set.now.parts.now (spec.nodes_at set.now.names.now field.now (reached way.now (seen own.now) below)) nodes.old nodes.new) }
{
    add_element(set, field, way, own, nodes)?;
    add_attributes(set, field, way, own, nodes)
}
