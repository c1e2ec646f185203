//! The nodes of a field, as far as identity constraints ask for them.

ghost use Rattle.std.specs.Prelude.{◌≡◌, ◌∷◌, [], IfOk, OnOk};
ghost use Rattle.std.specs.Option.{option_map};
ghost use Rattle.simple_values.specs.Same.{key_value};
ghost use Rattle.xs_components.specs.Tables.{Tables};
ghost use Rattle.identity_constraints.specs.Targets.{FieldNode, node_value, is_complex, is_nillable};
ghost use Rattle.path_walk.specs.inside.Nodes.{AreAdded, summed};

use simple_values::{Key, Value, key_of};
use std::alloc::{AllocError, Global};

// How many nodes there are.
#[derive(Clone, Copy)]
pub(crate) enum NodeCount {
    NoNode,
    OneNode,
    Several,
}

// A node by itself.
#[derive(Clone, Copy)]
pub(crate) struct NodeFacts<'a> {
    pub value: &'a Option<Value>,
    // Whether it is of a complex type without simple content.
    pub complex: bool,
    // Whether it is an element whose declaration is nillable.
    pub nillable: bool,
}

// The nodes of a field.
#[derive(Drop)]
pub(crate) struct FieldNodes {
    pub count: NodeCount,
    // The key of the only node, where it has a value.
    pub key: Option<Key>,
    // Whether there are several, or one of a complex type without simple content.
    pub misused: bool,
    // Whether one of them is an element whose declaration is nillable.
    pub nillable: bool,
}

// The key of a value, if there is one.
fn key_in(alloc: Global, value: &Option<Value>) -> Result<Option<Key>, AllocError>
    ensures { IfOk result (λ key. key ≡ option_map key_value value.now) }
{
    match value {
        None => Ok(None),
        Some(value) => Ok(Some(key_of(alloc, value)?)),
    }
}

impl FieldNodes {
    /// No nodes.
    pub(crate) fn new() -> Self
        ensures { (t : Tables) → result ≡ summed t [] }
    {
        FieldNodes {
            count: NodeCount::NoNode,
            key: None,
            misused: false,
            nillable: false,
        }
    }

    /// Adds a node behind the others.
    pub(crate) fn add(&mut self, alloc: Global, node: NodeFacts<'_>) -> Result<(), AllocError>
        ensures { OnOk result ((t : Tables) (is : FieldNode) → node_value is ≡ node.entry.value.now → is_complex t is ≡ node.entry.complex → is_nillable t is ≡ node.entry.nillable → AreAdded t (is ∷ []) self.old self.new) }
    {
        let nillable = self.nillable || node.nillable;
        match self.count {
            NodeCount::NoNode => {
                let key = key_in(alloc, node.value)?;
                *self = FieldNodes {
                    count: NodeCount::OneNode,
                    key,
                    misused: node.complex,
                    nillable,
                };
                Ok(())
            }
            NodeCount::OneNode | NodeCount::Several => {
                *self = FieldNodes {
                    count: NodeCount::Several,
                    key: None,
                    misused: true,
                    nillable,
                };
                Ok(())
            }
        }
    }
}
