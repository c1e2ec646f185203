//! What a target comes to.

ghost use Rattle.std.specs.Prelude.{◌≡◌, ◌||◌, ◌∷◌, ◌++◌, [], List, IfOk, OnOk};
ghost use Rattle.xs_components.specs.Tables.{Tables};
ghost use Rattle.component_tables.specs.ContentTypes.{AreContentsOf};
ghost use Rattle.identity_constraints.specs.Seen.{KeyElement, KeyForest, element};
ghost use Rattle.identity_constraints.specs.Targets.{FieldNode};
ghost use Rattle.path_walk.specs.Sight.{AreNamed};
ghost use Rattle.path_walk.specs.Outcomes.{outcome_of, outcome_in};
ghost use Rattle.path_walk.specs.inside.Nodes.{summed};
ghost use Rattle.path_walk.specs.inside.Extended.{AreFieldsOf, extended};

use crate::fields::nodes_of;
use crate::nodes::FieldNodes;
use crate::{KeySet, KeySiblings};
use identity_tables::Tuple;
use simple_values::Key;
use std::alloc::AllocError;
use xpath_subset::Paths;

/// What a target comes to for an identity constraint (Structures 3.11.4).
pub struct TargetOutcome {
    /// Its key-sequence, where each field has a key.
    pub tuple: Option<Tuple>,
    /// Whether a field has several nodes, or one of a complex type without simple content.
    pub misused: bool,
    /// Whether a field has an element whose declaration is nillable.
    pub nillable: bool,
}

// Adds the key of a field to those of the fields before it; where one has none, there is no key-sequence.
fn extend(tuple: &mut Option<Tuple>, key: Option<Key>) -> Result<(), AllocError>
    ensures { OnOk result (tuple.new ≡ extended tuple.old key) }
{
    let Some(key) = key else {
        *tuple = None;
        return Ok(());
    };
    match tuple {
        None => Ok(()),
        Some(keys) => keys.push(key),
    }
}

// Whether one of the two is so.
fn either(one: bool, other: bool) -> bool
    ensures { result ≡ (one || other) }
{
    one || other
}

impl TargetOutcome {
    // Adds a field behind the others.
    fn add(&mut self, field: FieldNodes) -> Result<(), AllocError>
        ensures { OnOk result ((t : Tables) (fields : List (List FieldNode)) (nodes : List FieldNode) → field ≡ summed t nodes → AreFieldsOf t fields self.old → AreFieldsOf t (fields ++ nodes ∷ []) self.new) }
    {
        let misused = either(self.misused, field.misused);
        let nillable = either(self.nillable, field.nillable);
        self.misused = misused;
        self.nillable = nillable;
        extend(&mut self.tuple, field.key)
    }
}

/// What the first of some siblings comes to as a target with these fields.
///
/// # Errors
///
/// `AllocError` is want of memory.
pub fn outcome_at<T: KeySiblings>(
    set: &KeySet<'_>,
    fields: &[Paths],
    target: T,
) -> Result<TargetOutcome, AllocError>
    requires contents { AreContentsOf set.now.parts.now set.now.contents.now }
    requires named { AreNamed set.now.names.now (T.forest target) }
    ensures { IfOk result (λ outcome. (own : KeyElement) (below next : KeyForest) → T.forest target ≡ element own below next → outcome_of outcome ≡ outcome_in set.now.names.now set.now.parts.now fields.now own below) }
{
    let mut outcome = TargetOutcome {
        tuple: Some(Tuple::new(set.alloc)),
        misused: false,
        nillable: false,
    };
    let mut left = fields;
    'fields: while let Some((field, more)) = left.split_first() {
        let nodes = nodes_of(set, field, target)?;
        outcome.add(nodes)?;
        left = more;
    }
    Ok(outcome)
}

impl Drop for TargetOutcome {
    fn drop(self) {
        let TargetOutcome {
            tuple,
            misused: _,
            nillable: _,
        } = self;
        drop(tuple);
    }
}
