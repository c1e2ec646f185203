//! What identity constraints see of elements.

ghost use Rattle.std.specs.Prelude.{◌≡◌, MatchOption};
ghost use Rattle.identity_constraints.specs.Seen.{KeyForest, none};
ghost use Rattle.path_walk.specs.Sight.{IsFirst, behind_first, below_first, seen};

use assess_records::{AttrRecord, Shared};
use simple_values::Value;
use xs_components::{ElementId, TypeId};
use xs_names::NameId;

/// What identity constraints see of an element by itself (Structures 3.11.4).
#[derive(Clone, Copy)]
pub struct KeySight<'a> {
    pub number: u32,
    pub name: NameId,
    /// The declaration that governs it.
    pub declaration: Option<ElementId>,
    /// The type that governs it.
    pub of: Option<TypeId>,
    /// The value of its text, where that is valid by a simple type and the element is neither nil nor skipped.
    pub value: &'a Option<Value>,
    /// Its attributes, given and added.
    pub attrs: &'a [Shared<AttrRecord>],
    /// Their values, where they are valid by simple types.
    pub attr_values: &'a [Shared<Option<Value>>],
}

/// Sibling elements, from one of them on, with all that is below them. Contracts see a forest.
pub trait KeySiblings: Copy {
    /// The elements as they are seen.
    ghost forest: { Self → KeyForest };

    /// The first of them, `None` where there are none.
    fn first(&self) -> Option<KeySight<'_>>
        ensures { MatchOption result (forest self.now ≡ none) (λ sight. IsFirst (forest self.now) (seen sight)) };

    /// The child elements of the first.
    fn below(&self) -> Self
        ensures { forest result ≡ below_first (forest self.now) };

    /// Those behind the first.
    fn next(&self) -> Self
        ensures { forest result ≡ behind_first (forest self.now) };
}
