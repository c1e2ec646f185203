//! What is determined of simple validity.

ghost use Rattle.xs_components.specs.Tables.{Tables};
ghost use Rattle.simple_types.specs.Determined.{HasOneOutcomeEach};

/// A text comes to one value, or to one code, by a simple type (Structures 3.14.4).
pub fn simple_validity_has_one_outcome()
    ensures one { (t : Tables) → HasOneOutcomeEach t }
{}
