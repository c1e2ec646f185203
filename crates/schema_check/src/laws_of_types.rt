//! The laws.

ghost use Rattle.std.specs.Prelude.{◌≡◌, ℕ, List, Option, Result};
ghost use Rattle.pattern_syntax.specs.Reading.{Reads};
ghost use Rattle.pattern_syntax.specs.Regex.{Regex};
ghost use Rattle.pattern_syntax.specs.declared.fault.PatternFault.{PatternFault};
ghost use Rattle.component_references.specs.Ranked.{IsRanked};
ghost use Rattle.simple_types.specs.Broken.{IsBroken, ending};
ghost use Rattle.simple_types.specs.SimpleTypes.{AreTypesOf, IsBuilt, first_fault_of};
ghost use Rattle.simple_types.specs.declared.types.SimpleTypes.{SimpleTypes};
ghost use Rattle.schema_check.specs.Completed.{AreCompleted, IsFirstTypeFault};
ghost use Rattle.xs_codes.specs.Least.{IsLeast};
ghost use Rattle.xs_codes.specs.declared.fault.Fault.{Fault};
ghost use Rattle.xs_components.specs.Tables.{Tables};

/// A text is read as a pattern in one way: as one regular expression, or with one fault (Datatypes, appendix F).
pub fn patterns_are_read_in_one_way()
    ensures only { (text : List ℕ) (a b : Result Regex PatternFault) → Reads text a → Reads text b → a ≡ b }
{}

/// The ranks of components, the contents of complex types and the particles that these add are one, to the number (Structures 3.4.2).
pub fn ranks_and_contents_are_one()
    ensures only { (parts a b : Tables) → AreCompleted parts a → AreCompleted parts b → a ≡ b }
{}

/// The first fault of the simple types of components and of their facets is one (Structures 3.14.6; Datatypes 4.3).
pub fn the_first_type_fault_is_the_only_one()
    ensures only { (parts : Tables) (a b : Option Fault) → IsFirstTypeFault parts a → IsFirstTypeFault parts b → a ≡ b }
{}

/// What judging finds of the simple types of components is the first of what they and their facets break, by document, item and place of the
/// code (Structures 3.14.6; Datatypes 4.3); where it finds nothing, nothing is broken.
pub fn the_first_type_fault_is_the_least()
    ensures judged { (t : Tables) (types : SimpleTypes) → IsRanked t → AreTypesOf t types → IsLeast (IsBroken t) (first_fault_of types) }
    ensures built { (t : Tables) (outcome : Result SimpleTypes Fault) → IsRanked t → IsBuilt t outcome → IsLeast (IsBroken t) (ending outcome) }
{}
