//! What the first of some faults is.
ghost use Rattle.std.specs.Prelude.{◌≡◌, not, is_some, List, Result};
ghost use Rattle.xs_codes.specs.Least.{IsLeast};
ghost use Rattle.xs_codes.specs.declared.code.Code.{Code};
ghost use Rattle.xs_components.specs.declared.simple.FacetItem.{FacetItem};
ghost use Rattle.facet_rules.specs.First.{Rule, first_fault};
ghost use Rattle.facet_rules.specs.declared.read.FacetRead.{FacetRead};
ghost use Rattle.facets.specs.Reading.{value_read, IsValueRead};
ghost use Rattle.facets.specs.Source.{list_of};
ghost use Rattle.facets.specs.declared.atomic.Accepted.{Accepted};
ghost use Rattle.facets.specs.declared.facets.Facets.{Facets};
ghost use Rattle.facets.specs.declared.known.Known.{Known};
ghost use Rattle.simple_types.specs.Holding.{holds_list};
ghost use Rattle.simple_types.specs.Least as spec;
ghost use Rattle.simple_types.specs.SimpleValidity.{AreInForce, IsMade, IsValid};
ghost use Rattle.simple_types.specs.TypeTree.{TypeTree};
ghost use Rattle.simple_types.specs.SimpleTypes.{first_fault_of};
ghost use Rattle.simple_types.specs.declared.types.SimpleTypes.{SimpleTypes as AnyTypes};

/// The first fault of some rules, or of all types, is the least of their faults, by document, item and place of the code;
/// there is none exactly where no rule is broken.
pub fn first_is_least()
    ensures rules { (rules : List Rule) → IsLeast (λ f. spec.IsAmong f (spec.faults_of_rules rules)) (first_fault rules) }
    ensures types { (types : AnyTypes) → IsLeast (λ f. spec.IsAmong f (spec.faults_of_types types)) (first_fault_of types) }
{}

/// cos-list-of-atomic (Structures 3.14.6), by recursion on the type: there is a list of items of a type exactly where that is no list and
/// no union that holds one, whatever facets are in force for it.
pub fn lists_are_of_what_holds_none()
    ensures { (tree : TypeTree) (facets : Facets) (known : Known) → AreInForce tree facets known → is_some (list_of facets) ≡ not (holds_list tree) }
{}

/// A value of an enumeration is judged by simple validity (Datatypes 4.3.5.5, Structures 3.14.4): where the literals of the base are known,
/// the facet is read to what its text comes to by the base, in the scope of the facet.
pub fn enumerations_are_judged_by_validity()
    ensures { (tree : TypeTree) (base : Facets) → IsMade tree base → (item : FacetItem) (read : FacetRead) → IsValueRead base item read → (outcome : Result Accepted Code) × IsValid tree item.scope item.text outcome × (read ≡ value_read outcome) }
{}
