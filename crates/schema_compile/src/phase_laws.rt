//! What is determined of the phases of compiling behind simple types.

ghost use Rattle.std.specs.Prelude.{◌≡◌, Option};
ghost use Rattle.xs_codes.specs.declared.fault.Fault.{Fault};
ghost use Rattle.schema_check.specs.Phases.{IsFirstOfPhases};
ghost use Rattle.schema_check.specs.declared.documents.CompiledSet.{CompiledSet};
ghost use Rattle.schema_compile.specs.Outcomes.{attr_phase, derivation_phase, model_phase, restriction_phase, identity_phase, late_phases};

/// Each phase behind simple types has at most one answer: of attributes and value constraints, of derivation, of content models, of their
/// restriction and of identity constraints (Structures 3.2.6, 3.3.6, 3.4.6, 3.6.6, 3.8.6, 3.9.6, 3.11.6). So the first fault of the first of them that has one is one, or
/// none of them has any.
pub fn the_first_late_fault_is_the_only_one()
    ensures attrs { (made : CompiledSet) (a b : Option Fault) → attr_phase made a → attr_phase made b → a ≡ b }
    ensures derivation { (made : CompiledSet) (a b : Option Fault) → derivation_phase made a → derivation_phase made b → a ≡ b }
    ensures models { (made : CompiledSet) (a b : Option Fault) → model_phase made a → model_phase made b → a ≡ b }
    ensures restriction { (made : CompiledSet) (a b : Option Fault) → restriction_phase made a → restriction_phase made b → a ≡ b }
    ensures identity { (made : CompiledSet) (a b : Option Fault) → identity_phase made a → identity_phase made b → a ≡ b }
    ensures only { (made : CompiledSet) (a b : Option Fault) → IsFirstOfPhases (late_phases made) a → IsFirstOfPhases (late_phases made) b → a ≡ b }
{}
