//! The terms of child elements by the content model of their parent.

ghost use Rattle.std.specs.Prelude.{◌≡◌, ◌<◌, ◌^◌, ℕ, Option, None, length, map, replicate, IfOk};
ghost use Rattle.std.specs.Option.{option_copied};
ghost use Rattle.content_automaton.specs.Symbols.{AreNamesOf};
ghost use Rattle.content_models.specs.Built.{symbols_of};
ghost use Rattle.assessment.specs.Attribution.{SchemaSet, AreTerms, AreTermsBy};
ghost use Rattle.assessment.specs.Fitting.{Fits};
ghost use Rattle.assessment.specs.inside.Found.{IsKept};

use crate::ChildTerms;
use crate::all_walk::terms_by_all;
use crate::state_walk::terms_by_states;
use content_models::ContentAutomaton;
use std::alloc::{AllocError, Global};
use xs_components::TermId;
use xs_names::{NameId, Names};

/// The terms of child elements with these names, and the place where they get stuck, by the automaton of their parent's content
/// model (Structures 3.4.4). Where there is no content model, no child has a term, and none gets stuck.
///
/// # Errors
///
/// `AllocError` is want of memory.
pub fn child_terms(
    alloc: Global,
    names: &Names,
    model: Option<&ContentAutomaton>,
    children: &[NameId],
) -> Result<ChildTerms, AllocError>
    requires names { AreNamesOf names.now children.now }
    requires few { length children.now < 2 ^ 32 }
    requires model { (s : SchemaSet) × (p : Option ℕ) × (s.names ≡ names.now) × Fits s p (option_copied model) }
    ensures terms { IfOk result (λ found. (s : SchemaSet) (p : Option ℕ) → s.names ≡ names.now → Fits s p (option_copied model.entry) →
        AreTerms s p children.now found.stuck found.terms.items) }
{
    match model {
        Some(automaton) => terms_by(alloc, names, automaton, children),
        None => no_terms(alloc, children),
    }
}

// The terms of child elements by an automaton.
fn terms_by(
    alloc: Global,
    names: &Names,
    automaton: &ContentAutomaton,
    children: &[NameId],
) -> Result<ChildTerms, AllocError>
    requires names { AreNamesOf names.now children.now }
    requires within { AreNamesOf names.now (symbols_of automaton.now).names }
    requires few { length children.now < 2 ^ 32 }
    ensures { IfOk result (λ found. (s : SchemaSet) (p : ℕ) → s.names ≡ names.now → IsKept s p automaton.now → AreTermsBy s p children.now found.stuck found.terms.items) }
{
    match automaton {
        ContentAutomaton::States(automaton) => terms_by_states(alloc, names, automaton, children),
        ContentAutomaton::All(automaton) => terms_by_all(alloc, names, automaton, children),
    }
}

// No term for each child, none of which gets stuck.
fn no_terms(alloc: Global, children: &[NameId]) -> Result<ChildTerms, AllocError>
    ensures stuck { IfOk result (λ found. found.stuck ≡ None) }
    ensures terms { IfOk result (λ found. found.terms.items ≡ map (λ name. None) children.now) }
{
    let terms = none_of(alloc, children.len())?;
    Ok(ChildTerms { stuck: None, terms })
}

// So many times no term.
fn none_of(alloc: Global, count: usize) -> Result<Vec<Option<TermId>>, AllocError>
    ensures { IfOk result (λ terms. terms.items ≡ replicate count None) }
{
    let mut terms = Vec::new(alloc);
    for _ in 0..count {
        terms.push(None)?;
    }
    Ok(terms)
}
