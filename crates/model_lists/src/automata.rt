//! What automata are, where a list tells it.

ghost use Rattle.std.specs.Prelude.{◌≡◌};
ghost use Rattle.content_automaton.specs.Modelled.{ModelAutomaton};
ghost use Rattle.content_models.specs.Modelled.{AllModel};
ghost use Rattle.content_models.specs.declared.automaton.ContentAutomaton.TheVariants.{States, All};

use content_automaton::Automaton;
use content_models::{AllAutomaton, ContentAutomaton};

/// The automaton over states that this one is.
pub(crate) fn states_of(automaton: &ContentAutomaton) -> &Automaton
    requires { (a : ModelAutomaton) × (automaton.now ≡ States a) }
    ensures { automaton.now ≡ States result.now }
{
    match automaton {
        ContentAutomaton::States(states) => states,
        ContentAutomaton::All(_) => unreachable!(),
    }
}

/// The automaton of an `all` that this one is.
pub(crate) fn members_of(automaton: &ContentAutomaton) -> &AllAutomaton
    requires { (a : AllModel) × (automaton.now ≡ All a) }
    ensures { automaton.now ≡ All result.now }
{
    match automaton {
        ContentAutomaton::States(_) => unreachable!(),
        ContentAutomaton::All(members) => members,
    }
}
