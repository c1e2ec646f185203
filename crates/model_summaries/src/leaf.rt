//! The row of a symbol.

ghost use Rattle.std.specs.Prelude.{◌≡◌, ◌+◌, ◌<◌, ◌≤◌, Some};
ghost use Rattle.map_rows.specs.Rows.{IsLive, Updates};
ghost use Rattle.content_automaton.specs.Symbols.{count_of};
ghost use Rattle.content_automaton.specs.Automaton.{step_of, dead_of};
ghost use Rattle.model_summaries.specs.Maps.{width_of, leaf_of};

use content_automaton::Automaton;
use map_rows::{RowId, Rows};
use xsv_steps::{Ledger, Silent, Steps};

/// Writes for each state of an automaton the state after a child with this symbol. It takes one step.
///
/// The rows are as wide as the automaton has states, the dead one included.
pub fn leaf_row<L: Ledger>(
    automaton: &Automaton,
    rows: &mut Rows,
    row: RowId,
    symbol: u32,
    steps: &mut Steps<L>,
)
    requires row { IsLive rows.old row }
    requires width { rows.old.width ≡ width_of automaton.now }
    requires cap { rows.old.cap + 1 ≡ rows.old.width }
    requires symbol { symbol < count_of automaton.now.symbols }
    ensures row { Updates rows.old rows.new row (Some (leaf_of automaton.now symbol)) }
    ensures steps { steps.new ≡ steps.old + 1 }
{
    steps.tick(); // the making of a leaf row
    for state in 0..automaton.width() {
        rows.set_cell(row, state, next_state(automaton, state, symbol));
    }
}

// The state after this one by a symbol, which is not counted by itself.
fn next_state(automaton: &Automaton, state: u16, symbol: u32) -> u16
    requires { symbol < count_of automaton.now.symbols }
    ensures state { result ≡ step_of automaton.now.machine state symbol }
    ensures below { result ≤ dead_of automaton.now.machine }
{
    automaton.step(state, symbol, &mut Steps::new(Silent))
}
