ghost use Rattle.std.specs.Prelude.{◌≡◌, ℕ, ◌+◌, ◌*◌, ◌<◌, ◌≤◌, List, OnOk, IfOk, OnErr};
ghost use Rattle.std.specs.Io.KnownBytes.{Appends};
ghost use Rattle.xsv_io.specs.Causes.{HasCause};
ghost use Rattle.xsv_io.specs.Writing.{AppendsFront};
ghost use Rattle.kept_next.specs.Next as spec;
ghost use Rattle.kept_next.specs.Next.{IsNamed, FitsAs, AreFits, lines_below, fits_below};
ghost use Rattle.kept_next.specs.declared.symbol.Fit.{Fit as FitData};

use crate::lines::write_line;
use crate::{Around, Fit};
use xs_names::Names;
use xsv_io::{Failed, Sink};
use xsv_steps::{Ledger, Steps};

/// How a symbol fits at the place, from the state before it.
fn fit_at<A: Around, L: Ledger>(
    around: &A,
    before: A::State,
    symbol: u32,
    steps: &mut Steps<L>,
) -> Fit
    requires symbol { symbol < A.count around.now }
    requires before { A.is_before around.now before }
    ensures fit { (before behind : List ℕ) → A.are_around around.now before behind → FitsAs (A.is_word around.now) before behind (A.in_words around.now symbol) result }
    ensures least { steps.old ≤ steps.new }
    ensures most { steps.new ≤ steps.old + (A.with_most around.now + A.after_most around.now) }
{
    let with = around.with(before, symbol, steps);
    let after = around.after(with, steps);
    around.verdict(after)
}

/// Writes a line for each symbol that fits at the place, in order: what it stands for, and whether the child elements are a word
/// of the content model with it or begin one. Answers how many there are. It takes no memory.
///
/// # Errors
///
/// `Failed` comes only where the sink's count of faults rose. A front of the lines was then written.
pub fn write_next<W: Sink, A: Around, L: Ledger>(
    sink: &mut W,
    names: &Names,
    around: &A,
    steps: &mut Steps<L>,
) -> Result<u32, Failed>
    requires named { (symbol : ℕ) → symbol < A.count around.now → IsNamed names.now (A.name_of around.now symbol) }
    ensures ok { OnOk result ((fit_of : ℕ → FitData) → AreFits (A.is_word around.now) (A.are_around around.now) (A.in_words around.now) (A.count around.now) fit_of →
        Appends (W.taken sink.old) (W.taken sink.new) (lines_below names.now (A.name_of around.now) fit_of (A.count around.now))) }
    ensures count { IfOk result (λ lines. (fit_of : ℕ → FitData) → AreFits (A.is_word around.now) (A.are_around around.now) (A.in_words around.now) (A.count around.now) fit_of →
        lines ≡ fits_below fit_of (A.count around.now)) }
    ensures err { OnErr result ((fit_of : ℕ → FitData) → AreFits (A.is_word around.now) (A.are_around around.now) (A.in_words around.now) (A.count around.now) fit_of →
        AppendsFront (W.taken sink.old) (W.taken sink.new) (lines_below names.now (A.name_of around.now) fit_of (A.count around.now))) }
    ensures few { IfOk result (λ lines. lines ≤ A.count around.now) }
    ensures cause { HasCause (W.faults sink.old) (W.faults sink.new) result }
    ensures kept { W.fault_bound sink.new ≡ W.fault_bound sink.old }
    ensures least { steps.old ≤ steps.new }
    ensures most { steps.new ≤ steps.old + (A.before_most around.now + A.count around.now * (A.with_most around.now + A.after_most around.now)) }
{
    let before = around.before(steps);
    let mut lines = 0;
    for symbol in 0..around.symbols() {
        let fit = fit_at(around, before, symbol, steps);
        write_line(sink, names, around.symbol_name(symbol), fit)?;
        lines += lines_of(fit);
    }
    Ok(lines)
}

/// How many lines tell how a symbol fits.
fn lines_of(fit: Fit) -> u32
    ensures { result ≡ spec.lines_of fit }
{
    match fit {
        Fit::No => 0,
        Fit::Prefix | Fit::Word => 1,
    }
}
