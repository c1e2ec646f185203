ghost use Rattle.std.specs.Prelude.{◌≡◌, ◌<◌, ◌≤◌, length, Option, IfOk, OnOk};
ghost use Rattle.xsv_io.specs.Causes.{KeepsCount};
ghost use Rattle.session_model.specs.Spending.{Counts};
ghost use Rattle.told.specs.Going.{Answers, trace};
ghost use Rattle.told.specs.Tells.{Wrote, IsWriteFault};
ghost use Rattle.told.specs.Told.{Told};
ghost use Rattle.open_document.specs.Answers as answers;
ghost use Rattle.open_document.specs.State.{Basis, OpenState, WorkState, empty, ready, working, IsReady, IsOpen};

use crate::compiling::compile_into;
use crate::held::{Held, open};
use crate::working::{answer, tell_first, tell_report, verdict};
use crate::{SetVerdict, Verdict};
use item_listing::Items;
use plain_tree::Tree;
use schema_set::SchemaInput;
use std::alloc::{AllocError, Global};
use std::marker::Model;
use told::BreakOff;
use xs_names::Text;
use xsv_io::Sink;
use xsv_steps::{Ledger, Steps};

/// What a stream works on: nothing yet, the schema set that documents are assessed by, or the document that is open. Contracts
/// see which, with the set, or with the session over the document; and with the schema documents of the stream.
#[derive(Drop)]
pub struct Workspace {
    held: Held,
}

impl Model for Workspace {
    ghost use Rattle.open_document.specs.State.{WorkState};
    ghost use Rattle.open_document.specs.WorkCode.{work_code};

    ghost Value = { WorkState };

    ghost coded = { work_code };

    ghost use Rattle.open_document.specs.Held.{work_of, IsKept};

    ghost view = { λ w. work_of w.held };

    ghost invariant = { λ w. IsKept w.held };
}

impl Workspace {
    /// Nothing yet.
    pub fn new() -> Self
        ensures { result ≡ empty }
    {
        Workspace { held: Held::Empty }
    }

    /// Compiles schema documents. A set that is accepted is what documents are assessed by from then on, and the documents are kept
    /// with it; else nothing changes.
    ///
    /// # Errors
    ///
    /// `AllocError` is want of memory.
    pub fn compile(
        &mut self,
        alloc: Global,
        documents: Vec<SchemaInput>,
    ) -> Result<SetVerdict, AllocError>
        requires some { 0 < length documents.items }
        ensures compiled { IfOk result (λ told. answers.IsCompiled documents.items self.old told self.new) }
    {
        compile_into(&mut self.held, alloc, documents)
    }

    /// Opens a document, which is assessed by the schema set that is ready. A question for its record lines that have a code is
    /// answered by `most` lines at most.
    ///
    /// # Errors
    ///
    /// `AllocError` is want of memory.
    pub fn open<L: Ledger>(
        &mut self,
        alloc: Global,
        tree: Tree,
        most: u32,
        steps: &mut Steps<L>,
    ) -> Result<(), AllocError>
        requires { IsReady self.old }
        ensures opened { (basis : Basis) → self.old ≡ ready basis → OnOk result (answers.IsOpenedBy most basis tree self.new) }
        ensures open { OnOk result (IsOpen self.new) }
        ensures steps { Counts steps.old steps.new (answers.opening_cost tree) }
    {
        open(&mut self.held, alloc, tree, most, steps)
    }

    /// Writes the report: the record line of each element and attribute, and the number of all codes.
    ///
    /// # Errors
    ///
    /// `WriteFault` where the sink failed; a front was then written.
    pub fn write_report<W: Sink>(&self, sink: &mut W) -> Result<(), BreakOff>
        requires { IsOpen self.now }
        ensures wrote { (s : OpenState) → self.now ≡ working s → Wrote result (W.taken sink.old) (W.taken sink.new) (answers.report s) }
        ensures writes { KeepsCount W.faults W.fault_bound sink.old sink.new (IsWriteFault result) }
    {
        match &self.held {
            Held::Working(document) => tell_report(document, sink),
            Held::Empty | Held::Ready(_) => unreachable!(),
        }
    }

    /// Writes the first line of a session: the revision and the number of codes.
    ///
    /// # Errors
    ///
    /// `WriteFault` where the sink failed; a front was then written.
    pub fn write_first<W: Sink>(&self, sink: &mut W) -> Result<(), BreakOff>
        requires { IsOpen self.now }
        ensures wrote { (s : OpenState) → self.now ≡ working s → Wrote result (W.taken sink.old) (W.taken sink.new) (answers.first_line s) }
        ensures writes { KeepsCount W.faults W.fault_bound sink.old sink.new (IsWriteFault result) }
    {
        match &self.held {
            Held::Working(document) => tell_first(document, sink),
            Held::Empty | Held::Ready(_) => unreachable!(),
        }
    }

    /// Answers a command, with the items of its block where it has one.
    ///
    /// # Errors
    ///
    /// `Memory` is want of memory, and nothing was written. `WriteFault` where the sink failed; a front of the reply was then
    /// written. The document is then of no use.
    pub fn answer<W: Sink, L: Ledger>(
        &mut self,
        alloc: Global,
        line: &Text,
        block: Option<Items>,
        sink: &mut W,
        steps: &mut Steps<L>,
    ) -> Result<(), BreakOff>
        requires { IsOpen self.old }
        // What is told of the command was written, whatever is told behind it; or the answer was broken off on the way.
        ensures answers { (s : OpenState) (next : WorkState → Told) → self.old ≡ working s → Answers (answers.command_told s line.now block (λ q. next (working q)))
            result (trace (W.taken sink.old) steps.old) (trace (W.taken sink.new) steps.new) (λ done. next self.new) }
        ensures open { OnOk result (IsOpen self.new) }
        ensures writes { KeepsCount W.faults W.fault_bound sink.old sink.new (IsWriteFault result) }
        ensures later { steps.old ≤ steps.new }
    {
        match &mut self.held {
            Held::Working(document) => answer(alloc, document, line, block, sink, steps),
            Held::Empty | Held::Ready(_) => unreachable!(),
        }
    }

    /// What the last line tells: the validity of the root, and the number of codes.
    pub fn verdict(&self) -> Verdict
        requires { IsOpen self.now }
        ensures { (s : OpenState) → self.now ≡ working s → result ≡ answers.verdict s }
    {
        match &self.held {
            Held::Working(document) => verdict(document),
            Held::Empty | Held::Ready(_) => unreachable!(),
        }
    }
}
