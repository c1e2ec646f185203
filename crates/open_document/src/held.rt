//! What a workspace keeps.

ghost use Rattle.std.specs.Prelude.{◌≡◌, false, [], IfOk, OnOk};
ghost use Rattle.compiled_schema.specs.Usable.{set_of};
ghost use Rattle.session_model.specs.Spending.{Counts};
ghost use Rattle.kept_next.specs.Spaces.{HasSpacesNamed};
ghost use Rattle.open_document.specs.Answers as answers;
ghost use Rattle.open_document.specs.Held.{basis_of, state_of, work_of, begun, IsKept, IsLogged, IsReadySet};
ghost use Rattle.open_document.specs.State.{Basis, working, ready, with_documents, kept_trees, IsReady, IsOpen};
ghost use Rattle.edit_history.specs.Log.{log_of};
ghost use Rattle.edit_history.specs.declared.log.Taken.TheVariants.{Nothing};

use compiled_schema::Compiled;
use doc_tree::Change;
use edit_history::{TurnLog, UndoLog};
use edit_session::EditSession;
use plain_session::let_go;
use plain_tree::Tree;
use schema_set::SchemaInput;
use session_model::Session;
use std::alloc::{AllocError, Global};
use std::mem;
use xsv_steps::{Ledger, Steps};

/// How many trees that were before the present one are kept.
const KEPT_TREES: u32 = 64;

/// A set by which documents may be assessed, and the schema documents that it was compiled of.
#[derive(Drop)]
pub(crate) struct CompiledBasis {
    pub set: Box<Compiled>,
    pub documents: Vec<SchemaInput>,
}

impl CompiledBasis {
    /// Lets go of it.
    fn close(self) {
        let CompiledBasis { set, documents } = self;
        let_go(Box::into_inner(set));
        drop(documents);
    }
}

/// A document that is open.
#[derive(Drop)]
pub(crate) struct OpenDocument {
    pub session: EditSession,
    /// The schema documents of the stream.
    pub documents: Vec<SchemaInput>,
    /// How many record lines a question for those with a code is answered by at most.
    pub most: u32,
    /// The changes that lead back to the trees before, and on to those that were left by undoing.
    pub log: UndoLog<Change>,
    /// The edits, undos and redos that were accepted, by their authors.
    pub turns: TurnLog,
}

impl OpenDocument {
    /// Lets go of it.
    fn close(self) {
        let OpenDocument {
            session,
            documents,
            log,
            turns,
            ..
        } = self;
        session.close();
        drop(documents);
        drop(log);
        drop(turns);
    }
}

/// What a workspace keeps, boxed where it is large.
#[derive(Drop)]
pub(crate) enum Held {
    Empty,
    Ready(CompiledBasis),
    Working(Box<OpenDocument>),
}

/// A value, boxed. For any type, so that no proof goes into what the value is made of.
///
/// # Errors
///
/// `AllocError` is want of memory.
pub fn boxed<T: Drop>(alloc: Global, value: T) -> Result<Box<T>, AllocError>
    ensures { IfOk result (λ boxed. boxed.value ≡ value) }
{
    match Box::new(alloc, value) {
        Ok(boxed) => Ok(boxed),
        Err(_) => Err(AllocError),
    }
}

/// Lets go of what is kept.
fn close(held: Held) {
    match held {
        Held::Empty => {}
        Held::Ready(basis) => basis.close(),
        Held::Working(document) => Box::into_inner(document).close(),
    }
}

// Keeps this in place of what was kept.
fn keep(held: &mut Held, next: Held)
    ensures { held.new ≡ next }
{
    close(mem::replace(held, next));
}

/// Keeps a set by which documents may be assessed, and the schema documents that it was compiled of.
pub(crate) fn make_ready(
    held: &mut Held,
    alloc: Global,
    set: Compiled,
    documents: Vec<SchemaInput>,
) -> Result<(), AllocError>
    requires ready { IsReadySet set }
    requires kept { IsKept held.old }
    ensures ready { OnOk result (work_of held.new ≡ ready (with_documents documents.items (set_of set))) }
    ensures kept { IsKept held.new }
{
    match Box::new(alloc, set) {
        Ok(set) => {
            keep(held, Held::Ready(CompiledBasis { set, documents }));
            Ok(())
        }
        Err(failed) => {
            let_go(failed.value);
            Err(AllocError)
        }
    }
}

// Keeps a document that is open.
fn work_on(held: &mut Held, alloc: Global, document: OpenDocument) -> Result<(), AllocError>
    requires kept { IsKept held.old }
    requires logged { document.session.closed ≡ false → IsLogged document }
    ensures working { OnOk result (work_of held.new ≡ working (state_of document)) }
    ensures kept { IsKept held.new }
{
    match Box::new(alloc, document) {
        Ok(document) => {
            keep(held, Held::Working(document));
            Ok(())
        }
        Err(failed) => {
            failed.value.close();
            Err(AllocError)
        }
    }
}

// What an open document keeps of the steps and turns that led to it.
#[derive(Drop)]
struct Past {
    log: UndoLog<Change>,
    turns: TurnLog,
}

// No steps and no turns.
fn no_past(alloc: Global) -> Result<Past, AllocError>
    ensures log { IfOk result (λ past. past.log ≡ log_of kept_trees [] [] Nothing) }
    ensures turns { IfOk result (λ past. past.turns.turns ≡ []) }
{
    let log = UndoLog::new(alloc, KEPT_TREES)?;
    let turns = TurnLog::new(alloc)?;
    Ok(Past { log, turns })
}

// Keeps a session that was just opened over a document.
fn work_in(
    held: &mut Held,
    alloc: Global,
    session: EditSession,
    documents: Vec<SchemaInput>,
    most: u32,
) -> Result<(), AllocError>
    requires kept { IsKept held.old }
    requires spaced { HasSpacesNamed session.set }
    requires first { session.revision ≡ 0 }
    ensures working { OnOk result (work_of held.new ≡ working (begun session documents.items most)) }
    ensures kept { IsKept held.new }
{
    match no_past(alloc) {
        Ok(past) => {
            let document = OpenDocument {
                session,
                documents,
                most,
                log: past.log,
                turns: past.turns,
            };
            work_on(held, alloc, document)
        }
        Err(error) => {
            session.close();
            drop(documents);
            Err(error)
        }
    }
}

// Opens a document by a set.
fn open_by<L: Ledger>(
    held: &mut Held,
    alloc: Global,
    basis: CompiledBasis,
    tree: Tree,
    most: u32,
    steps: &mut Steps<L>,
) -> Result<(), AllocError>
    requires ready { IsReadySet basis.set.value }
    requires kept { IsKept held.old }
    ensures opened { OnOk result (answers.IsOpenedBy most (basis_of basis) tree (work_of held.new)) }
    ensures open { OnOk result (IsOpen (work_of held.new)) }
    ensures steps { Counts steps.old steps.new (answers.opening_cost tree) }
    ensures kept { IsKept held.new }
{
    let CompiledBasis { set, documents } = basis;
    match EditSession::open(alloc, set, tree, steps) {
        Ok(session) => work_in(held, alloc, session, documents, most),
        Err(error) => Err(error),
    }
}

/// Opens a document by the set that is ready, of which a question for record lines with a code is answered by so many at most. For
/// want of memory the set is let go of.
pub(crate) fn open<L: Ledger>(
    held: &mut Held,
    alloc: Global,
    tree: Tree,
    most: u32,
    steps: &mut Steps<L>,
) -> Result<(), AllocError>
    requires ready { IsReady (work_of held.old) }
    requires kept { IsKept held.old }
    ensures opened { (basis : Basis) → work_of held.old ≡ ready basis → OnOk result (answers.IsOpenedBy most basis tree (work_of held.new)) }
    ensures open { OnOk result (IsOpen (work_of held.new)) }
    ensures steps { Counts steps.old steps.new (answers.opening_cost tree) }
    ensures kept { IsKept held.new }
{
    match mem::replace(held, Held::Empty) {
        Held::Ready(basis) => open_by(held, alloc, basis, tree, most, steps),
        Held::Empty | Held::Working(_) => unreachable!(),
    }
}
