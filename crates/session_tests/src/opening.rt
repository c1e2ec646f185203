//! Sets, documents and sessions of lines.

ghost use Rattle.std.specs.Prelude.{◌≡◌, ◌<◌, All, IfOk, length};
ghost use Rattle.tree_rows.specs.Whole.{IsTree};
ghost use Rattle.compiled_schema.specs.Usable.{IsUsable};
ghost use Rattle.schema_compile.specs.Outcomes.{IsOutcome};

use compiled_schema::Compiled;
use item_listing::{Items, read_item};
use plain_tree::{Tree, read_tree};
use schema_compile::{Outcome, compile_from};
use schema_set::SchemaInput;
use session_model::Session;
use std::alloc::{AllocError, Global};
use std::process::Abort;
use xs_names::{Text, Texts};
use xsv_steps::{Ledger, Steps};

/// A schema document: where it is found, and its lines.
#[derive(Clone, Copy)]
pub struct SchemaLines {
    pub location: &'static str,
    pub lines: &'static [&'static str],
}

/// The items of these lines.
pub fn items_of(alloc: Global, lines: &[&str]) -> Result<Items, AllocError> {
    let mut items = Items::new(alloc);
    for line in lines {
        if let Ok(item) = read_item(alloc, true, line.as_bytes())? {
            items.push(item)?;
        }
    }
    Ok(items)
}

/// The tree of these lines.
pub fn tree_of<A: Abort>(rt: &A, alloc: Global, lines: &[&str]) -> Result<Tree, AllocError> {
    let items = items_of(alloc, lines)?;
    match read_tree(alloc, items.as_slice())? {
        Ok(tree) => Ok(tree),
        Err(_) => panic!(rt; "no tree"),
    }
}

// A schema document.
fn input_of<A: Abort>(
    rt: &A,
    alloc: Global,
    schema: &SchemaLines,
) -> Result<SchemaInput, AllocError> {
    let mut locations = Texts::new(alloc);
    locations.push(Text::new(alloc, schema.location)?)?;
    let tree = tree_of(rt, alloc, schema.lines)?;
    Ok(SchemaInput { tree, locations })
}

// The trees of schema documents are whole.
fn are_whole(documents: &[SchemaInput])
    ensures { All (λ input. IsTree input.tree) documents.now }
{
    for input in documents {
        let _next = input.tree.next_free();
    }
}

// What some schema documents come to, of which there is one at least.
fn outcome_of<A: Abort>(
    rt: &A,
    alloc: Global,
    documents: &[SchemaInput],
) -> Result<Outcome, AllocError>
    ensures { IfOk result (IsOutcome documents.now 0) }
{
    if documents.is_empty() {
        panic!(rt; "no schema document");
    }
    are_whole(documents);
    compile_from(alloc, documents, 0)
}

// The set that some schema documents come to.
fn accepted<A: Abort>(
    rt: &A,
    alloc: Global,
    documents: &[SchemaInput],
) -> Result<Box<Compiled>, AllocError>
    ensures { IfOk result (λ set. IsUsable set.value) }
{
    match outcome_of(rt, alloc, documents)? {
        Outcome::Accepted(set) => boxed(alloc, set),
        Outcome::Broken(_) => panic!(rt; "no set"),
    }
}

// A value, boxed. For any type, so that no proof goes into what the value is made of.
fn boxed<T: Drop>(alloc: Global, value: T) -> Result<Box<T>, AllocError>
    ensures { IfOk result (λ boxed. boxed.value ≡ value) }
{
    match Box::new(alloc, value) {
        Ok(boxed) => Ok(boxed),
        Err(_) => Err(AllocError),
    }
}

// The set of these schema documents.
fn set_of<A: Abort>(
    rt: &A,
    alloc: Global,
    schemas: &[SchemaLines],
) -> Result<Box<Compiled>, AllocError>
    ensures { IfOk result (λ set. IsUsable set.value) }
{
    let mut documents = Vec::new(alloc);
    for schema in schemas {
        documents.push(input_of(rt, alloc, schema)?)?;
    }
    accepted(rt, alloc, documents.as_slice())
}

/// A session over a document, by the set of these schema documents.
pub fn open<S: Session, L: Ledger, A: Abort>(
    rt: &A,
    alloc: Global,
    schemas: &[SchemaLines],
    tree: Tree,
    steps: &mut Steps<L>,
) -> Result<S, AllocError> {
    match set_of(rt, alloc, schemas) {
        Ok(set) => S::open(alloc, set, tree, steps),
        Err(error) => Err(error),
    }
}
