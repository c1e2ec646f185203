ghost use Rattle.std.specs.Prelude.{◌≡◌, ◌++◌, ◌∷◌, ◌<◌, ◌^◌, [], length, IfOk, OnOk};
ghost use Rattle.schema_shape.specs.Shaped.{shape_fault};
ghost use Rattle.schema_set.specs.Documents as spec;
ghost use Rattle.schema_set.specs.inside.Reads.{faults_from};

use crate::Available;
use crate::inputs::{ReadDocuments, SchemaInput};
use item_listing::Locations;
use schema_shape::{Reading, read};
use std::alloc::{AllocError, Global};
use xs_lists::Listed;
use xs_names::Text;

// So many documents have numbers.
const MOST: usize = 65535;

// The locations once more. Their texts are shared, and not copied.
fn copies_of(alloc: Global, locations: &[Text]) -> Result<Locations, AllocError>
    ensures { IfOk result (λ copies. copies ≡ locations.now) }
{
    let mut copies = Locations::new(alloc);
    for location in locations {
        copies.push(location.try_clone()?)?;
    }
    Ok(copies)
}

// Puts what a document declares, and its fault, behind the others.
fn put_read(
    alloc: Global,
    number: u32,
    input: &SchemaInput,
    documents: &mut ReadDocuments,
) -> Result<(), AllocError>
    ensures available { OnOk result (documents.new.available ≡ documents.old.available ++ spec.available_of input.now ∷ []) }
    ensures faults { OnOk result (documents.new.faults ≡ documents.old.faults ++ shape_fault number input.now.tree.forest ∷ []) }
{
    let Reading { schema, fault } = read(alloc, number, &input.tree)?;
    let locations = copies_of(alloc, input.locations.as_slice())?;
    documents.available.push(Available {
        shaped: schema,
        locations,
    })?;
    documents.faults.push(fault)?;
    Ok(())
}

// Documents, of which there are few enough, read.
fn read_all(alloc: Global, inputs: &[SchemaInput]) -> Result<ReadDocuments, AllocError>
    requires few { length inputs.now < 2 ^ 16 }
    ensures available { IfOk result (λ documents. documents.available ≡ spec.available inputs.now) }
    ensures faults { IfOk result (λ documents. documents.faults ≡ faults_from 1 inputs.now) }
{
    let mut documents = ReadDocuments {
        available: Listed::new(alloc),
        faults: Listed::new(alloc),
    };
    let mut number = 1;
    for input in inputs {
        put_read(alloc, number, input, &mut documents)?;
        number += 1;
    }
    Ok(documents)
}

/// Schema documents, read: what each declares and the first constraint on its shape that it breaks.
///
/// # Errors
///
/// `AllocError` is want of memory, or of numbers: there are 65,535 documents at most.
pub fn read_documents(alloc: Global, inputs: &[SchemaInput]) -> Result<ReadDocuments, AllocError>
    ensures available { IfOk result (λ documents. documents.available ≡ spec.available inputs.now) }
    ensures faults { IfOk result (λ documents. documents.faults ≡ spec.shape_faults inputs.now) }
{
    if inputs.len() > MOST {
        return Err(AllocError);
    }
    read_all(alloc, inputs)
}
