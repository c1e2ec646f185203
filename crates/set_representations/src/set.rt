ghost use Rattle.std.specs.Prelude.{◌≡◌, [], ◌∷◌, ◌++◌, Some, length, slice_get, IfOk, OnOk};
ghost use Rattle.xs_names.specs.Names.{Grown};
ghost use Rattle.xs_names.specs.Scope.{first_scope};
ghost use Rattle.representations.specs.Documents.{document_table};
ghost use Rattle.representations.specs.Behind.{AreBehind};
ghost use Rattle.representations.specs.Named.{AreNamed};
ghost use Rattle.representations.specs.Lasting.{IsLasting};
ghost use Rattle.set_representations.specs.Documents as spec;

use crate::reader::Reader;
use representations::{Origin, Representation};
use schema_set::SetDocument;
use std::alloc::{AllocError, Global};
use xs_lists::Listed;
use xs_names::{Names, Scope};

/// What the documents of a set are read as.
#[derive(Drop)]
pub struct RepresentedSet {
    /// What each element represents, document by document, in document order.
    pub reps: Listed<Representation>,
    /// The scope outside of all elements, then those that elements with bindings open.
    pub scopes: Listed<Scope>,
    /// The documents.
    pub origins: Listed<Origin>,
}

impl RepresentedSet {
    // Nothing but the scope outside of all elements.
    fn new(alloc: Global) -> Result<Self, AllocError>
        ensures { IfOk result (λ made. made ≡ record { reps = []; scopes = first_scope ∷ []; origins = [] }) }
    {
        let mut scopes = Listed::new(alloc);
        scopes.push(Scope::new(alloc)?)?;
        Ok(RepresentedSet {
            reps: Listed::new(alloc),
            scopes,
            origins: Listed::new(alloc),
        })
    }

    // Reads a document behind the others.
    fn add(
        &mut self,
        alloc: Global,
        names: &mut Names,
        document: &SetDocument<'_>,
    ) -> Result<(), AllocError>
        requires begins { slice_get self.old.scopes 0 ≡ Some first_scope }
        requires named { AreNamed names.old self.old.reps }
        ensures table { OnOk result (names.new ≡ document_table document.now.target (spec.shapes_of document.now) names.old) }
        ensures reps { OnOk result (IsLasting names.new (λ t. self.old.reps ++ spec.document_representations t (length self.old.reps) (length self.old.scopes) document.now) self.new.reps) }
        ensures scopes { OnOk result (IsLasting names.new (λ t. self.old.scopes ++ spec.document_scopes t document.now) self.new.scopes) }
        ensures origins { OnOk result (IsLasting names.new (λ t. self.old.origins ++ spec.origin_of t (length self.old.reps) document.now ∷ []) self.new.origins) }
        ensures named { OnOk result (AreNamed names.new self.new.reps) }
        ensures grown { Grown names.old names.new }
    {
        let shapes = document.shaped.shapes.as_slice();
        let first = self.reps.len();
        if first > u32::MAX as usize {
            return Err(AllocError);
        }
        let mut reader = Reader::of(alloc, names, document, first as u32)?;
        reader.add_all(alloc, names, shapes, &mut self.reps, &mut self.scopes)?;
        let Reader {
            reading,
            imports,
            ..
        } = reader;
        self.origins.push(Origin {
            target: reading.target,
            imports,
            end: first as u32 + shapes.len() as u32,
        })?;
        Ok(())
    }
}

/// What the elements of the documents of a set represent, with their places, scopes and origins (Structures 3 and 4.2). The names
/// that stand in the documents come into the table, in the order of the documents.
///
/// # Errors
///
/// `AllocError` is want of memory, or of places: there are 2 to the power of 32. Names may have come into the table then.
pub fn represent(
    alloc: Global,
    names: &mut Names,
    documents: &[SetDocument<'_>],
) -> Result<RepresentedSet, AllocError>
    ensures table { OnOk result (names.new ≡ spec.set_table names.old documents.now) }
    ensures reps { IfOk result (λ made. made.reps ≡ spec.representations names.new documents.now) }
    ensures scopes { IfOk result (λ made. made.scopes ≡ spec.scopes names.new documents.now) }
    ensures origins { IfOk result (λ made. made.origins ≡ spec.origins names.new documents.now) }
    ensures behind { IfOk result (λ made. AreBehind made.reps) }
    ensures named { IfOk result (λ made. AreNamed names.new made.reps) }
    ensures grown { Grown names.old names.new }
{
    let mut made = RepresentedSet::new(alloc)?;
    for document in documents {
        made.add(alloc, names, document)?;
    }
    Ok(made)
}
