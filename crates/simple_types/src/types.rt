//! The simple types of a schema set.
ghost use Rattle.std.specs.Prelude.{◌≡◌, IfOk};
ghost use Rattle.xs_components.specs.Tables.{Tables};
ghost use Rattle.component_references.specs.Ranked.{IsRanked};
ghost use Rattle.simple_types.specs.Trees.{type_tree};
ghost use Rattle.simple_types.specs.SimpleValidity.{IsMade};
ghost use Rattle.simple_types.specs.TypeTree.{TypeTree};
ghost use Rattle.simple_types.specs.SimpleTypes as spec;
ghost use Rattle.simple_types.specs.inside.Numbers as inside;

use crate::building::first_of;
use crate::content::judged_contents;
use crate::filling::judged_simples;
use crate::{JudgedType, validated};
use facets::{Accepted, Facets, read_builtin};
use simple_values::Value;
use std::alloc::{AllocError, Global};
use xs_codes::{Code, Fault};
use xs_components::{Components, TypeId};
use xs_lists::Listed;
use xs_names::Scope;

/// The simple types of a set and the simple contents of its complex types, ready to judge texts.
pub struct SimpleTypes {
    simples: Listed<JudgedType>,
    complexes: Listed<JudgedType>,
}

/// What building gives: the types, or the first fault among them.
pub type Built = Result<SimpleTypes, Fault>;

impl SimpleTypes {
    /// The types of a set whose references go to lower ranks.
    ///
    /// # Errors
    ///
    /// The first fault of simple types and facets (Structures 3.14.6; Datatypes 4.3) by document, item and the order of the
    /// codes. A rule that reads what another fault leaves undefined is not broken.
    pub fn build(alloc: Global, parts: &Components) -> Result<Built, AllocError>
        requires ranked { IsRanked parts.now }
        ensures { IfOk result (λ built. spec.IsBuilt parts.now built) }
    {
        let simples = judged_simples(alloc, parts)?;
        let complexes = judged_contents(alloc, parts, simples.as_slice())?;
        let best = first_of(None, simples.as_slice());
        match first_of(best, complexes.as_slice()) {
            Some(fault) => Ok(Err(fault)),
            None => Ok(Ok(SimpleTypes {
                simples: Listed::from_vec(simples),
                complexes: Listed::from_vec(complexes),
            })),
        }
    }

    /// The value of a text by a type, or the first code of why it has none (Structures 3.14.4; Datatypes 4.1.4).
    pub fn validate(
        &mut self,
        alloc: Global,
        of: TypeId,
        text: &str,
        scope: &Scope,
    ) -> Result<Result<Value, Code>, AllocError>
        ensures value { (t : Tables) → IsRanked t → spec.AreTypesOf t self.old → spec.IsWhole self.old of → IfOk result (λ outcome. spec.IsValueOf (type_tree t of) scope.now text.now outcome) }
        ensures same { self.new ≡ self.old }
    {
        match of {
            TypeId::AnyType => Ok(Err(Code::CvcDatatypeValid1)),
            TypeId::Builtin(kind) => read_builtin(alloc, kind, text, scope),
            TypeId::Simple(id) => value_in(
                alloc,
                self.simples.as_slice(),
                id.number(),
                text,
                scope,
            ),
            TypeId::Complex(id) => value_in(
                alloc,
                self.complexes.as_slice(),
                id.number(),
                text,
                scope,
            ),
        }
    }
}

// The value of a text by the type of a number.
fn value_in(
    alloc: Global,
    table: &[JudgedType],
    number: u32,
    text: &str,
    scope: &Scope,
) -> Result<Result<Value, Code>, AllocError>
    ensures { (tree : TypeTree) → inside.IsMadeAt tree table.now number → IfOk result (λ outcome. spec.IsValueOf tree scope.now text.now outcome) }
{
    if (number as usize) < table.len() {
        value_of_type(alloc, &table[number as usize], text, scope)
    } else {
        Ok(Err(Code::CvcDatatypeValid1))
    }
}

fn value_of_type(
    alloc: Global,
    judged: &JudgedType,
    text: &str,
    scope: &Scope,
) -> Result<Result<Value, Code>, AllocError>
    ensures { (tree : TypeTree) → IsMade tree judged.now.of.facets → IfOk result (λ outcome. spec.IsValueOf tree scope.now text.now outcome) }
{
    value_by(alloc, &judged.of.facets, text, scope)
}

// The value of a text by the type that has these facets.
fn value_by(
    alloc: Global,
    facets: &Facets,
    text: &str,
    scope: &Scope,
) -> Result<Result<Value, Code>, AllocError>
    ensures { (tree : TypeTree) → IsMade tree facets.now → IfOk result (λ outcome. spec.IsValueOf tree scope.now text.now outcome) }
{
    let outcome = validated(alloc, facets, text, scope)?;
    Ok(value_of(outcome))
}

fn value_of(outcome: Result<Accepted, Code>) -> Result<Value, Code>
    ensures { result ≡ spec.value_of outcome }
{
    match outcome {
        Ok(accepted) => Ok(accepted.value),
        Err(code) => Err(code),
    }
}

impl Drop for SimpleTypes {
    fn drop(self) {
        let SimpleTypes { simples, complexes } = self;
        drop(simples);
        drop(complexes);
    }
}
