//! What a text comes to by a simple type.
ghost use Rattle.std.specs.Prelude.{IfOk};
ghost use Rattle.simple_types.specs.TypeTree.{TypeTree};
ghost use Rattle.simple_types.specs.SimpleValidity.{IsMade, IsValid};

use facets::{Accepted, Facets};
use std::alloc::{AllocError, Global};
use xs_codes::Code;
use xs_names::Scope;

/// What a text comes to by the type that has these facets: its value, with the text that this was read from, or the code of
/// why it is none (Structures 3.14.4).
pub fn validated(
    alloc: Global,
    facets: &Facets,
    text: &str,
    scope: &Scope,
) -> Result<Result<Accepted, Code>, AllocError>
    ensures { (tree : TypeTree) → IsMade tree facets.now → IfOk result (λ outcome. IsValid tree scope.now text.now outcome) }
{
    facets.read(alloc, text, scope)
}
