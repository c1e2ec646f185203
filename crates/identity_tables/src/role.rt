//! What an atom of a type is for IDs.

ghost use Rattle.std.specs.Prelude.{◌≡◌};
ghost use Rattle.identity_tables.specs.Ids as spec;

use xs_codes::Builtin;

/// What an atom is for the IDs of a document, by the type that accepted it.
#[derive(Clone, Copy)]
pub enum IdRole {
    /// An ID (Datatypes 3.3.8).
    Id,
    /// A reference to an ID (Datatypes 3.3.9).
    Reference,
    /// Neither.
    Neither,
}

/// What an atom is for the IDs of a document, by the built-in type that accepted it, or the nearest one that the accepting
/// type is derived from: no built-in type is derived from ID or from IDREF.
pub fn role_of(builtin: Builtin) -> IdRole
    ensures { result ≡ spec.role_of builtin }
{
    match builtin {
        Builtin::Id => IdRole::Id,
        Builtin::IdRef => IdRole::Reference,
        _ => IdRole::Neither,
    }
}
