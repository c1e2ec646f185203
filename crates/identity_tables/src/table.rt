//! The table of a document's IDs and of the references to them.

ghost use Rattle.std.specs.Prelude.{◌≡◌, ◌++◌, ◌∷◌, List, [], IfOk, OnOk};
ghost use Rattle.identity_tables.specs.Ids as spec;
ghost use Rattle.identity_tables.specs.Ids.{BorneAtom};
ghost use Rattle.identity_tables.specs.Table.{IsTableOf, IsGrown};

use crate::IdTable;
use crate::role::{IdRole, role_of};
use shared_lists::Shared;
use simple_values::{Atom, TypedAtom, Value};
use std::alloc::{AllocError, Global};
use std::marker::Model;
use xs_codes::{Builtin, Code, Found};
use xs_lists::Listed;

/// The IDs of a document with the elements that bear them, and the references to IDs (Structures 3.15.5). Contracts see how
/// often each was added.
#[derive(Drop)]
pub struct DocumentIds {
    table: IdTable,
}

impl Model for DocumentIds {
    ghost use Rattle.identity_tables.specs.Entries.{IdEntries};

    ghost Value = { IdEntries };

    ghost view = { λ ids. ids.table };
}

impl DocumentIds {
    /// Neither IDs nor references.
    ///
    /// # Errors
    ///
    /// `AllocError` is want of memory.
    pub fn new(alloc: Global) -> Result<Self, AllocError>
        ensures { IfOk result (λ ids. IsTableOf ids []) }
    {
        Ok(DocumentIds {
            table: IdTable::new(alloc)?,
        })
    }

    /// Adds the IDs and references in a value, if there is one. An element of this number bears the IDs: for the value of an
    /// attribute its element, for that of an element's text the parent, or at the root the root itself.
    ///
    /// # Errors
    ///
    /// `AllocError` is want of memory, or there are more than 4,294,967,295 references, or as many bearers of one ID.
    pub fn add_value(&mut self, bearer: u32, value: &Option<Value>) -> Result<(), AllocError>
        ensures { OnOk result ((atoms : List BorneAtom) → IsTableOf self.old atoms → IsTableOf self.new (atoms ++ spec.borne_in bearer value.now)) }
    {
        match value {
            None => Ok(()),
            Some(value) => self.add_atoms(bearer, value),
        }
    }

    /// Adds the IDs and references in the values of an element's attributes. The element has this number.
    ///
    /// # Errors
    ///
    /// As those of `add_value`.
    pub fn add_values(
        &mut self,
        bearer: u32,
        values: &[Shared<Option<Value>>],
    ) -> Result<(), AllocError>
        ensures { OnOk result ((atoms : List BorneAtom) → IsTableOf self.old atoms → IsTableOf self.new (atoms ++ spec.borne_in_all bearer values.now)) }
    {
        for value in values {
            self.add_value(bearer, value.get())?;
        }
        Ok(())
    }

    /// The codes of the validation root: cvc-id.1 where a reference has no ID, then cvc-id.2 where an ID has two bearers
    /// (Structures 3.3.4).
    ///
    /// # Errors
    ///
    /// `AllocError` is want of memory.
    pub fn codes(&self, alloc: Global) -> Result<Listed<Found>, AllocError>
        ensures { IfOk result (λ codes. (atoms : List BorneAtom) → IsTableOf self.now atoms → codes ≡ spec.id_codes atoms) }
    {
        let (unbound, shared) = self.table.codes();
        let mut codes = Listed::new(alloc);
        push_if(&mut codes, unbound, Code::CvcId1)?;
        push_if(&mut codes, shared, Code::CvcId2)?;
        Ok(codes)
    }

    // Adds the IDs and references in a value.
    fn add_atoms(&mut self, bearer: u32, value: &Value) -> Result<(), AllocError>
        ensures { OnOk result ((atoms : List BorneAtom) → IsTableOf self.old atoms → IsTableOf self.new (atoms ++ spec.borne_by bearer (spec.atoms_of value.now))) }
    {
        match value {
            Value::Atom { builtin, atom } => self.add_atom(bearer, *builtin, atom),
            Value::List(items) => self.add_items(bearer, items.as_slice()),
        }
    }

    // Adds the IDs and references among the items of a list.
    fn add_items(&mut self, bearer: u32, items: &[TypedAtom]) -> Result<(), AllocError>
        ensures { OnOk result ((atoms : List BorneAtom) → IsTableOf self.old atoms → IsTableOf self.new (atoms ++ spec.borne_by bearer items.now)) }
    {
        for item in items {
            self.add_atom(bearer, item.builtin, &item.atom)?;
        }
        Ok(())
    }

    // Adds an atom, where it is an ID or a reference to one.
    fn add_atom(&mut self, bearer: u32, builtin: Builtin, atom: &Atom) -> Result<(), AllocError>
        ensures { OnOk result ((atoms : List BorneAtom) → IsTableOf self.old atoms → IsTableOf self.new (atoms ++ spec.borne bearer (record { builtin = builtin; atom = atom.now }) ∷ [])) }
    {
        match atom {
            Atom::Text(text) => self.add_string(bearer, role_of(builtin), text.as_str()),
            _ => Ok(()),
        }
    }

    // Adds a string, where it is an ID or a reference to one.
    fn add_string(&mut self, bearer: u32, role: IdRole, text: &str) -> Result<(), AllocError>
        ensures { OnOk result (IsGrown self.old self.new (spec.ids_if role bearer (text.now ∷ [])) (spec.references_if role (text.now ∷ []))) }
    {
        match role {
            IdRole::Id => self.table.add_id(text, bearer),
            IdRole::Reference => self.table.add_ref(text),
            IdRole::Neither => Ok(()),
        }
    }
}

// Puts a code at the end, where it stands.
fn push_if(codes: &mut Listed<Found>, broken: bool, code: Code) -> Result<(), AllocError>
    ensures { OnOk result (codes.new ≡ codes.old ++ spec.code_if broken code) }
{
    if broken {
        codes.push(Found { code, place: 0 })?;
    }
    Ok(())
}
