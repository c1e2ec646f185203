use crate::{ComplexId, NsConstraint, SimpleId};
use xs_codes::Builtin;
use xs_lists::Listed;
use xs_names::{NameId, Scope, Text};

/// The rules that a schema set is read by: those of XML Schema 1.0, or with those of 1.1 that are known here.
#[derive(Clone, Copy)]
pub enum Rules {
    V10,
    V11,
}

/// Where a component is represented: the document, and the item in it.
#[derive(Clone, Copy, PartialEq)]
pub struct Place {
    pub document: u32,
    pub item: u32,
}

/// A set of methods of derivation (Structures 3.3.1, 3.4.1, 3.14.1).
#[derive(Clone, Copy, PartialEq, Eq)]
pub struct Methods {
    pub extension: bool,
    pub restriction: bool,
    pub substitution: bool,
    pub by_list: bool,
    pub by_union: bool,
}

/// A type: anyType (Structures 3.4.7), a built-in one, or one of the tables.
#[derive(Clone, Copy, PartialEq, Eq)]
pub enum TypeId {
    AnyType,
    Builtin(Builtin),
    Simple(SimpleId),
    Complex(ComplexId),
}

/// Types, in the order of the document.
pub type TypeIdList = Listed<TypeId>;

/// Names, in the order of the document.
pub type NameIdList = Listed<NameId>;

/// A default or fixed value (Structures 3.2.1, 3.3.1), and the scope in which its text is read.
pub struct ValueConstraint {
    pub fixed: bool,
    pub text: Text,
    pub scope: Scope,
}

/// How what a wildcard admits is assessed (Structures 3.10.1).
#[derive(Clone, Copy, PartialEq)]
pub enum Process {
    Strict,
    Lax,
    Skip,
}

/// A wildcard (Structures 3.10.1).
#[derive(Clone)]
pub struct Wildcard {
    pub namespaces: NsConstraint,
    pub process: Process,
}

impl Drop for Wildcard {
    fn drop(self) {
        let Wildcard {
            namespaces,
            process: _,
        } = self;
        drop(namespaces);
    }
}

impl Drop for ValueConstraint {
    fn drop(self) {
        let ValueConstraint {
            fixed: _,
            text,
            scope,
        } = self;
        drop(text);
        drop(scope);
    }
}
