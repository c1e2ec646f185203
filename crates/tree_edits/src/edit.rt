ghost use Rattle.std.specs.Prelude.{◌≡◌};
ghost use Rattle.tree_edits.specs.declared.edit.EditError.TheVariants.{Memory};
ghost use Rattle.tree_edits.specs.Refusals.{number_of, name_of, refusal_of};

use item_listing::Items;
use std::alloc::{AllocError, AllocFailed};
use tag_names::NameReason;
use xs_names::Text;

/// A change of a tree. Nodes are named by their numbers, and a place among the children of an element
/// counts elements and texts from 0.
#[derive(Drop)]
pub enum Edit {
    /// Puts the one element that the items are before the child of this place. Its names resolve in the scope of the
    /// parent and by the bindings of the block.
    Insert {
        parent: u32,
        index: u32,
        items: Items,
    },
    /// Puts a text, which may be empty, before the child of this place.
    AddText {
        parent: u32,
        index: u32,
        text: Text,
    },
    /// Gives a text other characters, maybe none.
    SetText {
        node: u32,
        text: Text,
    },
    /// Takes a node away with all that is below it.
    Remove {
        node: u32,
    },
    /// Gives an element another name. The QName resolves in the element's scope.
    Rename {
        node: u32,
        name: Text,
    },
    /// Gives an attribute of an element a value; it keeps its place. Where there is none of this expanded name, it is put
    /// behind the others. The QName resolves in the element's scope.
    SetAttr {
        node: u32,
        name: Text,
        value: Text,
    },
    /// Takes an attribute of an element away. The QName resolves in the element's scope.
    UnsetAttr {
        node: u32,
        name: Text,
    },
}

/// Why a tree was not changed.
#[derive(Clone, Copy, PartialEq)]
pub enum EditError {
    /// The number is of no node of the tree.
    UnknownNode,
    /// A text is named where an element is needed.
    NotElement,
    /// An element is named where a text is needed.
    NotText,
    /// The root cannot be taken away.
    RootFixed,
    /// The place is greater than the number of children.
    BadIndex,
    /// A name, also one of the block, is no QName (Namespaces in XML 1.0, 4).
    BadName,
    /// A prefix other than `xmlns` is not bound (Namespaces in XML 1.0, 5).
    UnboundPrefix,
    /// A prefix or a namespace is used or bound that is reserved, or a prefix is bound to no namespace (Namespaces in
    /// XML 1.0, 3 and 5); or the name of an attribute is that of a binding.
    ReservedName,
    /// The element has no attribute of the name.
    NoSuchAttribute,
    /// There would be more than 131,072 nodes, or a new node would get the number 4,294,967,295.
    TooManyNodes,
    /// An element would have a depth of more than 128.
    TooDeep,
    /// An element would have more than 256 attributes and bindings.
    TooManyAttributes,
    /// Memory was wanting.
    Memory,
    /// Two attributes of an element of the block have one expanded name, or two of its bindings one prefix (Namespaces in
    /// XML 1.0, 6.3).
    DoubleAttribute,
}

impl EditError {
    /// The number by which refusals are ordered and printed.
    pub fn number(self) -> u8
        ensures { result ≡ number_of self }
    {
        match self {
            EditError::UnknownNode => 1,
            EditError::NotElement => 2,
            EditError::NotText => 3,
            EditError::RootFixed => 4,
            EditError::BadIndex => 5,
            EditError::BadName => 6,
            EditError::UnboundPrefix => 7,
            EditError::ReservedName => 8,
            EditError::NoSuchAttribute => 9,
            EditError::TooManyNodes => 10,
            EditError::TooDeep => 11,
            EditError::TooManyAttributes => 12,
            EditError::Memory => 13,
            EditError::DoubleAttribute => 15,
        }
    }

    /// The name as it is printed.
    pub fn name(self) -> &'static str
        ensures { result.now ≡ name_of self }
    {
        match self {
            EditError::UnknownNode => "UnknownNode",
            EditError::NotElement => "NotElement",
            EditError::NotText => "NotText",
            EditError::RootFixed => "RootFixed",
            EditError::BadIndex => "BadIndex",
            EditError::BadName => "BadName",
            EditError::UnboundPrefix => "UnboundPrefix",
            EditError::ReservedName => "ReservedName",
            EditError::NoSuchAttribute => "NoSuchAttribute",
            EditError::TooManyNodes => "TooManyNodes",
            EditError::TooDeep => "TooDeep",
            EditError::TooManyAttributes => "TooManyAttributes",
            EditError::Memory => "Memory",
            EditError::DoubleAttribute => "DoubleAttribute",
        }
    }
}

impl From<AllocError> for EditError {
    ghost from_gives = { λ _ e. e ≡ Memory };

    fn from(_: AllocError) -> Self {
        EditError::Memory
    }
}

impl<T: Drop> From<AllocFailed<T>> for EditError {
    ghost from_gives = { λ _ e. e ≡ Memory };

    fn from(_: AllocFailed<T>) -> Self {
        EditError::Memory
    }
}

impl From<NameReason> for EditError {
    ghost from_gives = { λ reason e. e ≡ refusal_of reason };

    fn from(reason: NameReason) -> Self {
        match reason {
            NameReason::BadName => EditError::BadName,
            NameReason::ReservedName => EditError::ReservedName,
            NameReason::UnboundPrefix => EditError::UnboundPrefix,
            NameReason::DoubleAttribute => EditError::DoubleAttribute,
            NameReason::TooManyAttributes => EditError::TooManyAttributes,
        }
    }
}
