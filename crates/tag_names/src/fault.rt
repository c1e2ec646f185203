ghost use Rattle.std.specs.Prelude.{◌≡◌};
ghost use Rattle.tag_names.specs.Resolving as resolving;

/// Why the names of a start tag are refused, in the order in which the reasons are tried.
#[derive(Clone, Copy)]
pub enum NameReason {
    /// A name is no QName.
    BadName,
    /// A prefix or a namespace is used that is reserved, or a prefix is bound to no namespace.
    ReservedName,
    /// A prefix is not bound.
    UnboundPrefix,
    /// Two attributes have one expanded name, or two bindings one prefix.
    DoubleAttribute,
    /// There are more than 256 attributes and bindings.
    TooManyAttributes,
}

/// What stands against the names of a start tag.
#[derive(Clone, Copy)]
pub struct TagFaults {
    /// A name is no QName (Namespaces in XML 1.0, 4).
    pub bad: bool,
    /// A reserved prefix or namespace is used or bound, or a prefix is bound to no namespace (Namespaces in XML 1.0, 3
    /// and 5).
    pub reserved: bool,
    /// A prefix is not bound (Namespaces in XML 1.0, 5).
    pub unbound: bool,
    /// Two attributes have one expanded name, or two bindings one prefix (Namespaces in XML 1.0, 6.3).
    pub double: bool,
    /// There are more than 256 attributes and bindings.
    pub many: bool,
}

impl TagFaults {
    /// The first reason, if there is one.
    pub fn first(self) -> Option<NameReason>
        ensures { result ≡ resolving.first_reason self }
    {
        if self.bad {
            return Some(NameReason::BadName);
        }
        if self.reserved {
            return Some(NameReason::ReservedName);
        }
        if self.unbound {
            return Some(NameReason::UnboundPrefix);
        }
        if self.double {
            return Some(NameReason::DoubleAttribute);
        }
        if self.many {
            return Some(NameReason::TooManyAttributes);
        }
        None
    }
}
