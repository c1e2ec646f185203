ghost use Rattle.std.specs.Prelude.{◌≡◌};
ghost use Rattle.attr_uses.specs.Entries as entries;

/// The component in which an attribute use is written, by its number in its table.
#[derive(Clone, Copy)]
pub enum UseHolder {
    /// A complex type.
    Complex(u32),
    /// An attribute group.
    AttrGroup(u32),
}

/// Where an attribute use is written: the component, and the place among its own uses, counted from 0.
#[derive(Clone, Copy)]
pub struct UseAt {
    pub holder: UseHolder,
    pub place: usize,
}

/// The number of a name that an element has to be looked at for, and the first use of it.
#[derive(Clone, Copy)]
pub struct NeededUse {
    pub name: u32,
    pub at: UseAt,
}

/// What a map has for a name.
#[derive(Clone, Copy)]
pub struct Entry {
    /// The first use of the name.
    pub first: UseAt,
    /// Whether there is another one.
    pub double: bool,
    /// Whether an element that lacks the attribute has to be looked at: the first use is required, or has a value to give.
    pub needed: bool,
    /// Whether the first use is of a type of ids.
    pub id: bool,
}

impl UseAt {
    /// Whether this is one use with another.
    pub fn is(self, other: UseAt) -> bool
        ensures same { result ≡ entries.same_use self other }
    {
        self.place == other.place && self.holder.is(other.holder)
    }
}

impl UseHolder {
    // Whether this is one component with another.
    fn is(self, other: UseHolder) -> bool
        ensures { result ≡ entries.same_holder self other }
    {
        match (self, other) {
            (UseHolder::Complex(one), UseHolder::Complex(two)) => one == two,
            (UseHolder::AttrGroup(one), UseHolder::AttrGroup(two)) => one == two,
            _ => false,
        }
    }
}

impl Entry {
    /// The entry of this one's uses and then another's.
    pub(crate) fn and(self, other: Entry) -> Entry
        ensures { result ≡ entries.both_entries self other }
    {
        Entry {
            double: self.double || other.double || !self.first.is(other.first),
            ..self
        }
    }
}
