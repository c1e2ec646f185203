//! Particles, each over earlier ones.

ghost use Rattle.std.specs.Prelude.{◌≡◌};
ghost use Rattle.particle_models.specs.Trees.{once as once_bounds};
ghost use Rattle.particle_models.specs.Pointless as pointless;

use xs_lists::Listed;

/// How often a particle may come (Structures 3.9.1).
#[derive(Clone, Copy)]
pub struct Bounds {
    pub least: u32,
    /// `None` where there is no bound.
    pub most: Option<u32>,
}

impl Bounds {
    /// Both bounds 1.
    pub fn once() -> Self
        ensures once { result ≡ once_bounds }
    {
        Bounds {
            least: 1,
            most: Some(1),
        }
    }

    /// Whether both bounds are 1.
    pub fn is_once(self) -> bool
        ensures once { result ≡ pointless.is_once self }
    {
        self.least == 1 && self.most == Some(1)
    }

    /// The bounds around other ones, of which one pair is 1 and 1.
    pub(crate) fn around(self, inner: Bounds) -> Self
        ensures { result ≡ pointless.within self inner }
    {
        if inner.is_once() { self } else { inner }
    }
}

/// How the members of a group come together (Structures 3.8.1).
#[derive(Clone, Copy, PartialEq)]
pub enum Compositor {
    Sequence,
    Choice,
    All,
}

impl Compositor {
    /// Whether a group of another compositor, with bounds 1, is pointless in a group of this one.
    pub(crate) fn takes_in(self, inner: Compositor) -> bool
        ensures { result ≡ pointless.stands_in self inner }
    {
        matches!(
            (self, inner),
            (Compositor::Sequence, Compositor::Sequence) | (Compositor::Choice, Compositor::Choice)
        )
    }
}

/// A particle of a form, over earlier ones by number.
#[derive(Drop)]
pub enum Part {
    /// An element or a wildcard, by the number of its term.
    Leaf(Bounds, u32),
    /// A group, by the numbers of its members.
    Group(Bounds, Compositor, Listed<u32>),
}
