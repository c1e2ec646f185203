//! Where a document is another than before.

ghost use Rattle.std.specs.Prelude.{◌≡◌};
ghost use Rattle.kept_targets.specs.Turned.{gone_of, lowest_of};

/// Where a document is another than before, as identity constraints see it.
#[derive(Drop)]
pub enum Turn {
    /// The texts or the attributes of this element are others.
    Own(u32),
    /// This element has come with all below it, or has another name.
    Listed(u32),
    /// A child element of the parent is gone, with all below it: the elements of these numbers.
    Gone { parent: u32, numbers: Vec<u32> },
}

impl Turn {
    /// The element from which on upwards something is seen otherwise.
    pub(crate) fn lowest(&self) -> u32
        ensures { result ≡ lowest_of self.now }
    {
        match self {
            Turn::Own(node) | Turn::Listed(node) => *node,
            Turn::Gone { parent, .. } => *parent,
        }
    }

    /// The elements that are gone.
    pub(crate) fn gone(&self) -> &[u32]
        ensures { result.now ≡ gone_of self.now }
    {
        match self {
            Turn::Own(_) | Turn::Listed(_) => &[],
            Turn::Gone { numbers, .. } => numbers.as_slice(),
        }
    }
}
