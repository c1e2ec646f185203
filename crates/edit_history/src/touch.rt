ghost use Rattle.std.specs.Prelude.{◌≡◌, Some};
ghost use Rattle.edit_history.specs.Table.{touched_now};

// What can be touched: a node itself, or the list of its children.
#[derive(Clone, Copy, PartialEq, Eq, Hash)]
pub(crate) enum Key {
    Node(u32),
    List(u32),
}

// The latest turn that touched a thing, and the latest one by any other author.
#[derive(Clone, Copy)]
pub(crate) struct Touch {
    pub(crate) revision: u64,
    pub(crate) author: u32,
    pub(crate) other: Option<u64>,
}

impl Touch {
    // A turn touches the thing again.
    pub(crate) fn again(&mut self, author: u32, revision: u64)
        ensures { self.new ≡ touched_now (Some self.old) author revision }
    {
        if self.author != author {
            self.other = Some(self.revision);
            self.author = author;
        }
        self.revision = revision;
    }
}
