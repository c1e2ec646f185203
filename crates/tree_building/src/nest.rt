ghost use Rattle.std.specs.Prelude.{◌≡◌, [], ◌++◌, length, IfOk, OnOk, OnErr};
ghost use Rattle.std.specs.Option.{option_copied};
ghost use Rattle.tag_names.specs.Resolving.{judged, resolved};
ghost use Rattle.tree_building.specs.Nest as nests;

use std::alloc::{AllocError, Global};
use std::marker::Model;
use tag_names::{JudgedTag, NameReason, Named, Prefixes, Tag};
use tree_rows::Binding;
use xs_names::{Text, TextPool};

/// An open element: its name as it is written, and how many bindings there were before its own.
#[derive(Drop)]
struct Mark {
    name: Text,
    before: usize,
}

/// The elements that are open, and the scope that they stand in. Contracts see each element with the scope of what it holds,
/// the innermost first.
#[derive(Drop)]
pub struct Nest {
    prefixes: Prefixes,
    marks: Vec<Mark>,
    /// The parts of names that came, so that each is kept once.
    pool: TextPool,
}

impl Model for Nest {
    ghost use Rattle.tree_building.specs.Nest.{Opened};

    ghost Value = { Opened };

    ghost use Rattle.tree_building.specs.Marks.{opened_of};

    ghost view = { opened_of };
}

impl Nest {
    /// No elements in a scope.
    pub fn new(alloc: Global, prefixes: Prefixes) -> Self
        ensures { result ≡ record { outer = prefixes; elements = [] } }
    {
        Nest {
            prefixes,
            marks: Vec::new(alloc),
            pool: TextPool::new(alloc),
        }
    }

    /// How many elements are open.
    pub fn depth(&self) -> usize
        ensures { result ≡ length self.now.elements }
    {
        self.marks.len()
    }

    /// The scope of what comes next.
    pub fn scope(&self) -> &Prefixes
        ensures { result.now ≡ nests.scope_in self.now }
    {
        &self.prefixes
    }

    /// What a start tag that comes next says of its element, and what stands against its names.
    pub fn judge(&mut self, alloc: Global, tag: &Tag) -> Result<JudgedTag, AllocError>
        ensures judged { IfOk result (λ tag_judged. tag_judged ≡ judged (nests.scope_in self.old) tag.now) }
        ensures same { self.new ≡ self.old }
    {
        tag.judge(alloc, &self.prefixes, &mut self.pool)
    }

    /// What a start tag that comes next says of its element, or the first reason why its names are refused.
    pub fn resolve(
        &mut self,
        alloc: Global,
        tag: &Tag,
    ) -> Result<Result<Named, NameReason>, AllocError>
        ensures end { IfOk result (λ end. end ≡ resolved (nests.scope_in self.old) tag.now) }
        ensures same { self.new ≡ self.old }
    {
        tag.resolve(alloc, &self.prefixes, &mut self.pool)
    }

    /// Whether the innermost element has this name.
    pub fn closes(&self, name: &str) -> bool
        ensures { result ≡ nests.closes name.now self.now.elements }
    {
        match self.marks.last() {
            None => false,
            Some(mark) => mark.name.as_str() == name,
        }
    }

    /// Opens an element with these bindings.
    pub fn open(&mut self, name: Text, bindings: &[Binding]) -> Result<(), AllocError>
        ensures ok { OnOk result (self.new ≡ nests.opened self.old name bindings.now) }
        ensures err { OnErr result (self.new ≡ self.old) }
    {
        self.marks.reserve(1)?;
        let before = self.prefixes.len();
        self.prefixes.bind_all(bindings)?;
        match self.marks.push(Mark { name, before }) {
            Ok(()) => Ok(()),
            Err(_) => unreachable!(),
        }
    }

    /// Closes the innermost element, if there is one.
    pub fn close(&mut self)
        ensures { self.new ≡ nests.closed self.old }
    {
        if let Some(mark) = self.marks.pop() {
            self.prefixes.truncate(mark.before);
        }
    }
}
