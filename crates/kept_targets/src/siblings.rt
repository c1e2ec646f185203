//! The elements of a document as identity constraints see them.

ghost use Rattle.std.specs.Prelude.{◌≡◌, ◌+◌, ◌<◌, ◌^◌, true, [], ◌∷◌, slice_get, Some, IfSome, MatchOption};
ghost use Rattle.tree_rows.specs.Forest.{Document, count};
ghost use Rattle.doc_changes.specs.Stands.{StandsFor};
ghost use Rattle.identity_constraints.specs.Seen.{none};
ghost use Rattle.what_is_found.specs.Identity.{seen_element};
ghost use Rattle.xs_names.specs.Names.{NameTable};
ghost use Rattle.path_walk.specs.Sight as sight;
ghost use Rattle.tree_assess.specs.Entries.{entry_of};
ghost use Rattle.compiled_schema.specs.declared.compiled.Compiled.{Compiled as CompiledData};
ghost use Rattle.doc_nodes.specs.Nodes.{is_element_at};
ghost use Rattle.child_lists.specs.from_kept_state.KeptState.{KeptState as KeptData};
ghost use Rattle.kept_targets.specs.Kept.{IsFrom};
ghost use Rattle.kept_targets.specs.Seen.{elements_under, seen_to, siblings_of, IsFirstKept};
ghost use Rattle.kept_targets.specs.Whole.{IsWhole};

use child_lists::kept_judging::kept_records::{KeptElement, KeptRecords};
use doc_tree::DocTree;
use path_walk::{KeySiblings, KeySight};
use tree_rows::MAX_DEPTH;

/// Child elements of an element from a place on, each with all below it, as far as something is kept of them.
#[derive(Clone, Copy)]
pub struct KeptSiblings<'a> {
    pub doc: &'a DocTree,
    pub records: &'a KeptRecords,
    /// Their parent, none where they are the root.
    pub parent: Option<u32>,
    /// The place of the first among the child elements of their parent.
    pub place: u32,
    /// How many levels of elements there may be, theirs among them.
    pub levels: u32,
}

/// An element of which something is kept.
#[derive(Clone, Copy)]
pub(crate) struct FirstKept<'a> {
    pub node: u32,
    pub kept: &'a KeptElement,
}

impl<'a> KeptSiblings<'a> {
    /// The root with all elements below it. There are no more levels than nodes.
    pub(crate) fn of(doc: &'a DocTree, records: &'a KeptRecords) -> Self
        ensures { (t : NameTable) (d : Document) → StandsFor t doc.now d → siblings_of result ≡ seen_to records.now.slots doc.now (count d.forest) (1 ∷ []) }
    {
        KeptSiblings {
            doc,
            records,
            parent: None,
            place: 0,
            levels: doc.node_count(),
        }
    }

    /// An element of which something is kept, with all elements below it, and the child elements of its parent behind it.
    pub(crate) fn from(doc: &'a DocTree, records: &'a KeptRecords, node: u32) -> Self
        ensures first { (c : CompiledData) (k : KeptData) → IsWhole c doc.now k → k.records ≡ records.now → is_element_at doc.now node ≡ true → IsFrom doc.now records.now.slots node (siblings_of result) }
        ensures named { (c : CompiledData) (k : KeptData) → IsWhole c doc.now k → k.records ≡ records.now → sight.AreNamed c.names (siblings_of result) }
    {
        KeptSiblings {
            doc,
            records,
            parent: doc.parent(node),
            place: doc.element_place(node).unwrap_or(0),
            levels: MAX_DEPTH,
        }
    }

    // The number of the first, if there is one.
    fn node(&self) -> Option<u32>
        ensures node { result ≡ slice_get (elements_under self.now.doc.now self.now.parent) self.now.place }
        ensures place { IfSome result (λ n. self.now.place + 1 < 2 ^ 32) }
    {
        match self.parent {
            None if self.place == 0 => Some(1),
            Some(parent) if self.place < self.doc.child_count(parent) => {
                self.doc.element_at(parent, self.place)
            }
            _ => None,
        }
    }

    // What is kept of the first, if there is one.
    fn first_kept(&self) -> Option<FirstKept<'a>>
        ensures { MatchOption result (siblings_of self.now ≡ none) (λ first. IsFirstKept self.now first.node first.kept.now) }
    {
        if self.levels == 0 {
            return None;
        }
        let Some(node) = self.node() else {
            return None;
        };
        match self.records.get(node) {
            None => None,
            Some(kept) => Some(FirstKept { node, kept }),
        }
    }
}

/// What identity constraints see of an element.
pub fn sight_of<'a>(own: &'a KeptElement) -> KeySight<'a>
    ensures { sight.seen result ≡ seen_element (entry_of own.now.found) }
{
    let entry = &own.found;
    KeySight {
        number: entry.number,
        name: entry.element.name,
        declaration: entry.governing.declaration,
        of: entry.governing.of,
        value: &entry.value,
        attrs: entry.attrs.as_slice(),
        attr_values: entry.attr_values.as_slice(),
    }
}

impl<'a> KeySiblings for KeptSiblings<'a> {
    ghost use Rattle.kept_targets.specs.Seen.{siblings_of};

    ghost forest = { siblings_of };

    fn first(&self) -> Option<KeySight<'_>> {
        match self.first_kept() {
            None => None,
            Some(first) => Some(sight_of(first.kept)),
        }
    }

    fn below(&self) -> Self {
        match self.first_kept() {
            None => *self,
            Some(first) => KeptSiblings {
                doc: self.doc,
                records: self.records,
                parent: Some(first.node),
                place: 0,
                levels: self.levels - 1,
            },
        }
    }

    fn next(&self) -> Self {
        match self.first_kept() {
            None => *self,
            Some(_) => KeptSiblings {
                doc: self.doc,
                records: self.records,
                parent: self.parent,
                place: self.place + 1,
                levels: self.levels,
            },
        }
    }
}
