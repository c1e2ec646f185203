ghost use Rattle.std.specs.Prelude.{◌≡◌, ℕ, ◌^◌, ◌<◌, ◌≤◌, nat_eq, None, Some, Option, if◌then◌else◌, IfOk};
ghost use Rattle.attr_uses.specs.Entries.{joined};
ghost use Rattle.attr_uses.specs.Maps.{IsMapOf, KeepsMaps};
ghost use Rattle.attr_uses.specs.declared.entry.Entry.{Entry};
ghost use Rattle.attr_uses.specs.declared.join.Join.TheVariants.{Union};

use crate::grow::{combine_under, put_under};
use crate::node::Node;
use crate::{Entry, Join};
use std::alloc::{AllocError, Global};
use std::marker::Model;

/// A map of an arena.
#[derive(Clone, Copy)]
pub struct UseMap {
    pub(crate) top: u32,
}

/// Maps from the numbers of names to entries. Each is as it was made; a new one shares the parts that are alike.
#[derive(Drop)]
pub struct UseMaps {
    // How many times the numbers are halved.
    pub(crate) depth: u32,
    // The first is the part of nothing.
    pub(crate) nodes: Vec<Node>,
}

impl Model for UseMaps {
    ghost use Rattle.std.specs.Prelude.{◌≤◌};
    ghost use Rattle.attr_uses.specs.Nodes.{AreNodes};
    ghost use Rattle.attr_uses.specs.Maps.{MapNodes};

    ghost Value = { MapNodes };

    ghost view = { λ m. record { depth = m.depth; nodes = m.nodes.items } };

    ghost invariant = { λ m. (m.depth ≤ 32) × AreNodes m.nodes.items };
}

impl UseMaps {
    /// Maps for the names whose numbers are below this power of 2.
    pub fn new(alloc: Global, depth: u32) -> Result<UseMaps, AllocError>
        requires { depth ≤ 32 }
        ensures depth { IfOk result (λ maps. maps.depth ≡ depth) }
    {
        let nodes = Vec::from_elem(alloc, Node::Empty, 1)?;
        Ok(UseMaps { depth, nodes })
    }

    /// The map that has nothing.
    pub fn nothing(&self) -> UseMap
        ensures map { IsMapOf self.now result.top (λ name. None) }
    {
        let _nodes = self.nodes.len();
        UseMap { top: 0 }
    }

    /// The map with one entry more: for its name behind what there was.
    pub fn put(&mut self, map: UseMap, name: u32, entry: Entry) -> Result<UseMap, AllocError>
        requires map { (was : ℕ → Option Entry) × IsMapOf self.old map.top was }
        requires name { name < 2 ^ self.old.depth }
        ensures kept { KeepsMaps self.old self.new }
        ensures map { (was : ℕ → Option Entry) → IsMapOf self.old map.top was
            → IfOk result (λ made. IsMapOf self.new made.top (λ key. if nat_eq key name then joined Union (was key) (Some entry) else was key)) }
    {
        let top = put_under(&mut self.nodes, self.depth, map.top, name, entry)?;
        Ok(UseMap { top })
    }

    /// The map of two, made one name by name.
    pub fn combine(
        &mut self,
        how: Join,
        first: UseMap,
        second: UseMap,
    ) -> Result<UseMap, AllocError>
        requires first { (one : ℕ → Option Entry) × IsMapOf self.old first.top one }
        requires second { (two : ℕ → Option Entry) × IsMapOf self.old second.top two }
        ensures kept { KeepsMaps self.old self.new }
        ensures map { (one two : ℕ → Option Entry) → IsMapOf self.old first.top one → IsMapOf self.old second.top two
            → IfOk result (λ made. IsMapOf self.new made.top (λ name. joined how (one name) (two name))) }
    {
        let top = combine_under(&mut self.nodes, self.depth, how, first.top, second.top)?;
        Ok(UseMap { top })
    }
}
