//! Expressions, each over earlier ones by number.

ghost use Rattle.std.specs.Prelude.{◌≡◌, ℕ, ◌<◌, [], ◌∷◌, ◌++◌, List, map, length, All, IfOk, OnOk, OnErr};
ghost use Rattle.xs_positions.specs.Tree.{Tree, one, repeat, sequence_of, choice_of};
ghost use Rattle.xs_positions.specs.Nodes.{tree_at, tree_of, trees_of, PartsBelow, IsOrdered};

use std::alloc::{AllocError, Global};
use std::marker::Model;

/// The number of an expression in an [`Expr`], counted from 0 in the order of coming. Contracts see the number.
#[derive(Clone, Copy)]
pub struct ExprId {
    pub(crate) number: u32,
}

impl Model for ExprId {
    ghost use Rattle.std.specs.Prelude.{ℕ};

    ghost Value = { ℕ };

    ghost view = { λ id. id.number };

    ghost inverse = { λ n. record { number = n } };
}

impl ExprId {
    /// The number.
    pub fn number(&self) -> u32
        ensures { result ≡ self.now }
    {
        self.number
    }

    pub(crate) fn index(self) -> usize
        ensures { result ≡ self }
    {
        self.number as usize
    }
}

#[derive(Drop)]
pub(crate) enum Node {
    Symbol(u32),
    Sequence(Vec<ExprId>),
    Choice(Vec<ExprId>),
    Repeat(ExprId, u32, Option<u32>),
}

impl Node {
    /// A copy with memory of its own.
    fn try_clone(&self, alloc: Global) -> Result<Node, AllocError>
        ensures tree { IfOk result (λ node. (trees : List Tree) → tree_of trees node ≡ tree_of trees self.now) }
        ensures below { IfOk result (λ node. (bound : ℕ) → PartsBelow bound self.now → PartsBelow bound node) }
    {
        match self {
            Node::Symbol(symbol) => Ok(Node::Symbol(*symbol)),
            Node::Sequence(parts) => Ok(Node::Sequence(Vec::from_slice(alloc, parts)?)),
            Node::Choice(parts) => Ok(Node::Choice(Vec::from_slice(alloc, parts)?)),
            Node::Repeat(part, min, max) => Ok(Node::Repeat(*part, *min, *max)),
        }
    }
}

/// Expressions, each under its number. Contracts see the list of their trees, which only grows.
pub struct Expr {
    alloc: Global,
    nodes: Vec<Node>,
}

impl Model for Expr {
    ghost use Rattle.std.specs.Prelude.{List};
    ghost use Rattle.std.specs.Coded.{coded_list};
    ghost use Rattle.xs_positions.specs.Tree.{Tree};
    ghost use Rattle.xs_positions.specs.TreeCode.{coded_tree};

    ghost Value = { List Tree };

    ghost coded = { coded_list coded_tree };

    ghost use Rattle.xs_positions.specs.Nodes.{trees_of, IsOrdered};

    ghost view = { λ expr. trees_of expr.nodes.items };

    ghost invariant = { λ expr. IsOrdered expr.nodes.items };
}

impl Expr {
    /// No expression yet.
    ///
    /// # Errors
    /// When memory runs out.
    pub fn new(alloc: Global) -> Result<Expr, AllocError>
        ensures { IfOk result (λ expr. expr ≡ []) }
    {
        Ok(Expr {
            alloc,
            nodes: Vec::new(alloc),
        })
    }

    /// A copy of the expressions, under the same numbers, with memory of its own.
    ///
    /// # Errors
    /// When memory runs out.
    pub fn try_clone(&self, alloc: Global) -> Result<Expr, AllocError>
        ensures { IfOk result (λ expr. expr ≡ self.now) }
    {
        let nodes = self.nodes();
        let mut copy = Expr::new(alloc)?;
        for node in nodes {
            let node = node.try_clone(alloc)?;
            copy.add(node)?;
        }
        Ok(copy)
    }

    /// The expression whose one word is this symbol.
    ///
    /// # Errors
    /// When memory runs out; the expressions are then as they were.
    pub fn symbol(&mut self, symbol: u32) -> Result<ExprId, AllocError>
        ensures id { IfOk result (λ id. id ≡ length self.old) }
        ensures ok { OnOk result (self.new ≡ self.old ++ one symbol ∷ []) }
        ensures err { OnErr result (self.new ≡ self.old) }
    {
        self.add(Node::Symbol(symbol))
    }

    /// One word of each part, in order. Without parts that is the empty word.
    ///
    /// # Errors
    /// When memory runs out; the expressions are then as they were.
    pub fn sequence(&mut self, parts: &[ExprId]) -> Result<ExprId, AllocError>
        requires { All (λ part. part < length self.old) parts.now }
        ensures id { IfOk result (λ id. id ≡ length self.old) }
        ensures ok { OnOk result (self.new ≡ self.old ++ sequence_of (map (tree_at self.old) parts.now) ∷ []) }
        ensures err { OnErr result (self.new ≡ self.old) }
    {
        let parts = Vec::from_slice(self.alloc, parts)?;
        self.add(Node::Sequence(parts))
    }

    /// A word of one of the parts. Without parts there is none.
    ///
    /// # Errors
    /// When memory runs out; the expressions are then as they were.
    pub fn choice(&mut self, parts: &[ExprId]) -> Result<ExprId, AllocError>
        requires { All (λ part. part < length self.old) parts.now }
        ensures id { IfOk result (λ id. id ≡ length self.old) }
        ensures ok { OnOk result (self.new ≡ self.old ++ choice_of (map (tree_at self.old) parts.now) ∷ []) }
        ensures err { OnErr result (self.new ≡ self.old) }
    {
        let parts = Vec::from_slice(self.alloc, parts)?;
        self.add(Node::Choice(parts))
    }

    /// So many words of the part, one after the other: at least `min`, and at most `max` where there is one.
    /// Where `min` is above `max` there is no word.
    ///
    /// # Errors
    /// When memory runs out; the expressions are then as they were.
    pub fn repeat(&mut self, part: ExprId, min: u32, max: Option<u32>) -> Result<ExprId, AllocError>
        requires { part < length self.old }
        ensures id { IfOk result (λ id. id ≡ length self.old) }
        ensures ok { OnOk result (self.new ≡ self.old ++ repeat (tree_at self.old part) min max ∷ []) }
        ensures err { OnErr result (self.new ≡ self.old) }
    {
        self.add(Node::Repeat(part, min, max))
    }

    fn add(&mut self, node: Node) -> Result<ExprId, AllocError>
        requires { PartsBelow (length self.old) node }
        ensures id { IfOk result (λ id. id ≡ length self.old) }
        ensures ok { OnOk result (self.new ≡ self.old ++ tree_of self.old node ∷ []) }
        ensures err { OnErr result (self.new ≡ self.old) }
    {
        if self.nodes.len() > u32::MAX as usize {
            return Err(AllocError);
        }
        let id = ExprId {
            number: self.nodes.len() as u32,
        };
        self.nodes.push(node)?;
        Ok(id)
    }

    pub(crate) fn alloc(&self) -> Global {
        self.alloc
    }

    pub(crate) fn nodes(&self) -> &[Node]
        ensures trees { trees_of result.now ≡ self.now }
        ensures count { length result.now ≡ length self.now }
        ensures ordered { IsOrdered result.now }
    {
        &self.nodes
    }
}

impl Drop for Expr {
    fn drop(self) {
        let Expr { alloc: _, nodes } = self;
        drop(nodes);
    }
}
