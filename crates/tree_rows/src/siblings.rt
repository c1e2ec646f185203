ghost use Rattle.std.specs.Prelude.{◌≡◌, ◌∷◌, Some};
ghost use Rattle.tree_rows.specs.Cuts.{forest_in};
ghost use Rattle.tree_rows.specs.Held.{AreCut};
ghost use Rattle.tree_rows.specs.Steps.{IsTaken};

use crate::Row;
use std::marker::Model;

/// Siblings of a tree, from one of them on, with all that is below them. Contracts see a forest.
#[derive(Drop)]
pub struct Siblings<'a> {
    /// Their rows and those below them.
    pub(crate) rows: &'a [Row],
    /// Of each of these rows, how many come next that are below it.
    pub(crate) below: &'a [usize],
}

impl<'a> Model for Siblings<'a> {
    ghost use Rattle.tree_rows.specs.Forest.{Forest};
    ghost use Rattle.tree_rows.specs.SiblingCode.{forest_code};

    ghost Value = { Forest };

    ghost coded = { forest_code };

    ghost use Rattle.tree_rows.specs.Cuts.{forest_in};
    ghost use Rattle.tree_rows.specs.Held.{IsCut};

    ghost view = { λ s. forest_in s.rows.now };

    ghost invariant = { IsCut };
}

/// A node, with its children and its next siblings.
#[derive(Drop)]
pub struct Sibling<'a> {
    /// What the node is: its number, name or characters, bindings and attributes.
    pub row: &'a Row,
    pub children: Siblings<'a>,
    pub next: Siblings<'a>,
}

/// A node by its row, by the rows behind it, of which so many are below it, and by their counts.
fn node_of<'a>(row: &'a Row, rows: &'a [Row], count: usize, counts: &'a [usize]) -> Sibling<'a>
    requires { AreCut (row.now ∷ rows.now) (count ∷ counts.now) }
    ensures { IsTaken (forest_in (row.now ∷ rows.now)) (Some result) }
{
    let (rows_below, rows_beside) = rows.split_at(count);
    let (counts_below, counts_beside) = counts.split_at(count);
    Sibling {
        row,
        children: Siblings {
            rows: rows_below,
            below: counts_below,
        },
        next: Siblings {
            rows: rows_beside,
            below: counts_beside,
        },
    }
}

impl<'a> Siblings<'a> {
    /// The same siblings.
    pub fn again(&self) -> Siblings<'a>
        ensures { result ≡ self.now }
    {
        Siblings {
            rows: self.rows,
            below: self.below,
        }
    }

    /// The first sibling, with its children and its next siblings; `None` where there is none. It takes constant time.
    pub fn first(&self) -> Option<Sibling<'a>>
        ensures { IsTaken self.now result }
    {
        match self.rows.split_first() {
            None => None,
            Some((row, rows)) => match self.below.split_first() {
                None => unreachable!(),
                Some((count, counts)) => Some(node_of(row, rows, *count, counts)),
            },
        }
    }
}
