//! Where an item lies.

ghost use Rattle.std.specs.Prelude.{◌≡◌, ℕ};
ghost use Rattle.leaf_trees.specs.Tree.{Tree};
ghost use Rattle.child_trees.specs.Tops.{LiesIn};

use crate::tops::Tops;
use leaf_trees::Trees;

/// The list of an item, the top of the list's tree, and the item's place in the list.
#[derive(Clone, Copy)]
pub struct Location {
    pub list: u32,
    pub top: u32,
    pub place: u32,
}

/// Where an item lies.
pub fn find(trees: &Trees, tops: &Tops, item: u32) -> Location
    requires { (list top place : ℕ) × (t : Tree) × LiesIn trees.now.nodes tops.now list top place t item }
    ensures { (list top place : ℕ) (t : Tree) → LiesIn trees.now.nodes tops.now list top place t item
        → result ≡ record { list = list; top = top; place = place } }
{
    let spot = trees.spot(item);
    match tops.top(spot.list) {
        Some(top) => Location {
            list: spot.list,
            top,
            place: spot.place,
        },
        None => unreachable!(),
    }
}
