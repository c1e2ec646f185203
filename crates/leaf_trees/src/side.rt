//! The two sides of a fork.

ghost use Rattle.std.specs.Prelude.{◌≡◌, ◌+◌, ◌^◌, ◌<◌};
ghost use Rattle.leaf_trees.specs.Side.{other, way_to, place_on, nearest};

/// A side of a fork.
#[derive(Clone, Copy)]
pub enum Side {
    Left,
    Right,
}

/// Where a place of a fork's tree lies: on this side, at this place of it.
#[derive(Clone, Copy)]
pub struct Way {
    pub side: Side,
    pub place: u32,
}

impl Way {
    /// The way to a place, where so many come before the right side.
    pub fn to(place: u32, before: u32) -> Way
        ensures { result ≡ way_to place before }
    {
        if place < before {
            Way {
                side: Side::Left,
                place,
            }
        } else {
            Way {
                side: Side::Right,
                place: place - before,
            }
        }
    }
}

impl Side {
    pub fn other(self) -> Side
        ensures { result ≡ other self }
    {
        match self {
            Side::Left => Side::Right,
            Side::Right => Side::Left,
        }
    }

    /// A place of this side as one of both, where the other side has so many leaves.
    pub fn place_on(self, beside: u32, place: u32) -> u32
        requires { beside + place < 2 ^ 32 }
        ensures { result ≡ place_on self beside place }
    {
        match self {
            Side::Left => place,
            Side::Right => beside + place,
        }
    }

    /// The place on the other side, of so many leaves, of that next to this side.
    pub fn nearest(self, beside: u32) -> u32
        requires { 0 < beside }
        ensures { result ≡ nearest self beside }
    {
        match self {
            Side::Left => 0,
            Side::Right => beside - 1,
        }
    }
}
