ghost use Rattle.std.specs.Prelude.{◌≤◌, vec_len};

use crate::{KeptText, Piece, Pieces};

/// The stream of a number and a count of items, as a source. It is made piece by piece as it is read, and fails for want of memory
/// alone.
#[derive(Drop)]
pub struct GeneratedSource {
    pub(crate) pieces: Pieces,
    // a piece that was taken and is not yet in the buffer
    pub(crate) pending: Option<Piece>,
    pub(crate) buffer: KeptText,
    // how much of the buffer was read
    pub(crate) at: usize,
    ghost within: { at ≤ vec_len buffer.text },
}
