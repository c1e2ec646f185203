ghost use Rattle.std.specs.Prelude.{◌≡◌, ◌<◌, [], length, None, Some, IfOk};
ghost use Rattle.std.specs.Io.{WritesAtMost};
ghost use Rattle.std.specs.Io.KnownBytes.{WriteAppends};
ghost use Rattle.xsv_io.specs.Causes.{HasCause};

use std::alloc::Global;
use xsv_io::{Failed, Sink};

/// A sink that keeps what it takes. It fails for want of memory alone.
#[derive(Drop)]
pub struct KeptText {
    pub text: Vec<u8>,
    pub faults: u64,
}

impl KeptText {
    /// A sink that has taken nothing.
    pub fn new(alloc: Global) -> Self
        ensures text { result.text.items ≡ [] }
        ensures faults { result.faults ≡ 0 }
    {
        KeptText {
            text: Vec::new(alloc),
            faults: 0,
        }
    }
}

impl Sink for KeptText {
    ghost taken = { λ s. Some s.text.items };

    ghost faults = { λ s. s.faults };

    ghost fault_bound = { λ _. None };

    ghost bounded = { λ _. tt };

    /// Takes the whole piece, or fails for want of memory.
    fn write(&mut self, piece: &[u8]) -> Result<usize, Failed> {
        if self.text.extend_from_slice(piece).is_err() {
            self.faults = self.faults.saturating_add(1);
            return Err(Failed);
        }
        Ok(piece.len())
    }
}
