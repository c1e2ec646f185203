ghost use Rattle.std.specs.Prelude.{◌≡◌, ℕ, ◌<◌, ◌≤◌, List, Option, length, IfOk, IfSome, OnOk, OnErr};
ghost use Rattle.std.specs.Io.{ReadsAtMost, WritesAtMost};
ghost use Rattle.std.specs.Io.KnownBytes.{ReadConsumes, WriteAppends, Appends};
ghost use Rattle.xsv_io.specs.Causes.{HasCause};
ghost use Rattle.xsv_io.specs.Writing.{AppendsFront};

/// A read or a write that failed.
#[derive(Clone, Copy, PartialEq)]
pub struct Failed;

/// Bytes that come in pieces.
pub trait Source {
    /// The bytes still to come, where the source tells them.
    ghost rest: { Self → Option (List ℕ) };

    /// How often a read has failed. The count never falls.
    ghost faults: { Self → ℕ };

    /// The greatest number that the count can reach, where the source tells it. No call changes it.
    ghost fault_bound: { Self → Option ℕ };

    /// Moves a piece of what is to come to the front of the buffer. `Ok(0)` into a buffer that is not
    /// empty is the end.
    ///
    /// # Errors
    ///
    /// `Failed` comes only where the count of faults rose, and then nothing was taken.
    fn read(&mut self, into: &mut [u8]) -> Result<usize, Failed>
        ensures bound { ReadsAtMost result into.new }
        ensures bytes { ReadConsumes (rest self.old) (rest self.new) result into.new }
        ensures cause { HasCause (faults self.old) (faults self.new) result }
        ensures kept { fault_bound self.new ≡ fault_bound self.old };

    /// The count is at most its bound.
    ghost bounded: { (s : Self) → IfSome (fault_bound s) (λ n. faults s ≤ n) };
}

/// A place that bytes are written to.
pub trait Sink {
    /// The bytes that were taken so far, where the sink tells them.
    ghost taken: { Self → Option (List ℕ) };

    /// How often a write has failed. The count never falls.
    ghost faults: { Self → ℕ };

    /// The greatest number that the count can reach, where the sink tells it. No call changes it.
    ghost fault_bound: { Self → Option ℕ };

    /// Takes a front of the piece, at least one byte if there is one.
    ///
    /// # Errors
    ///
    /// `Failed` comes only where the count of faults rose, and then nothing was taken.
    fn write(&mut self, piece: &[u8]) -> Result<usize, Failed>
        ensures bound { WritesAtMost result piece.now }
        ensures some { IfOk result (λ n. 0 < length piece.now → 0 < n) }
        ensures bytes { WriteAppends (taken self.old) (taken self.new) result piece.now }
        ensures cause { HasCause (faults self.old) (faults self.new) result }
        ensures kept { fault_bound self.new ≡ fault_bound self.old };

    /// The count is at most its bound.
    ghost bounded: { (s : Self) → IfSome (fault_bound s) (λ n. faults s ≤ n) };
}

/// Writes all the bytes.
///
/// # Errors
///
/// `Failed` comes only where the sink's count of faults rose. A front of the bytes was then written.
pub fn write_whole<W: Sink>(sink: &mut W, bytes: &[u8]) -> Result<(), Failed>
    ensures ok { OnOk result (Appends (W.taken sink.old) (W.taken sink.new) bytes.now) }
    ensures err { OnErr result (AppendsFront (W.taken sink.old) (W.taken sink.new) bytes.now) }
    ensures cause { HasCause (W.faults sink.old) (W.faults sink.new) result }
    ensures kept { W.fault_bound sink.new ≡ W.fault_bound sink.old }
{
    let mut at = 0;
    while at < bytes.len() {
        at += sink.write(&bytes[at..])?;
    }
    Ok(())
}
