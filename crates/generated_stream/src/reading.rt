ghost use Rattle.std.specs.Prelude.{◌≡◌, ◌≤◌, [], vec_len, None, Some, OnOk};
ghost use Rattle.xsv_io.specs.Causes.{HasCause};
ghost use Rattle.generated_stream.specs.Lines.{stream_text};
ghost use Rattle.generated_stream.specs.Rest.{rest_of};

use crate::{GeneratedSource, KeptText, Pieces, write_piece};
use std::alloc::Global;
use xsv_io::{Failed, Source};

impl GeneratedSource {
    /// The whole stream.
    pub fn new(alloc: Global, number: u64, count: u32) -> Self
        requires { 1 ≤ count }
        ensures { rest_of result ≡ stream_text number count }
    {
        GeneratedSource {
            pieces: Pieces::new(number, count),
            pending: None,
            buffer: KeptText::new(alloc),
            at: 0,
        }
    }

    // Makes the next piece, where the buffer was read to its end.
    fn refill(&mut self) -> Result<(), Failed>
        requires over { self.old.at ≡ vec_len self.old.buffer.text }
        ensures rest { rest_of self.new ≡ rest_of self.old }
        ensures some { OnOk result (self.new.at ≡ vec_len self.new.buffer.text → rest_of self.new ≡ []) }
        ensures cause { HasCause self.old.buffer.faults self.new.buffer.faults result }
    {
        if self.pending.is_none() {
            self.pending = self.pieces.take_next();
        }
        let Some(piece) = self.pending else {
            return Ok(());
        };
        self.at = 0;
        self.buffer.text.clear();
        let written = write_piece(&mut self.buffer, piece);
        match written {
            Ok(()) => self.pending = None,
            Err(_) => self.buffer.text.clear(),
        }
        written
    }

    // Has something of a piece in the buffer, where something is left.
    fn begin(&mut self) -> Result<(), Failed>
        ensures rest { rest_of self.new ≡ rest_of self.old }
        ensures some { OnOk result (self.new.at ≡ vec_len self.new.buffer.text → rest_of self.new ≡ []) }
        ensures cause { HasCause self.old.buffer.faults self.new.buffer.faults result }
    {
        if self.at == self.buffer.text.len() {
            return self.refill();
        }
        Ok(())
    }
}

impl Source for GeneratedSource {
    ghost use Rattle.generated_stream.specs.Rest.{rest_of};

    ghost rest = { λ s. Some (rest_of s) };

    ghost faults = { λ s. s.buffer.faults };

    ghost fault_bound = { λ _. None };

    ghost bounded = { λ _. tt };

    /// Gives what is left of a piece, or of the next one.
    fn read(&mut self, into: &mut [u8]) -> Result<usize, Failed> {
        self.begin()?;
        let left = self.buffer.text.len() - self.at;
        let count = into.len().min(left);
        let end = self.at + count;
        into[..count].copy_from_slice(&self.buffer.text[self.at..end]);
        self.at = end;
        Ok(count)
    }
}
