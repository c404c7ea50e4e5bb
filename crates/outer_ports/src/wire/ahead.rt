//! Bytes that were read from a connection before anybody asked for them.

ghost use Rattle.std.specs.Prelude.{◌≡◌, ◌<◌, [], ◌++◌, length, take, min, Ok, IsTrue, IsFalse, IfOk, OnOk};
ghost use Rattle.std.specs.Io.KnownBytes.{IsAtEnd, Keeps, prepend_known};

use fugue_ids::BUFFER;
use std::io::{self, Read};
use std::marker::Model;

/// Bytes that were read and not yet asked for. It is seen as these bytes, and takes no memory.
#[derive(Drop)]
pub(crate) struct Ahead {
    buffer: [u8; BUFFER],
    start: usize,
    end: usize,
}

impl Model for Ahead {
    ghost use Rattle.std.specs.Prelude.{◌≤◌, List, ℕ, slice_range};
    ghost use Rattle.fugue_ids.specs.declared.limits.TheConstants.{BUFFER};

    ghost Value = { List ℕ };

    ghost view = { λ a. slice_range a.buffer a.start a.end };

    ghost invariant = { λ a. (a.start ≤ a.end) × (a.end ≤ BUFFER) };
}

impl Ahead {
    /// Nothing is read yet.
    pub(crate) fn none() -> Ahead
        ensures { result ≡ [] }
    {
        Ahead {
            buffer: [0; BUFFER],
            start: 0,
            end: 0,
        }
    }

    pub(crate) fn is_empty(&self) -> bool
        ensures empty { IsTrue result → self.now ≡ [] }
        ensures some { IsFalse result → 0 < length self.now }
    {
        self.start == self.end
    }

    /// Reads once, in the place of what is here.
    pub(crate) fn fill<S: Read>(&mut self, stream: &mut S) -> io::Result<()>
        requires { self.old ≡ [] }
        ensures bytes { Keeps (S.remaining stream.old) (prepend_known self.new (S.remaining stream.new)) }
        ensures end { OnOk result (self.new ≡ [] → IsAtEnd (S.remaining stream.new)) }
    {
        self.start = 0;
        self.end = 0;
        self.end = stream.read(&mut self.buffer)?;
        Ok(())
    }

    /// Gives the first bytes, as many as there is room for.
    pub(crate) fn give(&mut self, buf: &mut [u8]) -> io::Result<usize>
        ensures count { result ≡ Ok (min (length self.old) (length buf.old)) }
        ensures len { length buf.new ≡ length buf.old }
        ensures bytes { IfOk result (λ n. self.old ≡ take n buf.new ++ self.new) }
    {
        let mut ahead = &self.buffer[self.start..self.end];
        let count = ahead.read(buf)?;
        self.start += count;
        Ok(count)
    }
}
