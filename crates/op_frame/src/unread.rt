//! A buffer of fixed size with the bytes that were read from a source and are not yet consumed.
ghost use Rattle.std.specs.Prelude.{◌≡◌, ◌≤◌, ◌<◌, ◌-◌, length, drop, [], IfOk};
ghost use Rattle.op_frame.specs.Windows.{Filled, ReadsIntoPart};

use fugue_ids::{BUFFER, Failed, NoMemory};
use outer_ports::Source;
use std::alloc::Global;
use std::marker::Model;

/// Bytes that were taken from a source and are still to be given, in a buffer that never grows.
#[derive(Drop)]
pub(crate) struct Unread {
    buffer: Vec<u8>,
    start: usize,
    end: usize,
}

impl Model for Unread {
    ghost use Rattle.std.specs.Prelude.{◌≡◌, ◌≤◌, ◌-◌, ℕ, take, drop, vec_len};
    ghost use Rattle.fugue_ids.specs.declared.limits.TheConstants.{BUFFER};
    ghost use Rattle.op_frame.specs.Windows.{Window};

    ghost Value = { Window };

    ghost view = { λ u. record {
      bytes = take (u.end - u.start) (drop u.start u.buffer.items);
      free = BUFFER - u.end;
    } };

    ghost invariant = { λ u. (vec_len u.buffer ≡ BUFFER) × (u.start ≤ u.end) × (u.end ≤ BUFFER) };
}

impl Unread {
    pub(crate) fn new(alloc: Global) -> Result<Unread, NoMemory>
        ensures { IfOk result (λ unread. unread.bytes ≡ []) }
    {
        let mut buffer = Vec::new(alloc);
        buffer.resize(BUFFER, 0)?;
        Ok(Unread {
            buffer,
            start: 0,
            end: 0,
        })
    }

    pub(crate) fn len(&self) -> usize
        ensures { result ≡ length self.now.bytes }
    {
        self.end - self.start
    }

    /// They fit into the buffer: nothing is done.
    pub(crate) fn fit(&self)
        ensures { length self.now.bytes ≤ BUFFER }
    {
        let _end = self.end;
    }

    pub(crate) fn as_slice(&self) -> &[u8]
        ensures { result.now ≡ self.now.bytes }
    {
        &self.buffer[self.start..self.end]
    }

    /// Drops the first bytes.
    pub(crate) fn skip(&mut self, len: usize)
        requires { len ≤ length self.old.bytes }
        ensures { self.new.bytes ≡ drop len self.old.bytes }
    {
        self.start += len;
    }

    /// Takes the source's next bytes after these, at most so many, and returns how many came.
    pub(crate) fn fill<S: Source>(&mut self, most: usize, source: &mut S) -> Result<usize, Failed>
        requires room { length self.old.bytes < BUFFER }
        requires some { 0 < most }
        ensures { Filled self.old.bytes self.new.bytes (S.seen source.old) (S.seen source.new) most result }
    {
        self.make_room();
        let end = self.end + most.min(BUFFER - self.end);
        let count = read_into(&mut self.buffer, self.end, end, source)?;
        self.end += count;
        Ok(count)
    }

    /// Moves the bytes to the front where they end the buffer.
    fn make_room(&mut self)
        requires { length self.old.bytes < BUFFER }
        ensures same { self.new.bytes ≡ self.old.bytes }
        ensures room { 0 < self.new.free }
    {
        if self.end < BUFFER {
            return;
        }
        self.buffer.copy_within(self.start..self.end, 0);
        self.end -= self.start;
        self.start = 0;
    }
}

/// Puts the source's next bytes into this part of the buffer.
fn read_into<S: Source>(
    buffer: &mut [u8],
    from: usize,
    to: usize,
    source: &mut S,
) -> Result<usize, Failed>
    requires ordered { from ≤ to }
    requires within { to ≤ length buffer.old }
    ensures { ReadsIntoPart buffer.old buffer.new from to (S.seen source.old) (S.seen source.new) result }
{
    source.read(&mut buffer[from..to])
}
