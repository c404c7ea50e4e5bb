//! A buffer of bytes before an output, so that short pieces are written together.

ghost use Rattle.std.specs.Prelude.{◌≡◌, ◌<◌, ◌≤◌, ◌+◌, [], ◌∷◌, ◌++◌, codes, flat_map, length, take, OnOk};
ghost use Rattle.std.specs.Char.{encode_utf8};
ghost use Rattle.fugue_ids.specs.Gathers.{GathersText};
ghost use Rattle.fugue_ids.specs.Outs.{WritesBytes};

use crate::{BUFFER, Failed, Out, write_whole};
use std::marker::Model;

/// Bytes that wait to go out, so that small pieces leave in few writes. It is seen as the bytes that wait, and takes no
/// memory.
///
/// What still waits when the last piece was put goes out by `flush`.
#[derive(Drop)]
pub struct Gather {
    buffer: [u8; BUFFER],
    len: usize,
}

impl Model for Gather {
    ghost use Rattle.std.specs.Prelude.{◌≤◌, List, ℕ, take};
    ghost use Rattle.fugue_ids.specs.declared.limits.TheConstants.{BUFFER};

    ghost Value = { List ℕ };

    ghost view = { λ g. take g.len g.buffer };

    ghost invariant = { λ g. g.len ≤ BUFFER };
}

impl Gather {
    /// Nothing waits yet.
    pub fn new() -> Gather
        ensures { result ≡ [] }
    {
        Gather {
            buffer: [0; BUFFER],
            len: 0,
        }
    }

    /// Takes a front of the bytes, as long as the array has room.
    fn fill(&mut self, bytes: &[u8]) -> usize
        ensures bound { result ≤ length bytes.now }
        ensures some { length self.old < BUFFER → 0 < length bytes.now → 0 < result }
        ensures waits { self.new ≡ self.old ++ take result bytes.now }
    {
        let count = bytes.len().min(BUFFER - self.len);
        let end = self.len + count;
        self.buffer[self.len..end].copy_from_slice(&bytes[..count]);
        self.len = end;
        count
    }

    /// Writes what waits. Nothing waits then, also where that failed.
    pub fn flush<O: Out>(&mut self, out: &mut O) -> Result<(), Failed>
        ensures text { WritesBytes (O.seen out.old) (O.seen out.new) result self.old }
        ensures empty { self.new ≡ [] }
    {
        let len = self.len;
        self.len = 0;
        write_whole(out, &self.buffer[..len])
    }

    /// Writes the array where it is full.
    fn make_room<O: Out>(&mut self, out: &mut O) -> Result<(), Failed>
        ensures gathers { GathersText (O.seen out.old) (O.seen out.new) self.old self.new result [] }
        ensures room { OnOk result (length self.new < BUFFER) }
    {
        if self.len < BUFFER {
            return Ok(());
        }
        self.flush(out)
    }

    /// Puts the bytes after what waits, and writes the array where it is full and more is to come.
    pub fn put<O: Out>(&mut self, out: &mut O, bytes: &[u8]) -> Result<(), Failed>
        ensures { GathersText (O.seen out.old) (O.seen out.new) self.old self.new result bytes.now }
    {
        let mut at = 0;
        while at < bytes.len() {
            self.make_room(out)?;
            at += self.fill(&bytes[at..]);
        }
        Ok(())
    }

    /// Puts the pieces, one after the other.
    pub fn put_pieces<O: Out>(&mut self, out: &mut O, pieces: &[&[u8]]) -> Result<(), Failed>
        ensures { GathersText (O.seen out.old) (O.seen out.new) self.old self.new result
            (flat_map (λ piece. piece.now) pieces.now) }
    {
        for piece in pieces {
            self.put(out, piece)?;
        }
        Ok(())
    }

    /// Puts a scalar in UTF-8.
    pub fn put_scalar<O: Out>(&mut self, out: &mut O, ch: char) -> Result<(), Failed>
        ensures { GathersText (O.seen out.old) (O.seen out.new) self.old self.new result (encode_utf8 ch) }
    {
        let mut buffer = [0u8; 4];
        let text = ch.encode_utf8(&mut buffer);
        self.put(out, text.as_bytes())
    }

    /// Puts the line that heads a section.
    pub fn put_heading<O: Out>(&mut self, out: &mut O, title: &str) -> Result<(), Failed>
        ensures { GathersText (O.seen out.old) (O.seen out.new) self.old self.new result
            (codes "# " ++ title.now ++ 10 ∷ []) }
    {
        self.put_pieces(out, &[b"# ", title.as_bytes(), b"\n"])
    }
}
