//! Outputs: the trait that takes bytes, and calls that write pieces, scalars and headings whole.

ghost use Rattle.std.specs.Prelude.{[], ◌∷◌, ◌++◌, codes, flat_map};
ghost use Rattle.std.specs.Char.{encode_utf8};
ghost use Rattle.fugue_ids.specs.Outs.{OutView, WritesSome, WritesBytes};

use crate::Gather;

/// A call on an object of the outside did not do what was asked. The object's count of faults rose.
#[derive(Clone, Copy, Debug, PartialEq, Eq)]
pub struct Failed;

/// Where bytes go out.
pub trait Out {
    /// What was written, the count of faults, and the room that is left: each form says what of these it tells.
    ghost seen: { Self → OutView };

    /// Takes a front of the piece, at least one byte of a piece that is not empty, and answers its length.
    fn write(&mut self, piece: &[u8]) -> Result<usize, Failed>
        ensures { WritesSome (seen self.old) (seen self.new) result piece.now };
}

/// Where a program's bytes go to.
pub trait Sink: Out {}

/// Writes the whole piece, or fails with a front of it written.
pub fn write_whole<O: Out>(out: &mut O, piece: &[u8]) -> Result<(), Failed>
    ensures { WritesBytes (O.seen out.old) (O.seen out.new) result piece.now }
{
    let mut at = 0;
    while at < piece.len() {
        at += out.write(&piece[at..])?;
    }
    Ok(())
}

/// Writes the pieces, one after the other, or fails with a front of them written. Pieces that fit into an array go out
/// as one, so that the lines of two programs on one terminal do not mix.
pub fn write_pieces<O: Out>(out: &mut O, pieces: &[&[u8]]) -> Result<(), Failed>
    ensures { WritesBytes (O.seen out.old) (O.seen out.new) result (flat_map (λ piece. piece.now) pieces.now) }
{
    let mut gather = Gather::new();
    gather.put_pieces(out, pieces)?;
    gather.flush(out)
}

/// Writes a scalar in UTF-8.
pub fn write_scalar<O: Out>(out: &mut O, ch: char) -> Result<(), Failed>
    ensures { WritesBytes (O.seen out.old) (O.seen out.new) result (encode_utf8 ch) }
{
    let mut buffer = [0u8; 4];
    let text = ch.encode_utf8(&mut buffer);
    write_whole(out, text.as_bytes())
}

/// Writes the line that heads a section.
pub fn write_heading<O: Out>(out: &mut O, title: &str) -> Result<(), Failed>
    ensures { WritesBytes (O.seen out.old) (O.seen out.new) result (codes "# " ++ title.now ++ 10 ∷ []) }
{
    write_pieces(out, &[b"# ", title.as_bytes(), b"\n"])
}
