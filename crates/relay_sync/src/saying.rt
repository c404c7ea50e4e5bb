//! A replica's request to a relay, with its operations and a log cursor, encoded and sent.
ghost use Rattle.std.specs.Prelude.{◌≡◌, IfOk, IsErr};
ghost use Rattle.origin_model.specs.edits.State.{IsSound};
ghost use Rattle.relay_sync.specs.Replies.{WireRisesFor};
ghost use Rattle.relay_sync.specs.Saying.{SaysText, SaysTo, request_for};

use fugue_ids::{Failed, NoMemory};
use op_frame::{CLOSING, GREETING, encode_all};
use op_runs::OpSlice;
use outer_ports::Wire;
use replica_core::Replica;
use std::alloc::Global;

/// What the replica says: all that it holds, and from where on it asks for the log.
pub(crate) fn request_of(alloc: Global, replica: &Replica, cursor: u32) -> Result<Vec<u8>, NoMemory>
    ensures text { IfOk result (λ text. text.items ≡ request_for cursor replica.now.held) }
    ensures sound { IsSound replica.now }
{
    let accepted = replica.accepted();
    let mut text = Vec::new(alloc);
    text.push(GREETING)?;
    text.extend_from_slice(&cursor.to_be_bytes())?;
    encode_all(accepted, &mut text)?;
    encode_all(OpSlice::of(replica.waiting()), &mut text)?;
    text.push(CLOSING)?;
    Ok(text)
}

/// Says the whole text to whoever listens on the port, or fails with a front of it said.
pub(crate) fn say<W: Wire>(wire: &mut W, port: u16, text: &[u8]) -> Result<(), Failed>
    ensures says { SaysTo (W.seen wire.old) (W.seen wire.new) result port text.now }
    ensures reported { WireRisesFor (IsErr result) (W.seen wire.old) (W.seen wire.new) }
{
    wire.dial(port)?;
    say_whole(wire, text)
}

/// Says the whole piece, or fails with a front of it said.
fn say_whole<W: Wire>(wire: &mut W, piece: &[u8]) -> Result<(), Failed>
    ensures says { SaysText (W.seen wire.old) (W.seen wire.new) result piece.now }
    ensures reported { WireRisesFor (IsErr result) (W.seen wire.old) (W.seen wire.new) }
{
    let mut at = 0;
    while at < piece.len() {
        at += wire.write(&piece[at..])?;
    }
    Ok(())
}
