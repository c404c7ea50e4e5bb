//! One message of a relay's reply received byte by byte: a frame, the log's length, or a refusal code.
ghost use Rattle.std.specs.Prelude.{◌≡◌, ◌≢◌, ◌+◌, ◌≤◌, ◌∷◌, [], IfErr, IfOk, List, OnOk, length, ℕ};
ghost use Rattle.origin_model.specs.declared.grammar.Grammar.TheVariants.{Version2 as WithRuns};
ghost use Rattle.relay_sync.specs.Replies.{End, HeardBytes, IsMessageFront, IsWireFault, Refusal, StopsHearing, Whole, WholeFrame};
ghost use Rattle.relay_sync.specs.Replies.{WireRisesFor};

use crate::syncing::SyncFault;
use fugue_ids::STREAM_LIMIT;
use op_frame::{END, FrameFront, Grown, REFUSAL};
use outer_ports::Wire;

/// Hears one byte more of the message at the place, and nothing after it. The one past the limit is too many.
pub(crate) fn next_byte<W: Wire>(wire: &mut W, heard: &mut u64, place: u64) -> Result<u8, SyncFault>
    requires { heard.old ≤ STREAM_LIMIT }
    ensures ok { IfOk result (λ byte. HeardBytes (W.seen wire.old) (W.seen wire.new) (byte ∷ [])) }
    ensures count { IfOk result (λ byte. heard.new ≡ heard.old + 1) }
    ensures within { IfOk result (λ byte. heard.new ≤ STREAM_LIMIT) }
    ensures err { IfErr result
        (λ fault. (before : List ℕ) → IsMessageFront before → place + length before ≡ heard.old
        → StopsHearing fault (W.seen wire.old) (W.seen wire.new) place before) }
    ensures reported { WireRisesFor (IsWireFault result) (W.seen wire.old) (W.seen wire.new) }
{
    let mut buffer = [0];
    let Ok(count) = wire.read(&mut buffer) else {
        return Err(SyncFault::WireFault);
    };
    if count == 0 {
        return Err(SyncFault::CutShort(place));
    }
    if *heard == STREAM_LIMIT {
        return Err(SyncFault::TooLong);
    }
    *heard += 1;
    Ok(buffer[0])
}

/// The number after the byte that ends a reply.
pub(crate) fn next_number<W: Wire>(
    wire: &mut W,
    heard: &mut u64,
    place: u64,
) -> Result<u32, SyncFault>
    requires within { heard.old ≤ STREAM_LIMIT }
    requires count { heard.old ≡ place + 1 }
    ensures ok { IfOk result (λ count. Whole (End count) (W.seen wire.old) (W.seen wire.new) place heard.new
        (END ∷ [])) }
    ensures err { IfErr result (λ fault. StopsHearing fault (W.seen wire.old) (W.seen wire.new) place (END ∷ [])) }
    ensures reported { WireRisesFor (IsWireFault result) (W.seen wire.old) (W.seen wire.new) }
{
    let mut number = [0; 4];
    let mut came = 0;
    'bytes: while came < 4 {
        let byte = next_byte(wire, heard, place)?;
        number[came] = byte;
        came += 1;
    }
    Ok(u32::from_be_bytes(number))
}

/// The code after the byte that refuses.
pub(crate) fn next_code<W: Wire>(wire: &mut W, heard: &mut u64, place: u64) -> Result<u8, SyncFault>
    requires within { heard.old ≤ STREAM_LIMIT }
    requires count { heard.old ≡ place + 1 }
    ensures ok { IfOk result (λ code. Whole (Refusal code) (W.seen wire.old) (W.seen wire.new) place heard.new
        (REFUSAL ∷ [])) }
    ensures err { IfErr result (λ fault. StopsHearing fault (W.seen wire.old) (W.seen wire.new) place (REFUSAL ∷ [])) }
    ensures reported { WireRisesFor (IsWireFault result) (W.seen wire.old) (W.seen wire.new) }
{
    let code = next_byte(wire, heard, place)?;
    if code == 0 || code > 3 {
        return Err(SyncFault::BadReply(place));
    }
    Ok(code)
}

/// The frame that begins with this byte. Its bytes are those of the front then.
pub(crate) fn next_frame<W: Wire>(
    wire: &mut W,
    front: &mut FrameFront,
    heard: &mut u64,
    place: u64,
    first: u8,
) -> Result<(), SyncFault>
    requires grammar { front.old.grammar ≡ WithRuns }
    requires within { heard.old ≤ STREAM_LIMIT }
    requires count { heard.old ≡ place + 1 }
    requires no_end { first ≢ END }
    requires no_refusal { first ≢ REFUSAL }
    ensures ok { OnOk result (WholeFrame front.new.bytes (W.seen wire.old) (W.seen wire.new) place heard.new
        (first ∷ [])) }
    ensures err { IfErr result (λ fault. StopsHearing fault (W.seen wire.old) (W.seen wire.new) place (first ∷ [])) }
    ensures grammar { front.new.grammar ≡ WithRuns }
    ensures reported { WireRisesFor (IsWireFault result) (W.seen wire.old) (W.seen wire.new) }
{
    front.clear();
    let mut byte = first;
    'bytes: loop {
        match front.push(byte) {
            Grown::Frame => return Ok(()),
            Grown::Bad => return Err(SyncFault::BadReply(place)),
            Grown::Front => byte = next_byte(wire, heard, place)?,
        }
    }
}
