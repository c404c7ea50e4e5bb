//! A replica's whole exchange with a relay: the request sent, the reply's operations delivered, the result.
ghost use Rattle.std.specs.Prelude.{◌≡◌, ◌+◌, ◌*◌, ◌≤◌, IfErr, IfOk, IfSome, OnOk, length};
ghost use Rattle.fugue_ids.specs.declared.limits.TheConstants.{GREATEST_HOLD};
ghost use Rattle.origin_model.specs.declared.grammar.Grammar.TheVariants.{Version2 as WithRuns};
ghost use Rattle.origin_model.specs.declared.taking.Tally.{Tally as AnyTally};
ghost use Rattle.origin_model.specs.taking.Taking.{IsSettled};
ghost use Rattle.op_frame.specs.FrameFronts.{IsFrameOf};
ghost use Rattle.replica_core.specs.Keeping.{taking_begun};
ghost use Rattle.relay_sync.specs.Outcomes.{AnswersByReply, Ended, HeardTo, HeardUpTo};
ghost use Rattle.relay_sync.specs.Replies.{IsWireFault, WireRisesFor};
ghost use Rattle.relay_sync.specs.Saying.{request_for};
ghost use Rattle.relay_sync.specs.Syncing.{BlamesWire, SyncFails, HearsOne, HearsPartly, HearsReply, CanHear, StopsHearingAt};
ghost use Rattle.relay_sync.specs.Syncing.{SyncsReplica, TakesInFrame, TakesNotAll, count_so_far};

use crate::hearing::{next_byte, next_code, next_frame, next_number};
use crate::saying::{request_of, say};
use fugue_ids::{Op, STREAM_LIMIT};
use op_frame::{END, FrameFront, FrameOps, REFUSAL};
use origin_model::{Grammar, Tally};
use outer_ports::Wire;
use replica_core::{FeedFault, Replica};
use std::alloc::Global;
use thiserror::Error;

/// Why a replica was not brought together with a relay.
#[derive(Clone, Copy, Debug, PartialEq, Eq, Error)]
pub enum SyncFault {
    /// A call on the wire failed.
    #[error("outside fault")]
    WireFault,
    /// No message of a reply stands at the offset, and the bytes there begin none.
    #[error("bad reply at byte {0}")]
    BadReply(u64),
    /// The reply is a refusal, with this code.
    #[error("relay refused {0}")]
    RelayRefused(u8),
    /// The wire ended in the place of the message at the offset, or inside of it.
    #[error("reply cut short at byte {0}")]
    CutShort(u64),
    /// The reply goes on past its limit.
    #[error("too long")]
    TooLong,
    /// As many operations are held as may be: the number.
    #[error("too many: {0}")]
    TooMany(u32),
    #[error("no memory")]
    NoMemory,
}

impl From<FeedFault> for SyncFault {
    ghost use Rattle.std.specs.Prelude.{◌≡◌};
    ghost use Rattle.relay_sync.specs.FeedFaults.{fault_of};

    ghost from_gives = { λ fault made. made ≡ fault_of fault };

    fn from(fault: FeedFault) -> SyncFault {
        match fault {
            FeedFault::TooMany(most) => SyncFault::TooMany(most),
            FeedFault::NoMemory => SyncFault::NoMemory,
        }
    }
}

/// What an exchange with a relay came to.
#[derive(Clone, Copy, Debug, PartialEq, Eq)]
pub struct Synced {
    /// What became of the operations of the reply.
    pub tally: Tally,
    /// The length of the relay's log, from which the next exchange may begin.
    pub cursor: u32,
}

/// Tells a relay all that the replica holds, and takes in what it answers, on one connection: the port is dialled once,
/// and before all else.
///
/// The cursor says from where on the relay's log is asked for. Copies of the operations that were kept are appended to
/// `kept`. After a fault the replica holds what the operations before it brought, those of the same run too.
pub fn sync<W: Wire>(
    alloc: Global,
    replica: &mut Replica,
    wire: &mut W,
    port: u16,
    cursor: u32,
    kept: &mut Vec<Op>,
) -> Result<Synced, SyncFault>
    requires { IsSettled replica.old.held }
    ensures ok { IfOk result (λ synced. SyncsReplica (W.seen wire.old) (W.seen wire.new)
        (taking_begun replica.old kept.old.items)
        (record { replica = replica.new; counts = synced.tally; kept = kept.new.items }) port cursor synced.cursor) }
    ensures settled { OnOk result (IsSettled replica.new.held) }
    ensures err { IfErr result
        (λ fault. (counts : AnyTally)
        × SyncFails fault (W.seen wire.old) (W.seen wire.new) (taking_begun replica.old kept.old.items)
        (record { replica = replica.new; counts = counts; kept = kept.new.items }) port cursor) }
    ensures reply { IfOk result (λ synced. HeardTo (W.seen wire.old).left (taking_begun replica.old kept.old.items)
        (record { replica = replica.new; counts = synced.tally; kept = kept.new.items }) (Ended synced.cursor)) }
    ensures up_to { IfErr result
        (λ fault. (counts : AnyTally) × HeardUpTo fault (W.seen wire.old).left (taking_begun replica.old kept.old.items)
        (record { replica = replica.new; counts = counts; kept = kept.new.items })) }
    ensures exactly { IfSome (W.seen wire.old).left
        (λ bytes. AnswersByReply result (taking_begun replica.old kept.old.items) bytes) }
    ensures reported { WireRisesFor (IsWireFault result) (W.seen wire.old) (W.seen wire.new) }
    ensures wire { BlamesWire (length (request_for cursor replica.old.held)) (W.seen wire.old)
        (W.seen wire.new) result }
{
    let Ok(text) = request_of(alloc, replica, cursor) else {
        return Err(SyncFault::NoMemory);
    };
    let Ok(()) = say(wire, port, text.as_slice()) else {
        return Err(SyncFault::WireFault);
    };
    hear(alloc, replica, wire, kept)
}

/// Hears the reply, and takes in its operations as they come.
fn hear<W: Wire>(
    alloc: Global,
    replica: &mut Replica,
    wire: &mut W,
    kept: &mut Vec<Op>,
) -> Result<Synced, SyncFault>
    requires settled { IsSettled replica.old.held }
    requires few { length replica.old.held.waiting ≤ GREATEST_HOLD }
    ensures ok { IfOk result (λ synced. HearsReply (W.seen wire.old) (W.seen wire.new)
        (taking_begun replica.old kept.old.items)
        (record { replica = replica.new; counts = synced.tally; kept = kept.new.items }) synced.cursor) }
    ensures settled { OnOk result (IsSettled replica.new.held) }
    ensures err { IfErr result
        (λ fault. (counts : AnyTally)
        × HearsPartly fault (W.seen wire.old) (W.seen wire.new) (taking_begun replica.old kept.old.items)
        (record { replica = replica.new; counts = counts; kept = kept.new.items })) }
    ensures reported { WireRisesFor (IsWireFault result) (W.seen wire.old) (W.seen wire.new) }
{
    let mut tally = Tally::default();
    let mut front = FrameFront::new(Grammar::Version2);
    let mut heard = 0;
    'messages: loop {
        let end = hear_one(
            alloc, replica, wire, &mut front, &mut heard, &mut tally, kept,
        )?;
        if let Some(cursor) = end {
            return Ok(Synced { tally, cursor });
        }
    }
}

/// Hears one message, byte by byte, so that nothing after it is heard: the operations of a frame are taken in, and the
/// number that ends the reply is the answer.
fn hear_one<W: Wire>(
    alloc: Global,
    replica: &mut Replica,
    wire: &mut W,
    front: &mut FrameFront,
    heard: &mut u64,
    tally: &mut Tally,
    kept: &mut Vec<Op>,
) -> Result<Option<u32>, SyncFault>
    requires grammar { front.old.grammar ≡ WithRuns }
    requires within { heard.old ≤ STREAM_LIMIT }
    requires ready { CanHear (record { replica = replica.old; counts = tally.old; kept = kept.old.items }) heard.old }
    ensures ok { IfOk result (λ count. HearsOne (W.seen wire.old) (W.seen wire.new)
        (record { replica = replica.old; counts = tally.old; kept = kept.old.items })
        (record { replica = replica.new; counts = tally.new; kept = kept.new.items }) heard.old heard.new count) }
    ensures err { IfErr result (λ fault. StopsHearingAt fault (W.seen wire.old) (W.seen wire.new)
        (record { replica = replica.old; counts = tally.old; kept = kept.old.items })
        (record { replica = replica.new; counts = tally.new; kept = kept.new.items }) heard.old) }
    ensures grammar { front.new.grammar ≡ WithRuns }
    ensures reported { WireRisesFor (IsWireFault result) (W.seen wire.old) (W.seen wire.new) }
{
    let place = *heard;
    let first = next_byte(wire, heard, place)?;
    match first {
        END => Ok(Some(next_number(wire, heard, place)?)),
        REFUSAL => {
            let code = next_code(wire, heard, place)?;
            Err(SyncFault::RelayRefused(code))
        }
        _ => {
            next_frame(wire, front, heard, place, first)?;
            take_frame(alloc, replica, front.as_slice(), tally, kept)?;
            Ok(None)
        }
    }
}

/// Takes in the operations of a whole frame, one by one. After a fault those before it stay.
fn take_frame(
    alloc: Global,
    replica: &mut Replica,
    frame: &[u8],
    tally: &mut Tally,
    kept: &mut Vec<Op>,
) -> Result<(), FeedFault>
    requires frame { IsFrameOf WithRuns frame.now }
    requires settled { IsSettled replica.old.held }
    requires few { 2 * count_so_far (record { replica = replica.old; counts = tally.old; kept = kept.old.items })
        + length frame.now ≤ STREAM_LIMIT + 2 * GREATEST_HOLD }
    ensures ok { OnOk result (TakesInFrame
        (record { replica = replica.old; counts = tally.old; kept = kept.old.items })
        (record { replica = replica.new; counts = tally.new; kept = kept.new.items }) frame.now) }
    ensures err { IfErr result (λ fault. TakesNotAll fault
        (record { replica = replica.old; counts = tally.old; kept = kept.old.items })
        (record { replica = replica.new; counts = tally.new; kept = kept.new.items }) frame.now) }
{
    let mut ops = FrameOps::new(alloc, frame)?;
    'ops: while let Some(op) = ops.next() {
        replica.feed_keeping(op, tally, kept)?;
    }
    Ok(())
}
