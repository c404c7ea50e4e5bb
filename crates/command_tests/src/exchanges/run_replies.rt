//! Tests of relay replies with runs: delivered, cut at each byte, malformed, or over the limit.
use super::syncs::{UNCOUNTED, exchanged, replied};
use crate::assertions::{equal, equal_at};
use crate::frames::{S, stream};
use memory_ports::MemWire;
use op_frame::encode_all;
use op_runs::OpSlice;
use origin_model::Tally;
use relay_sync::{SyncFault, Synced};
use replica_core::Replica;

/// The letters A, B and C, (2,0) to (2,2), as a run.
const RUN: &[u8] = b"\x04\0\0\0\x02\0\0\0\0\0\0\0\x09\0\0\0\0\0\0\0\x03\0\0A\0\0B\0\0C";

/// The same, but for its last byte.
const RUN_CUT: &[u8] = b"\x04\0\0\0\x02\0\0\0\0\0\0\0\x09\0\0\0\0\0\0\0\x03\0\0A\0\0B\0\0";

/// A run of one letter.
const RUN_OF_ONE: &[u8] = b"\x04\0\0\0\x02\0\0\0\0\0\0\0\x09\0\0\0\0\0\0\0\x01\0\0A";

/// A run whose second letter would have a counter of 33 bits.
const RUN_PAST_COUNTERS: &[u8] =
    b"\x04\0\0\0\x02\xff\xff\xff\xff\0\0\0\x09\0\0\0\0\0\0\0\x02\0\0A\0\0B";

/// The end of the reply of a relay whose log has four operations.
const FOUR: &[u8] = b"\x55\0\0\0\x04";

#[test]
fn the_operations_of_a_run_are_taken_in_and_said(rt: HostRuntime) {
    let mut replica = Replica::new(rt.alloc(), 1, 10, 10).expect(&rt, "memory");
    let mut kept = Vec::new(rt.alloc());
    let reply = stream(&rt, &[S, RUN, RUN, FOUR]);
    let mut wire = MemWire::new(rt.alloc(), reply, 7, Vec::new(rt.alloc()));
    let tally = Tally {
        accepted: 4,
        repeated: 3,
        ..UNCOUNTED
    };
    let result = exchanged(&rt, &mut replica, &mut wire, 0, &mut kept);
    equal(&rt, result, Ok(Synced { tally, cursor: 4 }));
    drop(wire);
    let both = stream(&rt, &[S, RUN]);
    let mut bytes = Vec::new(rt.alloc());
    encode_all(OpSlice::of(kept.as_slice()), &mut bytes).expect(&rt, "memory");
    equal(&rt, bytes.as_slice(), both.as_slice());
    drop(bytes);
    drop(both);
    let reply = stream(&rt, &[FOUR]);
    let mut wire = MemWire::new(rt.alloc(), reply, 7, Vec::new(rt.alloc()));
    let result = exchanged(&rt, &mut replica, &mut wire, 4, &mut kept);
    equal(&rt, result.is_ok(), true);
    let said = stream(&rt, &[b"\x48\0\0\0\x04", S, RUN, b"\x44"]);
    equal(&rt, wire.said(), said.as_slice());
    drop(said);
    drop(wire);
    drop(kept);
    drop(replica);
}

/// Replies, what each comes to where three operations may be held, and how many are kept.
const UP_TO_THREE: &[(&[&[u8]], SyncFault, usize)] = &[
    (&[S, RUN, FOUR], SyncFault::TooMany(3), 3),
    (&[S, RUN], SyncFault::TooMany(3), 3),
    // What stands after the run is not looked at.
    (&[S, RUN, b"\x58\x02"], SyncFault::TooMany(3), 3),
    (&[S, RUN, b"\x07"], SyncFault::TooMany(3), 3),
    // The run that would be too many does not come whole.
    (&[S, RUN_CUT], SyncFault::CutShort(14), 1),
    (&[S, RUN_CUT, b"\xff"], SyncFault::TooMany(3), 3),
    (&[RUN], SyncFault::CutShort(30), 3),
    (&[RUN, S], SyncFault::TooMany(3), 3),
    (&[S, RUN_OF_ONE], SyncFault::BadReply(14), 1),
    (&[S, RUN_PAST_COUNTERS], SyncFault::BadReply(14), 1),
];

/// Nothing of a run is taken in before its last byte, and it may have an operation too many.
#[test]
fn a_run_is_taken_in_at_its_last_byte(rt: HostRuntime) {
    let reply = stream(&rt, &[S, RUN, FOUR]);
    for count in 0..reply.len() {
        let end = replied(&rt, 10, &reply.as_slice()[..count], &[]);
        let (place, kept) = match count {
            0..=13 => (0, 0),
            14..=43 => (14, 1),
            _ => (44, 4),
        };
        equal_at(&rt, &count, end, (Err(SyncFault::CutShort(place)), kept));
    }
    drop(reply);
    for (frames, fault, kept) in UP_TO_THREE {
        let reply = stream(&rt, frames);
        let end = replied(&rt, 3, reply.as_slice(), &[]);
        drop(reply);
        equal_at(&rt, fault, end, (Err(*fault), *kept));
    }
}
