//! Tests of a replica's exchange with a relay: what is sent, what a reply does, and how it fails.
use crate::assertions::{equal_at, holds_at};
use crate::frames::REPLY;
use crate::memory::list;
use fugue_ids::Op;
use memory_ports::{MemWire, SureWire};
use origin_model::Tally;
use outer_ports::Wire;
use relay_sync::{SyncFault, Synced, sync};
use replica_core::Replica;
use std::process::Abort;

pub(super) const UNCOUNTED: Tally = Tally {
    accepted: 0,
    repeated: 0,
    conflict: 0,
    stray: 0,
    full: 0,
};

const TWO_ACCEPTED: Tally = Tally {
    accepted: 2,
    repeated: 1,
    conflict: 0,
    stray: 0,
    full: 0,
};

/// A reply, what was said before it, what the exchange comes to, and how many operations were kept until then.
struct Exchange {
    cursor: u32,
    reply: &'static [u8],
    said: &'static [u8],
    result: Result<Synced, SyncFault>,
    kept: usize,
}

/// Exchanges of one replica, one after another.
const EXCHANGES: &[Exchange] = &[
    // A text of a section that is not there, a delete, and a byte after the reply: both wait.
    Exchange {
        cursor: 0,
        reply: &[
            2, 0, 0, 0, 1, 0, 0, 0, 0, 0, 0, 0, 9, 0, 0, 0, 0, 0, 0, 0, 0, 97, 3, 0, 0, 0, 5, 0, 0,
            0, 0, 0x55, 0, 0, 0, 2, 7,
        ],
        said: &[0x48, 0, 0, 0, 0, 0x44],
        result: Ok(Synced {
            tally: UNCOUNTED,
            cursor: 2,
        }),
        kept: 2,
    },
    // What waits is said. The section comes, twice, and the text is accepted after it.
    Exchange {
        cursor: 2,
        reply: &[
            1, 0, 0, 0, 9, 0, 0, 0, 0, 0, 0, 0, 1, 84, 1, 0, 0, 0, 9, 0, 0, 0, 0, 0, 0, 0, 1, 84,
            0x55, 0, 0, 1, 4,
        ],
        said: &[
            0x48, 0, 0, 0, 2, 2, 0, 0, 0, 1, 0, 0, 0, 0, 0, 0, 0, 9, 0, 0, 0, 0, 0, 0, 0, 0, 97, 3,
            0, 0, 0, 5, 0, 0, 0, 0, 0x44,
        ],
        result: Ok(Synced {
            tally: TWO_ACCEPTED,
            cursor: 260,
        }),
        kept: 3,
    },
    // What is accepted is said before what waits.
    Exchange {
        cursor: 260,
        reply: &[0x58, 2],
        said: &[
            0x48, 0, 0, 1, 4, 1, 0, 0, 0, 9, 0, 0, 0, 0, 0, 0, 0, 1, 84, 2, 0, 0, 0, 1, 0, 0, 0, 0,
            0, 0, 0, 9, 0, 0, 0, 0, 0, 0, 0, 0, 97, 3, 0, 0, 0, 5, 0, 0, 0, 0, 0x44,
        ],
        result: Err(SyncFault::RelayRefused(2)),
        kept: 3,
    },
];

/// An exchange of a replica that has nothing left to settle.
pub(super) fn exchanged<W: Wire>(
    rt: &(impl Abort + AllocGlobal),
    replica: &mut Replica,
    wire: &mut W,
    cursor: u32,
    kept: &mut Vec<Op>,
) -> Result<Synced, SyncFault> {
    assert!(*rt; replica.is_settled());
    sync(rt.alloc(), replica, wire, 47113, cursor, kept)
}

#[test]
fn a_replica_says_what_it_holds_and_takes_in_the_reply(rt: HostRuntime) {
    let mut replica = Replica::new(rt.alloc(), 1, 10, 10).expect(&rt, "memory");
    let mut kept = Vec::new(rt.alloc());
    for exchange in EXCHANGES {
        let reply = list(&rt, exchange.reply);
        let mut wire = MemWire::new(rt.alloc(), reply, 3, Vec::new(rt.alloc()));
        let result = exchanged(&rt, &mut replica, &mut wire, exchange.cursor, &mut kept);
        let is_so = result == exchange.result
            && wire.said() == exchange.said
            && wire.dials().last.map(|dial| dial.port) == Some(47113)
            && kept.len() == exchange.kept;
        drop(wire);
        holds_at(&rt, &exchange.cursor, is_so);
    }
    drop(kept);
    drop(replica);
}

/// Replies that are not whole or no replies, what each comes to where one operation may be held, and how many are kept.
const FAULTS: &[(&[u8], SyncFault, usize)] = &[
    (&[], SyncFault::CutShort(0), 0),
    (&[0x55, 0, 0, 0], SyncFault::CutShort(0), 0),
    (&[0x58], SyncFault::CutShort(0), 0),
    (
        &[1, 0, 0, 0, 9, 0, 0, 0, 0, 0, 0, 0, 1, 84],
        SyncFault::CutShort(14),
        1,
    ),
    (
        &[1, 0, 0, 0, 9, 0, 0, 0, 0, 0, 0, 0, 1, 84, 2, 0],
        SyncFault::CutShort(14),
        1,
    ),
    (&[0x44], SyncFault::BadReply(0), 0),
    (&[0x58, 0], SyncFault::BadReply(0), 0),
    (&[0x58, 4], SyncFault::BadReply(0), 0),
    // A replica of 0.
    (&[3, 0, 0, 0, 0], SyncFault::BadReply(0), 0),
    (
        &[1, 0, 0, 0, 9, 0, 0, 0, 0, 0, 0, 0, 1, 84, 0],
        SyncFault::BadReply(14),
        1,
    ),
    (&[0x58, 1, 9], SyncFault::RelayRefused(1), 0),
    (&[0x58, 3], SyncFault::RelayRefused(3), 0),
    (
        &[
            1, 0, 0, 0, 9, 0, 0, 0, 0, 0, 0, 0, 1, 84, 3, 0, 0, 0, 5, 0, 0, 0, 0,
        ],
        SyncFault::TooMany(1),
        1,
    ),
];

/// What an exchange of a new replica comes to that may hold so many operations, and how many it keeps.
fn anew<W: Wire>(
    rt: &(impl Abort + AllocGlobal),
    most: u32,
    wire: &mut W,
) -> (Result<Synced, SyncFault>, usize) {
    let mut replica = Replica::new(rt.alloc(), 1, most, most).expect(rt, "memory");
    let mut kept = Vec::new(rt.alloc());
    let result = exchanged(rt, &mut replica, wire, 0, &mut kept);
    let count = kept.len();
    drop(kept);
    drop(replica);
    (result, count)
}

/// The same with this reply, over a wire of which these calls fail.
pub(super) fn replied(
    rt: &(impl Abort + AllocGlobal),
    most: u32,
    reply: &[u8],
    fails: &[u32],
) -> (Result<Synced, SyncFault>, usize) {
    let mut wire = MemWire::new(rt.alloc(), list(rt, reply), 3, list(rt, fails));
    let end = anew(rt, most, &mut wire);
    drop(wire);
    end
}

#[test]
fn a_reply_fails_by_its_bytes_and_where_a_call_does(rt: HostRuntime) {
    for (reply, fault, kept) in FAULTS {
        let end = replied(&rt, 1, reply, &[]);
        equal_at(&rt, reply, end, (Err(*fault), *kept));
    }
    for count in 0..REPLY.len() {
        let end = replied(&rt, 10, &REPLY[..count], &[]);
        // Where the message begins that is cut, and how many frames are before it.
        let (place, kept) = match count {
            0..=21 => (0, 0),
            22..=35 => (22, 1),
            _ => (36, 2),
        };
        equal_at(&rt, &count, end, (Err(SyncFault::CutShort(place)), kept));
    }
    // The wire is dialled, written to twice and read from five times.
    for call in 0..8 {
        let end = replied(&rt, 1, &[0x55, 0, 0, 0, 0], &[call]);
        equal_at(&rt, &call, end, (Err(SyncFault::WireFault), 0));
    }
}

#[test]
fn a_sure_wire_takes_what_fits(rt: HostRuntime) {
    let synced = Synced {
        tally: UNCOUNTED,
        cursor: 7,
    };
    for (room, wanted) in [(6, Ok(synced)), (5, Err(SyncFault::WireFault))] {
        let reply = list(&rt, &[0x55, 0, 0, 0, 7]);
        let mut wire = SureWire::new(rt.alloc(), reply, 3, room).expect(&rt, "memory");
        let (result, _) = anew(&rt, 1, &mut wire);
        drop(wire);
        equal_at(&rt, &room, result, wanted);
    }
}
