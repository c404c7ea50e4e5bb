//! Tests of the relay's loop over a listener: sessions served, cut short or lost, and failing calls.
mod run_replies;
mod syncs;

use crate::assertions::{equal, equal_at};
use crate::frames::{REPLY, S};
use crate::memory::list;
use crate::sessions::Coming::{Goes, Opens, Says};
use crate::sessions::{Coming, HELLO, steps};
use fugue_ids::Failed;
use memory_ports::MemDock;
use outer_ports::{Dock, DockStep};
use relay_core::{MOST_LOGGED, Relay};
use relay_sync::{ServeFault, serve};
use std::hash::{BuildHasherDefault, FoldHasher};
use std::process::Abort;

/// A greeting from the start of the log on, and the frame of a text.
const HELLO_TEXT: &[u8] = &[
    0x48, 0, 0, 0, 0, 2, 0, 0, 0, 1, 0, 0, 0, 0, 0, 0, 0, 9, 0, 0, 0, 0, 0, 0, 0, 0, 97,
];

/// Two sessions bring a frame each, and end their texts.
const TWO_SESSIONS: &[Coming] = &[
    Opens(0),
    Opens(1),
    Says(0, HELLO),
    Says(1, HELLO_TEXT),
    Says(0, S),
    Says(1, &[0x44]),
    Says(0, &[0x44]),
];

/// What a new relay comes to at the dock, and how many frames its log has then.
fn served(
    rt: &(impl Abort + AllocGlobal),
    dock: &mut MemDock,
    sessions: u32,
    steps: u64,
) -> (Result<(), ServeFault>, u32) {
    let mut relay: Relay<BuildHasherDefault<FoldHasher>> = Relay::new(
        rt.alloc(),
        BuildHasherDefault::default(),
        MOST_LOGGED,
    );
    let result = serve(rt.alloc(), &mut relay, dock, sessions, steps);
    let logged = relay.log_len();
    drop(relay);
    (result, logged)
}

/// What comes at a dock, how many bytes a call it gives and takes, how many sessions and steps are served, and what is
/// wanted.
struct Serving {
    coming: &'static [Coming<'static>],
    piece: usize,
    sessions: u32,
    steps: u64,
    result: Result<(), ServeFault>,
    logged: u32,
    /// What each of two sessions is sent.
    sent: &'static [u8],
    ended: &'static [u32],
    /// The step that was not asked for.
    next: Result<DockStep, Failed>,
}

const SERVINGS: &[Serving] = &[
    Serving {
        coming: TWO_SESSIONS,
        piece: 7,
        sessions: 2,
        steps: 100,
        result: Ok(()),
        logged: 2,
        sent: REPLY,
        ended: &[1, 0],
        next: Err(Failed),
    },
    // Sessions that take too many steps are left.
    Serving {
        coming: TWO_SESSIONS,
        piece: 100,
        sessions: 1,
        steps: 2,
        result: Err(ServeFault::TooLong),
        logged: 0,
        sent: &[],
        ended: &[],
        next: Ok(DockStep::Bytes(0, 5)),
    },
    // Sessions are gone, one of them twice and never opened: a number counts once.
    Serving {
        coming: &[Goes(5), Goes(5), Opens(6), Goes(6), Opens(9)],
        piece: 7,
        sessions: 2,
        steps: 100,
        result: Ok(()),
        logged: 0,
        sent: &[],
        ended: &[],
        next: Ok(DockStep::Opened(9)),
    },
];

/// All that a session says that brings both frames.
const BRINGS_BOTH: &[u8] = &[
    0x48, 0, 0, 0, 0, 2, 0, 0, 0, 1, 0, 0, 0, 0, 0, 0, 0, 9, 0, 0, 0, 0, 0, 0, 0, 0, 97, 1, 0, 0,
    0, 9, 0, 0, 0, 0, 0, 0, 0, 1, 84, 0x44,
];

#[test]
fn sessions_are_served_as_far_as_they_may_be(rt: HostRuntime) {
    for row in SERVINGS {
        let steps = steps(&rt, row.coming);
        let piece = row.piece.max(1);
        let mut dock = MemDock::new(rt.alloc(), steps, piece, Vec::new(rt.alloc()));
        let result = served(&rt, &mut dock, row.sessions, row.steps);
        equal(&rt, result, (row.result, row.logged));
        equal(&rt, (dock.sent(0), dock.sent(1)), (row.sent, row.sent));
        equal(&rt, dock.ended(), row.ended);
        equal(&rt, dock.next(&mut [0; 5]), row.next);
        drop(dock);
    }
}

/// A session that brings both frames is gone after each number of bytes: it is answered where it ended, and what came
/// whole stays.
#[test]
fn a_session_may_be_cut_at_each_byte(rt: HostRuntime) {
    for count in 0..=BRINGS_BOTH.len() {
        let said = &BRINGS_BOTH[..count];
        let logged = match count {
            0..=26 => 0,
            27..=40 => 1,
            _ => 2,
        };
        let sent: &[u8] = if count == BRINGS_BOTH.len() {
            REPLY
        } else {
            &[]
        };
        let steps = steps(&rt, &[Opens(0), Says(0, said), Goes(0)]);
        let mut dock = MemDock::new(rt.alloc(), steps, 7, Vec::new(rt.alloc()));
        equal_at(
            &rt,
            &count,
            served(&rt, &mut dock, 1, 100),
            (Ok(()), logged),
        );
        equal_at(&rt, &count, dock.sent(0), sent);
        equal_at(&rt, &count, dock.ended().is_empty(), sent.is_empty());
        drop(dock);
    }
    // In pieces of 7 bytes: ten steps, six sends and an end; one step, six sends and an end.
    for call in 0..25 {
        let steps = steps(&rt, TWO_SESSIONS);
        let mut dock = MemDock::new(rt.alloc(), steps, 7, list(&rt, &[call]));
        let (result, _) = served(&rt, &mut dock, 2, 100);
        drop(dock);
        equal_at(&rt, &call, result, Err(ServeFault::DockFault));
    }
}
