//! Tests of listeners: in memory, with listed failures or a limited capacity, and over TCP.
ghost use Rattle.std.specs.Prelude.{All, IfOk};
ghost use Rattle.outer_ports.specs.dock.Steps.{BringsSome};

use super::wire::{self, passes};
use crate::assertions::{equal, equal_at, holds_at};
use fugue_ids::{ByteList, Failed};
use memory_ports::{MemDock, SureDock};
use outer_ports::{Dock, DockStep, Latest, Listening, MemStep, TcpDock, TcpWire};
use std::alloc::Global;
use std::io;
use std::process::Abort;
use std::test::Fail;

/// Session 7 says three bytes.
fn steps(alloc: Global) -> Result<Vec<MemStep>, Fail>
    ensures { IfOk result (λ steps. All BringsSome steps.items) }
{
    let bytes = ByteList::new([b'a', b'b', b'c'].to_vec(alloc)?);
    let mut steps = Vec::with_capacity(alloc, 3)?;
    steps.push(MemStep::Opened(7))?;
    steps.push(MemStep::Bytes(7, bytes))?;
    steps.push(MemStep::Gone(7))?;
    Ok(steps)
}

/// A call of a dock, and the answer.
#[derive(Clone, Copy)]
enum Call {
    /// A step into a buffer of this length, of one to four bytes, and the bytes that come.
    Next(usize, Result<DockStep, Failed>, &'static str),
    Send(u32, &'static str, Result<usize, Failed>),
    End(u32),
}

/// Makes the calls, and compares the answers.
fn serves<D: Dock>(rt: &impl Abort, dock: &mut D, calls: &[Call]) {
    let mut buf = [0; 4];
    for call in calls {
        match call {
            Call::Next(room, want, text) => {
                let end = (*room).clamp(1, 4);
                equal(rt, dock.next(&mut buf[..end]), *want);
                holds_at(rt, text, buf.starts_with(text.as_bytes()));
            }
            Call::Send(session, piece, want) => {
                equal_at(rt, piece, dock.send(*session, piece.as_bytes()), *want);
            }
            Call::End(session) => equal(rt, dock.end(*session), Ok(())),
        }
    }
}

/// Of a dock with the steps of session 7 that gives and takes two bytes at most.
const PIECES: [Call; 8] = [
    Call::Next(4, Ok(DockStep::Opened(7)), ""),
    Call::Next(4, Ok(DockStep::Bytes(7, 2)), "ab"),
    Call::Next(1, Ok(DockStep::Bytes(7, 1)), "c"),
    Call::Next(1, Ok(DockStep::Gone(7)), ""),
    Call::Next(1, Err(Failed), ""),
    Call::Send(7, "xyz", Ok(2)),
    Call::Send(7, "z", Ok(1)),
    Call::End(7),
];

/// It listened once, before all steps.
const ONE: Latest<Listening> = Latest {
    count: 1,
    last: Some(Listening {
        port: 9,
        taken: Some(0),
    }),
};

#[test]
fn docks_in_memory_serve_and_fail_where_listed(rt: HostRuntime) -> Result<(), Fail> {
    let fail = [9].to_vec(rt.alloc())?;
    let mut dock = MemDock::new(rt.alloc(), steps(rt.alloc())?, 2, fail);
    equal(&rt, dock.listen(9), Ok(()));
    serves(&rt, &mut dock, &PIECES);
    let calls = [
        Call::Send(8, "u", Err(Failed)),
        Call::Send(8, "", Ok(0)),
        Call::Send(8, "u", Ok(1)),
    ];
    serves(&rt, &mut dock, &calls);
    let sent = (dock.sent(7), dock.sent(9));
    equal(&rt, sent, (b"xyz".as_slice(), b"".as_slice()));
    equal(&rt, (dock.listens(), dock.ended()), (ONE, [7].as_slice()));
    equal(&rt, dock.port(), Some(9));
    drop(dock);
    let mut dock = SureDock::new(rt.alloc(), steps(rt.alloc())?, 2, 3)?;
    equal(&rt, dock.listen(9), Ok(()));
    serves(&rt, &mut dock, &PIECES);
    let calls = [
        Call::Send(7, "z", Err(Failed)),
        Call::Send(8, "z", Err(Failed)),
    ];
    serves(&rt, &mut dock, &calls);
    equal(&rt, dock.sent(7), b"xyz".as_slice());
    equal(&rt, (dock.listens(), dock.ended()), (ONE, [7].as_slice()));
    equal(&rt, dock.port(), Some(9));
    drop(dock);
    Ok(())
}

/// The first of some ports on which the dock can listen, or 0.
fn listen<D: Dock>(dock: &mut D) -> u16 {
    for port in 47_300..47_400 {
        if dock.listen(port).is_ok() {
            return port;
        }
    }
    0
}

/// The dock hears the first of two peers, though the second spoke first, and replies.
const HEARD: [Call; 5] = [
    Call::Next(4, Ok(DockStep::Opened(0)), ""),
    Call::Next(4, Ok(DockStep::Bytes(0, 3)), "abc"),
    Call::Send(0, "yes", Ok(3)),
    Call::End(0),
    Call::Send(0, "more", Ok(4)),
];

/// A peer that leaves bytes unread when it goes resets its connection.
#[test]
fn sessions_come_one_after_another_and_a_lost_peer_is_gone(rt: HostRuntime) {
    let mut dock = TcpDock::new(rt, io::sink());
    serves(&rt, &mut dock, &[Call::Next(1, Err(Failed), "")]);
    let port = listen(&mut dock);
    let mut first = TcpWire::new(rt, io::sink());
    let mut second = TcpWire::new(rt, io::sink());
    let rows = [
        (wire::Call::Write("x"), Err(Failed)),
        (wire::Call::Read(""), Err(Failed)),
        (wire::Call::Dial(port), Ok(0)),
    ];
    passes(&rt, &mut first, &rows);
    let rows = [
        (wire::Call::Dial(port), Ok(0)),
        (wire::Call::Write("x"), Ok(1)),
    ];
    passes(&rt, &mut second, &rows);
    passes(&rt, &mut first, &[(wire::Call::Write("abc"), Ok(3))]);
    serves(&rt, &mut dock, &HEARD);
    let rows = [
        (wire::Call::Read("yes"), Ok(3)),
        (wire::Call::Read(""), Ok(0)),
    ];
    passes(&rt, &mut first, &rows);
    drop(first);
    let calls = [
        Call::Next(4, Ok(DockStep::Gone(0)), ""),
        Call::Next(4, Ok(DockStep::Opened(1)), ""),
        Call::Next(4, Ok(DockStep::Bytes(1, 1)), "x"),
        Call::Send(1, "unread", Ok(6)),
    ];
    serves(&rt, &mut dock, &calls);
    drop(second);
    serves(&rt, &mut dock, &[Call::Next(4, Ok(DockStep::Gone(1)), "")]);
    drop(dock);
}
