//! Tests of connections in memory: partial reads and writes, listed failures, and a limited capacity.
use crate::assertions::{equal, holds_at};
use fugue_ids::Failed;
use memory_ports::{MemWire, SureWire};
use outer_ports::{Dial, Latest, Wire};
use std::process::Abort;
use std::test::Fail;

#[derive(Clone, Copy)]
pub(super) enum Call {
    Dial(u16),
    /// These bytes come.
    Read(&'static str),
    Write(&'static str),
}

/// Makes the calls, and compares how many bytes each passes and what comes.
pub(super) fn passes<W: Wire>(
    rt: &impl Abort,
    wire: &mut W,
    rows: &[(Call, Result<usize, Failed>)],
) {
    let mut buf = [0; 4];
    for (call, want) in rows {
        let count = match call {
            Call::Dial(port) => wire.dial(*port).and(Ok(0)),
            Call::Read(_) => wire.read(&mut buf),
            Call::Write(piece) => wire.write(piece.as_bytes()),
        };
        equal(rt, count, *want);
        if let Call::Read(text) = call {
            holds_at(rt, text, buf.starts_with(text.as_bytes()));
        }
    }
}

/// Of a wire with the reply `abc` that passes two bytes at most.
const PIECES: [(Call, Result<usize, Failed>); 3] = [
    (Call::Dial(7), Ok(0)),
    (Call::Write("xyz"), Ok(2)),
    (Call::Read("ab"), Ok(2)),
];

/// It was dialled before all else, with three bytes left to read.
const ONE: Latest<Dial> = Latest {
    count: 1,
    last: Some(Dial {
        port: 7,
        said: Some(0),
        left: Some(3),
    }),
};

/// It was dialled again, after three bytes that were written, with one left to read.
const OTHER: Latest<Dial> = Latest {
    count: 2,
    last: Some(Dial {
        port: 8,
        said: Some(3),
        left: Some(1),
    }),
};

#[test]
fn wires_in_memory_pass_pieces_and_fail_where_listed(rt: HostRuntime) -> Result<(), Fail> {
    let reply = b"abc".to_vec(rt.alloc())?;
    let mut wire = MemWire::new(rt.alloc(), reply, 2, [3].to_vec(rt.alloc())?);
    passes(&rt, &mut wire, &PIECES);
    passes(&rt, &mut wire, &[(Call::Write("x"), Err(Failed))]);
    equal(&rt, (wire.dials(), wire.said()), (ONE, b"xy".as_slice()));
    equal(&rt, wire.port(), Some(7));
    drop(wire);
    let reply = b"abc".to_vec(rt.alloc())?;
    let mut wire = SureWire::new(rt.alloc(), reply, 2, 3)?;
    passes(&rt, &mut wire, &PIECES);
    let rows = [(Call::Write("zz"), Ok(1)), (Call::Write("z"), Err(Failed))];
    passes(&rt, &mut wire, &rows);
    equal(&rt, (wire.dials(), wire.said()), (ONE, b"xyz".as_slice()));
    equal(&rt, wire.dial(8), Ok(()));
    equal(&rt, (wire.port(), wire.dials()), (Some(8), OTHER));
    drop(wire);
    Ok(())
}
