//! Streams, in memory and of the system.

mod disk;
mod dock;
mod wire;

use crate::assertions::{equal, equal_at};
use fugue_ids::{BUFFER, Failed, Gather, Out, write_heading, write_scalar, write_whole};
use memory_ports::{MemSource, SureSink};
use outer_ports::{MemSink, Source, StdSink, StdSource, SureSource};
use std::fs::File;
use std::io::{self, Read, Write};
use std::process::Abort;
use std::test::Fail;

/// A stream that takes nothing and whose reads fail.
#[derive(Drop)]
struct Broken;

impl Read for Broken {
    fn read(&mut self, _buf: &mut [u8]) -> io::Result<usize> {
        Err(io::Error::from(io::ErrorKind::BrokenPipe))
    }
}

impl Write for Broken {
    fn write(&mut self, _buf: &[u8]) -> io::Result<usize> {
        Ok(0)
    }

    fn flush(&mut self) -> io::Result<()> {
        Ok(())
    }
}

/// Reads into buffers of these lengths, of four bytes at most.
fn gives<S: Source>(rt: &impl Abort, source: &mut S, rows: &[(usize, Result<&str, Failed>)]) {
    let mut buf = [0; 4];
    for (room, want) in rows {
        let end = (*room).min(4);
        let want = want.map(|text| Some(text.as_bytes()));
        match source.read(&mut buf[..end]) {
            Ok(count) => equal_at(rt, room, Ok(buf.get(..count)), want),
            Err(failed) => equal_at(rt, room, Err(failed), want),
        }
    }
}

fn takes<O: Out>(rt: &impl Abort, sink: &mut O, rows: &[(&str, Result<usize, Failed>)]) {
    for (piece, want) in rows {
        equal_at(rt, piece, sink.write(piece.as_bytes()), *want);
    }
}

/// What a source of `abcde` gives by two bytes at most.
const PIECES: [(usize, Result<&str, Failed>); 5] = [
    (3, Ok("ab")),
    (1, Ok("c")),
    (0, Ok("")),
    (3, Ok("de")),
    (3, Ok("")),
];

#[test]
fn streams_in_memory_pass_pieces_and_fail_where_listed(rt: HostRuntime) -> Result<(), Fail> {
    let text = b"abcde".to_vec(rt.alloc())?;
    gives(&rt, &mut SureSource::new(text.clone()?, 2), &PIECES);
    let mut source = MemSource::new(text, 2, [0].to_vec(rt.alloc())?);
    gives(&rt, &mut source, &[(3, Err(Failed))]);
    gives(&rt, &mut source, &PIECES);
    let mut sink = MemSink::new(rt.alloc(), 2, [1].to_vec(rt.alloc())?);
    let rows = [
        ("abc", Ok(2)),
        ("d", Err(Failed)),
        ("d", Ok(1)),
        ("", Ok(0)),
    ];
    takes(&rt, &mut sink, &rows);
    equal(&rt, sink.written(), b"abd".as_slice());
    let mut sink = SureSink::new(rt.alloc(), 2, 12)?;
    let whole = write_whole(&mut sink, b"abc").is_ok();
    prove!(whole);
    equal(&rt, write_heading(&mut sink, "T"), Ok(()));
    equal(&rt, write_scalar(&mut sink, '€'), Ok(()));
    let rows = [("def", Ok(2)), ("f", Err(Failed)), ("", Ok(0))];
    takes(&rt, &mut sink, &rows);
    equal(&rt, sink.written(), "abc# T\n€de".as_bytes());
    Ok(())
}

/// More is put than an array holds, and the second write fails.
#[test]
fn gathered_bytes_leave_in_whole_arrays(rt: HostRuntime) -> Result<(), Fail> {
    let text = "ab".repeat(rt.alloc(), BUFFER / 2)?;
    let mut sink = MemSink::new(rt.alloc(), 2 * BUFFER, [1].to_vec(rt.alloc())?);
    let mut gather = Gather::new();
    equal(&rt, gather.put_heading(&mut sink, "T"), Ok(()));
    equal(&rt, gather.put_scalar(&mut sink, 'ü'), Ok(()));
    equal(&rt, gather.put(&mut sink, text.as_bytes()), Ok(()));
    let is_front = sink.written().starts_with("# T\nüab".as_bytes());
    equal(&rt, (sink.written().len(), is_front), (BUFFER, true));
    equal(&rt, gather.flush(&mut sink), Err(Failed));
    equal(&rt, gather.flush(&mut sink), Ok(()));
    equal(&rt, sink.written().len(), BUFFER);
    Ok(())
}

#[test]
fn streams_pass_bytes_and_faults_on(rt: HostRuntime) -> Result<(), Fail> {
    let mut sink = StdSink::new(File::create(&rt, "stream")?);
    takes(&rt, &mut sink, &[("ab", Ok(2)), ("", Ok(0)), ("c", Ok(1))]);
    let mut source = StdSource::new(File::open(&rt, "stream")?);
    let rows = [(1, Ok("a")), (3, Ok("bc")), (1, Ok(""))];
    gives(&rt, &mut source, &rows);
    gives(&rt, &mut StdSource::new(rt.stdin()), &[(0, Ok(""))]);
    takes(&rt, &mut StdSink::new(rt.stdout()), &[("", Ok(0))]);
    takes(&rt, &mut StdSink::new(rt.stderr()), &[("", Ok(0))]);
    gives(&rt, &mut StdSource::new(Broken), &[(1, Err(Failed))]);
    let rows = [("a", Err(Failed)), ("", Ok(0))];
    takes(&rt, &mut StdSink::new(Broken), &rows);
    Ok(())
}
