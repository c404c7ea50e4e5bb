//! Scripts on a replica: what a faulty one leaves there, how many operations are made, and a read that fails.

use crate::assertions::{equal_at, holds_at};
use crate::memory::list;
use edit_script::{ScriptFault, run_script};
use memory_ports::MemSource;
use outer_ports::MemSink;
use replica_core::Replica;
use std::process::Abort;

/// A script, the reads of it that fail, what is answered, and what is shown then. Each row begins where the one before
/// it left off.
type Row = (
    &'static str,
    &'static [u32],
    Result<u32, ScriptFault>,
    &'static str,
);

/// The lines before a faulty one stand, and those after it are not run. Of a script that cannot be read none is.
const FAULTS: &[Row] = &[
    ("add 1 T\nput 1 0 ab\n", &[], Ok(3), "# T\nab\n"),
    (
        "put 1 2 c\n#\n\nnonsense\nput 1 0 z\n",
        &[],
        Err(ScriptFault::BadLine(4)),
        "# T\nabc\n",
    ),
    ("", &[], Ok(0), "# T\nabc\n"),
    (
        "add 1 U\nadd 1 V\n",
        &[1],
        Err(ScriptFault::ReadFault),
        "# T\nabc\n",
    ),
];

/// Where three operations may be held.
const LIMIT: &[Row] = &[
    ("add 1 T\nput 1 0 ab", &[], Ok(3), "# T\nab\n"),
    ("cut 1 0 1", &[], Err(ScriptFault::TooMany(3)), "# T\nab\n"),
];

/// Runs a script that comes in pieces of seven bytes.
fn compare(rt: &(impl Abort + AllocGlobal), replica: &mut Replica, row: &Row) {
    let script = list(rt, row.0.as_bytes());
    let mut source = MemSource::new(script, 7, list(rt, row.1));
    assert!(*rt; replica.is_settled());
    let answer = run_script(rt.alloc(), replica, &mut source);
    drop(source);
    equal_at(rt, &row.0, answer, row.2);
    let mut sink = MemSink::new(rt.alloc(), 100, Vec::new(rt.alloc()));
    let written = replica.write_manuscript(&mut sink);
    holds_at(rt, &row.0, written.is_ok());
    equal_at(rt, &row.0, sink.written(), row.3.as_bytes());
    drop(sink);
}

#[test]
fn a_script_runs_up_to_its_first_faulty_line(rt: HostRuntime) {
    for (most, rows) in [(1000, FAULTS), (3, LIMIT)] {
        let mut replica = Replica::new(rt.alloc(), 1, 1, most).expect(&rt, "memory");
        for row in rows {
            compare(&rt, &mut replica, row);
        }
        drop(replica);
    }
}
