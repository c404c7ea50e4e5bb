//! Tests of disks: states after a crash, a limited capacity, and real files with their locks.
mod slow;

use crate::assertions::{equal, equal_at, holds_at};
use fugue_ids::Failed;
use memory_ports::{MemDisk, Pick, SureDisk};
use outer_ports::{Disk, FileDisk, Opening};
use slow::leaves;
use std::fs;
use std::process::Abort;
use std::test::Fail;

#[derive(Clone, Copy)]
enum Step {
    /// Asks for the length, and then writes.
    Write(u64, &'static str),
    Sync,
}

/// A step, and the disk's answer.
type Taken = (Step, Result<(), Failed>);

/// What a disk of these bytes holds after some steps, and what a crash may leave of it.
struct Row {
    first: &'static str,
    /// The calls that fail.
    fail: &'static [u32],
    steps: &'static [Taken],
    seen: &'static str,
    old: &'static str,
    new: &'static str,
    filled: &'static str,
}

/// Takes the steps, and compares what stands then.
fn holds<D: Disk>(rt: &impl Abort, disk: &mut D, steps: &[Taken], want: &str) {
    let mut buf = [0; 16];
    for (step, answer) in steps {
        let found = match step {
            Step::Write(at, bytes) => match disk.size() {
                Ok(size) if size >= *at => disk.write_at(*at, bytes.as_bytes()),
                _ => Err(Failed),
            },
            Step::Sync => disk.sync(),
        };
        equal(rt, found, *answer);
    }
    match disk.read_at(0, &mut buf) {
        Ok(count) => equal(rt, buf.get(..count), Some(want.as_bytes())),
        Err(Failed) => holds_at(rt, &want, false),
    }
}

/// Each disk, its steps, and what stands and may be left then.
const ROWS: [Row; 8] = [
    Row {
        first: "abcd",
        fail: &[],
        steps: &[],
        seen: "abcd",
        old: "abcd",
        new: "abcd",
        filled: "abcd",
    },
    Row {
        first: "abcd",
        fail: &[],
        steps: &[(Step::Write(1, "XY"), Ok(()))],
        seen: "aXYd",
        old: "abcd",
        new: "aXYd",
        filled: "a..d",
    },
    Row {
        first: "abcd",
        fail: &[],
        steps: &[
            (Step::Write(4, "efg"), Ok(())),
            (Step::Write(7, ""), Ok(())),
            (Step::Write(2, "Z"), Ok(())),
        ],
        seen: "abZdefg",
        old: "abcd",
        new: "abZdefg",
        filled: "ab.d...",
    },
    Row {
        first: "abcd",
        fail: &[],
        steps: &[(Step::Write(3, "XYZ"), Ok(())), (Step::Sync, Ok(()))],
        seen: "abcXYZ",
        old: "abcXYZ",
        new: "abcXYZ",
        filled: "abcXYZ",
    },
    Row {
        first: "",
        fail: &[],
        steps: &[
            (Step::Write(0, "ab"), Ok(())),
            (Step::Sync, Ok(())),
            (Step::Write(2, "cd"), Ok(())),
        ],
        seen: "abcd",
        old: "ab",
        new: "abcd",
        filled: "ab..",
    },
    Row {
        first: "abcd",
        fail: &[1],
        steps: &[(Step::Write(1, "XY"), Err(Failed))],
        seen: "abcd",
        old: "abcd",
        new: "abcd",
        filled: "a..d",
    },
    Row {
        first: "ab",
        fail: &[2],
        steps: &[
            (Step::Sync, Ok(())),
            (Step::Write(2, "cd"), Err(Failed)),
            (Step::Write(0, "Q"), Ok(())),
        ],
        seen: "Qb",
        old: "ab",
        new: "Qb\0\0",
        filled: ".b..",
    },
    Row {
        first: "abcd",
        fail: &[3, 6, 8],
        steps: &[
            (Step::Write(0, "XY"), Ok(())),
            (Step::Write(3, "ZZZ"), Err(Failed)),
            (Step::Sync, Ok(())),
            (Step::Write(1, "R"), Err(Failed)),
            (Step::Write(4, "ST"), Err(Failed)),
        ],
        seen: "XYcd",
        old: "XYcd",
        new: "XYcd\0\0",
        filled: "X.cd..",
    },
];

#[test]
fn a_crash_leaves_what_the_model_says(rt: HostRuntime) -> Result<(), Fail> {
    for row in &ROWS {
        let first = row.first.as_bytes().to_vec(rt.alloc())?;
        let mut disk = MemDisk::new(rt.alloc(), first, row.fail.to_vec(rt.alloc())?);
        holds(&rt, &mut disk, row.steps, row.seen);
        for (pick, want) in [
            (Pick::Old, row.old),
            (Pick::New, row.new),
            (Pick::Fill(b'.'), row.filled),
        ] {
            holds(&rt, &mut disk.crash(pick)?, &[], want);
            let is_left = leaves(row.first, row.steps, pick, want.as_bytes());
            holds_at(&rt, &want, is_left);
        }
        drop(disk);
    }
    Ok(())
}

#[test]
fn a_sure_disk_takes_what_fits(rt: HostRuntime) -> Result<(), Fail> {
    let bytes = b"a".to_vec(rt.alloc())?;
    let mut disk = SureDisk::new(rt.alloc(), bytes, 3)?;
    let steps = [
        (Step::Write(0, "wxyz"), Err(Failed)),
        (Step::Write(0, "xyz"), Ok(())),
    ];
    holds(&rt, &mut disk, &steps, "xyz");
    holds(&rt, &mut disk.crash(Pick::Fill(b'.'))?, &[], "...");
    let steps = [
        (Step::Sync, Ok(())),
        (Step::Write(0, ""), Ok(())),
        (Step::Sync, Err(Failed)),
    ];
    holds(&rt, &mut disk, &steps, "xyz");
    drop(disk);
    Ok(())
}

/// How a file is opened in turn, the steps that it takes then, and what stands after them.
const KEPT: [(Opening, &[Taken], &str); 4] = [
    (
        Opening::Creating,
        &[(Step::Write(0, "abc"), Ok(())), (Step::Sync, Ok(()))],
        "abc",
    ),
    (Opening::Writing, &[(Step::Write(1, "XYZ"), Ok(()))], "aXYZ"),
    (
        Opening::Reading,
        &[(Step::Sync, Ok(())), (Step::Write(0, "d"), Err(Failed))],
        "aXYZ",
    ),
    (Opening::Creating, &[], "aXYZ"),
];

/// The file, or a closed one where it is not to be had.
fn opened(rt: &HostRuntime, path: &str, opening: Opening) -> FileDisk {
    match FileDisk::open(rt, path, opening) {
        Ok(disk) => disk,
        Err(_) => FileDisk::closed(),
    }
}

/// How a file is opened twice, and what both say of its length.
const OPENED: [(&str, [Opening; 2], [Result<u64, Failed>; 2]); 6] = [
    (
        "locked",
        [Opening::Writing, Opening::Reading],
        [Ok(3), Ok(3)],
    ),
    (
        "locked",
        [Opening::Writing, Opening::Writing],
        [Ok(3), Err(Failed)],
    ),
    (
        "locked",
        [Opening::Writing, Opening::Creating],
        [Ok(3), Err(Failed)],
    ),
    (
        "locked",
        [Opening::Reading, Opening::Reading],
        [Ok(3), Ok(3)],
    ),
    (
        "locked",
        [Opening::Reading, Opening::Writing],
        [Ok(3), Ok(3)],
    ),
    (
        "missing",
        [Opening::Reading, Opening::Writing],
        [Err(Failed), Err(Failed)],
    ),
];

#[test]
fn a_file_keeps_what_is_written_and_is_locked(rt: HostRuntime) -> Result<(), Fail> {
    for (opening, steps, left) in KEPT {
        let mut disk = opened(&rt, "kept", opening);
        holds(&rt, &mut disk, steps, left);
        equal(&rt, disk.read_at(left.len() as u64, &mut [0]), Ok(0));
        drop(disk);
    }
    fs::write(&rt, "locked", b"abc")?;
    for (path, openings, want) in OPENED {
        let mut first = opened(&rt, path, openings[0]);
        let mut second = opened(&rt, path, openings[1]);
        equal_at(&rt, &openings, [first.size(), second.size()], want);
        drop(first);
        drop(second);
    }
    equal(&rt, FileDisk::closed().size(), Err(Failed));
    Ok(())
}
