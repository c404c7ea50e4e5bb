//! Tests of replica files: their bytes, loading, corruption, version 1, and a crash at each call of a save.
ghost use Rattle.std.specs.Prelude.{◌<◌, ◌≤◌, IfSome, IfOk};
ghost use Rattle.fugue_ids.specs.declared.limits.TheConstants.{MOST_OPERATIONS as most_operations};
ghost use Rattle.replica_file.specs.Ends.{EndsAtGate, IsWithinReach};

use crate::assertions::{equal, equal_at, holds_at};
use crate::frames::{NEW, OLD, PRINTED, SAVED};
use crate::memory::{list, sure_disk};
use fugue_ids::{ElementId, MOST_OPERATIONS, Op, Title};
use memory_ports::{MemDisk, Pick};
use op_runs::OpSlice;
use outer_ports::{Disk, MemSink};
use replica_file::{CreateFault, End, LoadFault, append, create, load};
use std::alloc::Global;
use std::process::Abort;

pub(crate) fn id(counter: u32) -> ElementId {
    ElementId {
        replica: 1,
        counter,
    }
}

fn text(counter: u32, left: Option<ElementId>, right: Option<ElementId>, ch: char) -> Op {
    Op::Text {
        id: id(counter),
        section: id(0),
        left,
        right,
        ch,
    }
}

/// The operations of `SAVED`, and so many letters after them.
fn operations(rt: &(impl Abort + AllocGlobal), letters: u32) -> Vec<Op> {
    let section = Op::Section {
        id: id(0),
        left: None,
        right: None,
        title: Title::read(rt.alloc(), "T").expect(rt, "a title"),
    };
    let five = [
        section,
        text(1, None, None, 'A'),
        text(2, Some(id(1)), None, 'B'),
        Op::Delete { target: id(2) },
        text(3, Some(id(1)), Some(id(2)), 'C'),
    ];
    let mut ops = Vec::from_array(rt.alloc(), five).expect(rt, "memory");
    for before in 3..letters.saturating_add(3) {
        let letter = text(before.saturating_add(1), Some(id(before)), None, 'x');
        ops.push(letter).expect(rt, "memory");
    }
    ops
}

/// Whether the file has these bytes.
pub(crate) fn has_bytes<H: Disk>(disk: &mut H, wanted: &[u8]) -> bool {
    let mut buf = [0; 512];
    match disk.read_at(0, &mut buf) {
        Ok(count) => &buf[..count] == wanted,
        Err(_) => false,
    }
}

/// How many operations a file's replica holds, and where its meaning ends.
fn counted<H: Disk>(alloc: Global, disk: &mut H, most: u32) -> Result<(usize, End), LoadFault>
    requires some { 0 < most }
    requires within { most ≤ most_operations }
    ensures ends { IfOk result (λ found. IfSome (H.seen disk.new).past (λ h. EndsAtGate h.last found.1)) }
    ensures reaches { IfOk result (λ found. IsWithinReach found.1) }
{
    match load(alloc, disk, most) {
        Ok((replica, end)) => {
            let count = replica.accepted().len() + replica.waiting().len();
            drop(replica);
            Ok((count, end))
        }
        Err(fault) => Err(fault),
    }
}

/// Loads, and appends the operations. Returns where the file's meaning ends then.
fn save<H: Disk>(alloc: Global, disk: &mut H, ops: &[Op]) -> Option<End> {
    let (_count, end) = counted(alloc, disk, MOST_OPERATIONS).ok()?;
    append(alloc, disk, end, OpSlice::of(ops)).ok()
}

/// Whether this is printed of a file.
fn shows<H: Disk>(alloc: Global, disk: &mut H, text: &[u8]) -> bool {
    match load(alloc, disk, MOST_OPERATIONS) {
        Ok((replica, _end)) => {
            let mut output = MemSink::new(alloc, 64, Vec::new(alloc));
            let is_printed = replica.write_manuscript(&mut output).is_ok();
            drop(replica);
            let is_text = is_printed && output.written() == text;
            drop(output);
            is_text
        }
        Err(_) => false,
    }
}

#[test]
fn files_have_these_bytes(rt: HostRuntime) {
    let ops = operations(&rt, 0);
    let mut disk = sure_disk(&rt, Vec::new(rt.alloc()), 200);
    let end = SAVED_END;
    equal(&rt, create(&mut disk, 1, 16), Ok(()));
    equal(&rt, has_bytes(&mut disk, NEW), true);
    equal(&rt, create(&mut disk, 1, 16), Err(CreateFault::NotEmpty));
    equal(&rt, save(rt.alloc(), &mut disk, &ops), Some(end));
    equal(&rt, has_bytes(&mut disk, SAVED), true);
    let found = counted(rt.alloc(), &mut disk, MOST_OPERATIONS);
    equal(&rt, found, Ok((5, end)));
    equal(&rt, shows(rt.alloc(), &mut disk, PRINTED), true);
    equal(&rt, save(rt.alloc(), &mut disk, &[]), Some(end));
    equal(&rt, has_bytes(&mut disk, SAVED), true);
    drop(disk);
    drop(ops);
    // Frames that are longer than a piece. The letters are 23 runs of 1,024 and one of 448.
    let ops = operations(&rt, 24_000);
    let mut disk = MemDisk::new(rt.alloc(), list(&rt, NEW), Vec::new(rt.alloc()));
    let end = End {
        at: 72_802,
        slots: 1,
    };
    equal(&rt, save(rt.alloc(), &mut disk, &ops), Some(end));
    let found = counted(rt.alloc(), &mut disk, MOST_OPERATIONS);
    equal(&rt, found, Ok((24_005, end)));
    drop(disk);
    drop(ops);
}

/// What loading answers, but for the replica.
type Loaded = Result<(usize, End), LoadFault>;

/// A file, a length up to which it is loaded, an offset with another byte, that byte, how many operations may be held,
/// and what loading answers.
const LOADED: &[(&[u8], usize, usize, u8, u32, Loaded)] = &[
    (SAVED, 13, 0, b'F', 9, Err(LoadFault::NotReplica)),
    (SAVED, 107, 0, 0, 9, Err(LoadFault::NotReplica)),
    (SAVED, 107, 4, 0, 9, Err(LoadFault::NotReplica)),
    (SAVED, 107, 4, 3, 9, Err(LoadFault::NotReplica)),
    (SAVED, 107, 4, 1, 9, Ok((5, SAVED_END))),
    (SAVED, 107, 8, 0, 9, Err(LoadFault::NotReplica)),
    (SAVED, 107, 12, 0, 9, Err(LoadFault::NotReplica)),
    (SAVED, 107, 13, 7, 9, Ok((0, End { at: 13, slots: 0 }))),
    (SAVED, 17, 13, 1, 9, Err(LoadFault::BadBatch(0))),
    (SAVED, 106, 13, 1, 9, Err(LoadFault::BadBatch(0))),
    // A tag that says that there are no runs, and tags of no grammar.
    (SAVED, 107, 14, 0, 9, Err(LoadFault::BadBatch(0))),
    (SAVED, 107, 14, 0x40, 9, Err(LoadFault::BadBatch(0))),
    (SAVED, 107, 14, 0xe0, 9, Err(LoadFault::BadBatch(0))),
    // A length above the greatest one, and one that cuts the last frame.
    (SAVED, 107, 14, 0x31, 9, Err(LoadFault::BadBatch(0))),
    (SAVED, 107, 17, 0x57, 9, Err(LoadFault::BadBatch(0))),
    (SAVED, 107, 18, 6, 9, Err(LoadFault::BadBatch(0))),
    (SAVED, 107, 106, 1, 9, Err(LoadFault::BadBatch(1))),
    (SAVED, 107, 106, 1, 4, Err(LoadFault::TooMany(4))),
    (SAVED, 106, 13, 1, 4, Err(LoadFault::BadBatch(0))),
    (EMPTY_BATCH, 19, 13, 1, 9, Ok((0, End { at: 18, slots: 1 }))),
    (OLD, 132, 13, 1, 9, Ok((5, End { at: 131, slots: 1 }))),
    // Single frames are read with the tag of runs too.
    (OLD, 132, 14, 0x20, 9, Ok((5, End { at: 131, slots: 1 }))),
    (OLD, 132, 17, 0x70, 9, Err(LoadFault::BadBatch(0))),
    (OLD, 132, 131, 1, 9, Err(LoadFault::BadBatch(1))),
];

/// A file of version 1 with a batch of no frames.
const EMPTY_BATCH: &[u8] = b"FGMX\x01\0\0\0\x01\0\0\0\x10\x01\0\0\0\0\0";

/// Where the meaning of `SAVED` ends.
const SAVED_END: End = End { at: 106, slots: 1 };

#[test]
fn bytes_decide_what_loading_answers(rt: HostRuntime) {
    for (file, len, at, byte, most, answer) in LOADED {
        let mut bytes = list(&rt, file);
        bytes.truncate(*len);
        if let Some(place) = bytes.get_mut(*at) {
            *place = *byte;
        }
        let mut disk = MemDisk::new(rt.alloc(), bytes, Vec::new(rt.alloc()));
        let found = counted(rt.alloc(), &mut disk, (*most).clamp(1, MOST_OPERATIONS));
        drop(disk);
        equal_at(&rt, &(len, at, byte), found, *answer);
    }
}

/// What a save makes of the file of version 1: the header and the old batch stay.
#[test]
fn a_file_of_version_1_is_carried_over(rt: HostRuntime) {
    let mut disk = sure_disk(&rt, list(&rt, OLD), 200);
    let two = [
        text(4, Some(id(3)), Some(id(2)), 'D'),
        text(5, Some(id(4)), Some(id(2)), 'E'),
    ];
    let ops = Vec::from_array(rt.alloc(), two).expect(&rt, "memory");
    let end = End { at: 179, slots: 2 };
    equal(&rt, save(rt.alloc(), &mut disk, &ops), Some(end));
    let mut wanted = list(&rt, &OLD[..131]);
    wanted.extend_from_slice(CARRIED_OVER).expect(&rt, "memory");
    equal(&rt, has_bytes(&mut disk, &wanted), true);
    equal(&rt, shows(rt.alloc(), &mut disk, b"# T\nACDE\n"), true);
    drop(wanted);
    drop(disk);
    drop(ops);
}

/// A batch with the run of D and E, after C, and the closed gate after it.
const CARRIED_OVER: &[u8] = b"\x01\x20\0\0\x2b\
\x04\0\0\0\x01\0\0\0\x04\0\0\0\x01\0\0\0\0\x01\0\0\0\x01\0\0\0\x03\x01\0\0\0\x01\0\0\0\x02\0\x02\0\0D\0\0E\
\0";

/// The crashes after which a file is looked at.
pub(crate) const PICKS: &[Pick] = &[
    Pick::Old,
    Pick::New,
    Pick::Fill(0),
    Pick::Fill(1),
    Pick::Fill(7),
    Pick::Fill(255),
];

/// A save: the file, how many of the operations follow after those that it has, and what is printed before and after.
#[derive(Clone, Copy)]
struct Saving {
    file: &'static [u8],
    held: usize,
    before: &'static [u8],
    after: &'static [u8],
}

/// A save to a new file, and one to a file of version 1.
const SAVINGS: &[Saving] = &[
    Saving {
        file: NEW,
        held: 0,
        before: b"",
        after: b"# T\nACxx\n",
    },
    Saving {
        file: OLD,
        held: 5,
        before: PRINTED,
        after: b"# T\nACxx\n",
    },
];

/// Saves where this call on the file fails, and looks at what crashes leave. It is saved where no call fails.
fn crash_at(rt: &(impl Abort + AllocGlobal), call: u32, saving: Saving, is_saved: bool) {
    let all = operations(rt, 2);
    let ops = all.get(saving.held..).unwrap_or_default();
    let mut disk = MemDisk::new(rt.alloc(), list(rt, saving.file), list(rt, &[call]));
    let end = save(rt.alloc(), &mut disk, ops);
    equal_at(rt, &call, end.is_some(), is_saved);
    for pick in PICKS {
        let mut left = disk.crash(*pick).expect(rt, "memory");
        // The file has the batch, or is as it was where that was not saved, and then takes it.
        let is_whole = shows(rt.alloc(), &mut left, saving.after)
            || !is_saved
                && shows(rt.alloc(), &mut left, saving.before)
                && save(rt.alloc(), &mut left, ops).is_some()
                && shows(rt.alloc(), &mut left, saving.after);
        drop(left);
        holds_at(rt, &(call, pick), is_whole);
    }
    drop(disk);
    drop(all);
}

#[test]
fn a_crash_leaves_all_of_a_batch_or_none(rt: HostRuntime) {
    for saving in SAVINGS {
        // Loading is a sync and two reads, and three more for a batch; a batch is two writes and two syncs.
        let calls: u32 = if saving.held == 0 { 7 } else { 10 };
        for call in 0..calls.saturating_add(2) {
            crash_at(&rt, call, *saving, call >= calls);
        }
    }
}
