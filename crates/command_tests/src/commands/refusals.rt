//! How a refusal is reported.

use crate::assertions::holds_at;
use manuscript_cli::{Refusal, Status, tell};
use outer_ports::MemSink;

/// Each refusal but that of a version's name, its text and its status.
const REFUSALS: &[(Refusal, &str, Status)] = &[
    (Refusal::Words, "words not understood", Status::Usage),
    (
        Refusal::BadFrame(18_446_744_073_709_551_615),
        "bad frame at byte 18446744073709551615",
        Status::BadInput,
    ),
    (
        Refusal::CutShort(0),
        "cut short at byte 0",
        Status::BadInput,
    ),
    (Refusal::BadLine(7), "bad line 7", Status::BadInput),
    (
        Refusal::NoSectionAtLine(2),
        "no section at line 2",
        Status::BadInput,
    ),
    (
        Refusal::OutOfRangeAtLine(4_294_967_295),
        "out of range at line 4294967295",
        Status::BadInput,
    ),
    (Refusal::NoSection(4), "no section 4", Status::BadInput),
    (Refusal::NoPlace(5), "no place 5", Status::BadInput),
    (Refusal::StampsSpent, "stamps spent", Status::Limit),
    (Refusal::OutOfRange, "out of range", Status::BadInput),
    (Refusal::NotReplica, "not a replica", Status::BadFile),
    (Refusal::BadBatch(3), "bad batch 3", Status::BadFile),
    (Refusal::NotEmpty, "not empty", Status::BadFile),
    (
        Refusal::IdsSpent(4_294_967_295),
        "ids spent: 4294967295",
        Status::Limit,
    ),
    (Refusal::BatchTooLong, "batch too long", Status::Limit),
    (Refusal::TooLong, "too long", Status::Limit),
    (
        Refusal::TooMany(4_194_304),
        "too many: 4194304",
        Status::Limit,
    ),
    (
        Refusal::BadReply(4_294_967_296),
        "bad reply at byte 4294967296",
        Status::BadInput,
    ),
    (
        Refusal::RelayRefused(255),
        "relay refused 255",
        Status::BadInput,
    ),
    (
        Refusal::ReplyCutShort(9),
        "reply cut short at byte 9",
        Status::BadInput,
    ),
    (Refusal::NoSuchPlaces, "no such places", Status::BadInput),
    (
        Refusal::BaseDiffers(0),
        "base differs at byte 0",
        Status::BadInput,
    ),
    (
        Refusal::BadDraft(1),
        "bad draft at line 1",
        Status::BadInput,
    ),
    (Refusal::EmptyDraft, "empty draft", Status::BadInput),
    (Refusal::NoMoment(37), "no moment 37", Status::BadInput),
    (
        Refusal::OwnSince(13),
        "own operations since 13",
        Status::BadInput,
    ),
    (Refusal::Outside, "outside fault", Status::OutsideFault),
    (Refusal::NoMemory, "no memory", Status::NoMemory),
];

#[test]
fn refusals_are_reported_in_a_line(rt: HostRuntime) {
    for (refusal, text, status) in REFUSALS {
        let line = format!(in rt.alloc(); "{text}\n").expect(&rt, "memory");
        let mut notes = MemSink::new(rt.alloc(), 5, Vec::new(rt.alloc()));
        let end = tell(&mut notes, *refusal);
        let is_so = notes.written() == line.as_bytes();
        drop(notes);
        drop(line);
        holds_at(&rt, &text, is_so && end == *status);
    }
}
