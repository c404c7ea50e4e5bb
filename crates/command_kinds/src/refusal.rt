//! `Refusal`: each reason why a command fails, with its exit status and its line of diagnostics.
ghost use Rattle.std.specs.Prelude.{◌≡◌, ◌≤◌, length};
ghost use Rattle.fugue_ids.specs.Outs.{WritesBytes};
ghost use Rattle.command_kinds.specs.Refusal.{append_refusal, create_refusal, feed_refusal, frame_refusal};
ghost use Rattle.command_kinds.specs.Refusal.{load_refusal, read_refusal, script_refusal, serve_refusal, sync_refusal};
ghost use Rattle.command_kinds.specs.Refusal.{detail_of, refusal_line, status_of, words_of, Reported};
ghost use Rattle.command_kinds.specs.Changes.{notes_room};
ghost use Rattle.command_kinds.specs.declared.refusal.Refusal.TheVariants.{NoMemory as NoMemoryFound};

use crate::Status;
use crate::version_name::VersionName;
use edit_script::ScriptFault;
use fugue_ids::{Failed, NoMemory, Out, write_pieces};
use itoa::Buffer;
use op_frame::FrameFault;
use relay_sync::{ServeFault, SyncFault};
use replica_core::FeedFault;
use replica_file::{AppendFault, CreateFault, LoadFault, ReadFault};

/// Why a command failed: every cause, with the number that its line reports.
#[derive(Clone, Copy)]
pub enum Refusal {
    Words,
    /// No frame stands at the offset, and the bytes there begin none.
    BadFrame(u64),
    /// The stream ended inside of the frame at the offset.
    CutShort(u64),
    /// The line, counted from 1, is no line of a script.
    BadLine(u32),
    /// The line of a script names a section that is not shown.
    NoSectionAtLine(u32),
    /// The line of a script names a place that is not there.
    OutOfRangeAtLine(u32),
    /// A file is no replica's.
    NotReplica,
    /// The open slot of this number has no batch, or no byte stands after it.
    BadBatch(u32),
    /// A file that is to be made has bytes already.
    NotEmpty,
    /// So many operations are held, and more came or were to be made.
    TooMany(u32),
    /// Fewer counters are left behind this one than what is to be made needs.
    IdsSpent(u32),
    /// The stream, the script, the text or the reply is longer than its limit.
    TooLong,
    /// What is to be saved does not fit a batch, or there is no slot for it.
    BatchTooLong,
    /// No message of a relay's reply stands at the offset, and the bytes there begin none.
    BadReply(u64),
    /// The relay refused, with this code.
    RelayRefused(u8),
    /// The wire ended in the place of the message at the offset of a reply, or inside of it.
    ReplyCutShort(u64),
    /// The two places are not there, or the first is not before the second.
    NoSuchPlaces,
    /// No section of this number, counted from 1, is shown: in the arrangement, or for `comment` in the catalogue.
    NoSection(u32),
    /// The arrangement has no place of this number, counted from 1.
    NoPlace(u32),
    /// No stamp is left for a move or a new title.
    StampsSpent,
    /// The base of a draft differs from what is shown, from this byte on, counted from 0.
    BaseDiffers(u64),
    /// The line of a draft, counted from 1, is not UTF-8, is a heading with no title, or is the first and no heading.
    BadDraft(u64),
    /// The draft has nothing, and sections are shown.
    EmptyDraft,
    /// Fewer operations were accepted than this.
    NoMoment(u32),
    /// The replica made operations of its own after so many.
    OwnSince(u32),
    /// The section has fewer characters.
    OutOfRange,
    /// No remark has this number, counted from 1.
    NoComment(u32),
    /// A passage stands nowhere in what is shown.
    PassageNotFound,
    /// A passage stands at more places than one: how many.
    FoundOften(u32),
    /// The file has no version of this name.
    NoVersion(VersionName),
    Outside,
    NoMemory,
}

/// What stands after the words of a refusal's line.
#[derive(Clone, Copy)]
enum Detail {
    Nothing,
    Number(u64),
    /// A number with `times` after it.
    Times(u64),
    Name(VersionName),
}

/// The status that a refusal answers, the words of its line, and what stands after them.
#[derive(Clone, Copy)]
struct Row(Status, &'static str, Detail);

impl Refusal {
    /// The row of the refusal in the table of them all.
    fn row(self) -> Row
        ensures status { result.0 ≡ status_of self }
        ensures words { result.1.now ≡ words_of self }
        ensures detail { result.2 ≡ detail_of self }
    {
        match self {
            Self::Words => Row(Status::Usage, "words not understood", Detail::Nothing),
            Self::BadFrame(at) => Row(Status::BadInput, "bad frame at byte ", Detail::Number(at)),
            Self::CutShort(at) => Row(Status::BadInput, "cut short at byte ", Detail::Number(at)),
            Self::BadLine(at) => Row(Status::BadInput, "bad line ", Detail::Number(at.into())),
            Self::NoSectionAtLine(at) => Row(
                Status::BadInput,
                "no section at line ",
                Detail::Number(at.into()),
            ),
            Self::OutOfRangeAtLine(at) => Row(
                Status::BadInput,
                "out of range at line ",
                Detail::Number(at.into()),
            ),
            Self::NotReplica => Row(Status::BadFile, "not a replica", Detail::Nothing),
            Self::BadBatch(slot) => Row(Status::BadFile, "bad batch ", Detail::Number(slot.into())),
            Self::NotEmpty => Row(Status::BadFile, "not empty", Detail::Nothing),
            Self::TooMany(count) => Row(Status::Limit, "too many: ", Detail::Number(count.into())),
            Self::IdsSpent(count) => Row(
                Status::Limit,
                "ids spent: ",
                Detail::Number(count.into()),
            ),
            Self::TooLong => Row(Status::Limit, "too long", Detail::Nothing),
            Self::BatchTooLong => Row(Status::Limit, "batch too long", Detail::Nothing),
            Self::BadReply(at) => Row(Status::BadInput, "bad reply at byte ", Detail::Number(at)),
            Self::RelayRefused(code) => Row(
                Status::BadInput,
                "relay refused ",
                Detail::Number(code.into()),
            ),
            Self::ReplyCutShort(at) => Row(
                Status::BadInput,
                "reply cut short at byte ",
                Detail::Number(at),
            ),
            Self::NoSuchPlaces => Row(Status::BadInput, "no such places", Detail::Nothing),
            Self::NoSection(at) => Row(Status::BadInput, "no section ", Detail::Number(at.into())),
            Self::NoPlace(at) => Row(Status::BadInput, "no place ", Detail::Number(at.into())),
            Self::StampsSpent => Row(Status::Limit, "stamps spent", Detail::Nothing),
            Self::BaseDiffers(at) => Row(
                Status::BadInput,
                "base differs at byte ",
                Detail::Number(at),
            ),
            Self::BadDraft(line) => Row(
                Status::BadInput,
                "bad draft at line ",
                Detail::Number(line),
            ),
            Self::EmptyDraft => Row(Status::BadInput, "empty draft", Detail::Nothing),
            Self::NoMoment(at) => Row(Status::BadInput, "no moment ", Detail::Number(at.into())),
            Self::OwnSince(at) => Row(
                Status::BadInput,
                "own operations since ",
                Detail::Number(at.into()),
            ),
            Self::OutOfRange => Row(Status::BadInput, "out of range", Detail::Nothing),
            Self::NoComment(at) => Row(Status::BadInput, "no comment ", Detail::Number(at.into())),
            Self::PassageNotFound => Row(Status::BadInput, "passage not found", Detail::Nothing),
            Self::FoundOften(count) => Row(
                Status::BadInput,
                "passage found ",
                Detail::Times(count.into()),
            ),
            Self::NoVersion(name) => Row(Status::BadInput, "no version ", Detail::Name(name)),
            Self::Outside => Row(Status::OutsideFault, "outside fault", Detail::Nothing),
            Self::NoMemory => Row(Status::NoMemory, "no memory", Detail::Nothing),
        }
    }
}

impl From<FrameFault> for Refusal {
    ghost from_gives = { λ fault refusal. refusal ≡ frame_refusal fault };

    fn from(fault: FrameFault) -> Refusal {
        match fault {
            FrameFault::BadFrame(offset) => Refusal::BadFrame(offset),
            FrameFault::CutShort(offset) => Refusal::CutShort(offset),
            FrameFault::ReadFault => Refusal::Outside,
            FrameFault::TooLong => Refusal::TooLong,
            FrameFault::NoMemory => Refusal::NoMemory,
        }
    }
}

impl From<FeedFault> for Refusal {
    ghost from_gives = { λ fault refusal. refusal ≡ feed_refusal fault };

    fn from(fault: FeedFault) -> Refusal {
        match fault {
            FeedFault::TooMany(count) => Refusal::TooMany(count),
            FeedFault::NoMemory => Refusal::NoMemory,
        }
    }
}

impl From<ScriptFault> for Refusal {
    ghost from_gives = { λ fault refusal. refusal ≡ script_refusal fault };

    fn from(fault: ScriptFault) -> Refusal {
        match fault {
            ScriptFault::BadLine(line) => Refusal::BadLine(line),
            ScriptFault::NoSection(line) => Refusal::NoSectionAtLine(line),
            ScriptFault::OutOfRange(line) => Refusal::OutOfRangeAtLine(line),
            ScriptFault::IdsSpent(count) => Refusal::IdsSpent(count),
            ScriptFault::TooMany(count) => Refusal::TooMany(count),
            ScriptFault::ReadFault => Refusal::Outside,
            ScriptFault::TooLong => Refusal::TooLong,
            ScriptFault::NoMemory => Refusal::NoMemory,
        }
    }
}

impl From<CreateFault> for Refusal {
    ghost from_gives = { λ fault refusal. refusal ≡ create_refusal fault };

    fn from(fault: CreateFault) -> Refusal {
        match fault {
            CreateFault::NotEmpty => Refusal::NotEmpty,
            CreateFault::DiskFault => Refusal::Outside,
        }
    }
}

impl From<LoadFault> for Refusal {
    ghost from_gives = { λ fault refusal. refusal ≡ load_refusal fault };

    fn from(fault: LoadFault) -> Refusal {
        match fault {
            LoadFault::NotReplica => Refusal::NotReplica,
            LoadFault::BadBatch(slot) => Refusal::BadBatch(slot),
            LoadFault::DiskFault => Refusal::Outside,
            LoadFault::TooMany(count) => Refusal::TooMany(count),
            LoadFault::NoMemory => Refusal::NoMemory,
        }
    }
}

impl From<AppendFault> for Refusal {
    ghost from_gives = { λ fault refusal. refusal ≡ append_refusal fault };

    fn from(fault: AppendFault) -> Refusal {
        match fault {
            AppendFault::BatchTooLong => Refusal::BatchTooLong,
            AppendFault::DiskFault => Refusal::Outside,
            AppendFault::NoMemory => Refusal::NoMemory,
        }
    }
}

impl From<ReadFault> for Refusal {
    ghost from_gives = { λ fault refusal. refusal ≡ read_refusal fault };

    fn from(fault: ReadFault) -> Refusal {
        match fault {
            ReadFault::DiskFault => Refusal::Outside,
            ReadFault::NoMemory => Refusal::NoMemory,
        }
    }
}

impl From<SyncFault> for Refusal {
    ghost from_gives = { λ fault refusal. refusal ≡ sync_refusal fault };

    fn from(fault: SyncFault) -> Refusal {
        match fault {
            SyncFault::WireFault => Refusal::Outside,
            SyncFault::BadReply(offset) => Refusal::BadReply(offset),
            SyncFault::RelayRefused(code) => Refusal::RelayRefused(code),
            SyncFault::CutShort(offset) => Refusal::ReplyCutShort(offset),
            SyncFault::TooLong => Refusal::TooLong,
            SyncFault::TooMany(count) => Refusal::TooMany(count),
            SyncFault::NoMemory => Refusal::NoMemory,
        }
    }
}

impl From<ServeFault> for Refusal {
    ghost from_gives = { λ fault refusal. refusal ≡ serve_refusal fault };

    fn from(fault: ServeFault) -> Refusal {
        match fault {
            ServeFault::DockFault => Refusal::Outside,
            ServeFault::TooLong => Refusal::TooLong,
            ServeFault::NoMemory => Refusal::NoMemory,
        }
    }
}

impl From<NoMemory> for Refusal {
    ghost from_gives = { λ _ refusal. refusal ≡ NoMemoryFound };

    fn from(_: NoMemory) -> Refusal {
        Refusal::NoMemory
    }
}

/// Writes the refusal's line to the notes, as far as they take it, and answers its status.
pub fn tell<N: Out>(notes: &mut N, refusal: Refusal) -> Status
    ensures status { result ≡ status_of refusal }
    ensures reported { Reported (N.seen notes.old) (N.seen notes.new) (refusal_line refusal) }
{
    let Row(status, ..) = refusal.row();
    let _ = write_line(notes, refusal);
    status
}

fn write_line<N: Out>(notes: &mut N, refusal: Refusal) -> Result<(), Failed>
    ensures text { WritesBytes (N.seen notes.old) (N.seen notes.new) result (refusal_line refusal) }
    ensures short { length (refusal_line refusal) ≤ notes_room }
{
    let Row(_, words, detail) = refusal.row();
    let words = words.as_bytes();
    match detail {
        Detail::Nothing => write_pieces(notes, &[words, b"\n"]),
        Detail::Number(number) => {
            let mut buffer = Buffer::new();
            write_pieces(notes, &[words, buffer.format(number).as_bytes(), b"\n"])
        }
        Detail::Times(number) => {
            let mut buffer = Buffer::new();
            write_pieces(
                notes,
                &[words, buffer.format(number).as_bytes(), b" times", b"\n"],
            )
        }
        Detail::Name(name) => write_pieces(notes, &[words, name.as_bytes(), b"\n"]),
    }
}
