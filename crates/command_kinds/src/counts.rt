//! The counts that commands report of their operations, as lines, and the status that they imply.
ghost use Rattle.std.specs.Prelude.{◌≡◌, ◌≤◌, ◌+◌, ◌++◌, length, None, Some};
ghost use Rattle.fugue_ids.specs.Outs.{WritesBytes};
ghost use Rattle.command_kinds.specs.Counts.{are_none, counts_line, counts_text, cursor_line, made_line, revised_text};
ghost use Rattle.command_kinds.specs.Counts.{sections_lines, status_by};
ghost use Rattle.command_kinds.specs.Changes.{notes_room};

use crate::Status;
use fugue_ids::{Failed, Out, write_pieces};
use itoa::Buffer;
use origin_model::Tally;
use replica_core::Replica;

/// What became of the operations that a command took in, and how many wait at the end.
#[derive(Clone, Copy)]
pub struct Counts {
    pub tally: Tally,
    pub waiting: usize,
    /// Where the relay's log ended, if they came from one.
    pub cursor: Option<u32>,
}

impl Counts {
    /// The counts of a replica that took operations in.
    pub(crate) fn of(replica: &Replica, tally: Tally) -> Counts
        ensures { result ≡ record { tally = tally; waiting = length replica.now.held.waiting; cursor = None } }
    {
        Counts {
            tally,
            waiting: replica.waiting().len(),
            cursor: None,
        }
    }

    /// The counts of a replica that took in what a relay answered, whose log ended there.
    pub(crate) fn of_exchange(replica: &Replica, tally: Tally, cursor: u32) -> Counts
        ensures { result ≡ record { tally = tally; waiting = length replica.now.held.waiting; cursor = Some cursor } }
    {
        Counts {
            cursor: Some(cursor),
            ..Counts::of(replica, tally)
        }
    }
}

/// What a command that saves notes.
#[derive(Clone, Copy)]
pub enum Note {
    /// What became of the operations that it took in.
    Counted(Counts),
    /// How many operations the command made: those of a script, one note, or the Delete of one.
    Made(u32),
    /// How many operations a draft took, and how many of them were made on sections.
    Revised(u32, SectionCounts),
}

/// How many operations add, drop, move and retitle a section.
#[derive(Clone, Copy)]
pub struct SectionCounts {
    pub added: u32,
    pub dropped: u32,
    pub moved: u32,
    pub retitled: u32,
}

impl SectionCounts {
    /// Whether none does.
    fn are_none(&self) -> bool
        ensures { result ≡ are_none self.now }
    {
        self.added == 0 && self.dropped == 0 && self.moved == 0 && self.retitled == 0
    }
}

/// Writes what became of the operations, how many wait at the end, and where the relay's log ended.
pub(crate) fn write_counts<N: Out>(notes: &mut N, counts: &Counts) -> Result<(), Failed>
    ensures text { WritesBytes (N.seen notes.old) (N.seen notes.new) result
        (counts_text counts.now.tally counts.now.waiting counts.now.cursor) }
    ensures short { length (counts_text counts.now.tally counts.now.waiting counts.now.cursor) ≤ notes_room }
{
    match counts.cursor {
        None => write_tally(notes, counts),
        Some(cursor) => write_exchange(notes, counts, cursor),
    }
}

fn write_exchange<N: Out>(notes: &mut N, counts: &Counts, cursor: u32) -> Result<(), Failed>
    ensures text { WritesBytes (N.seen notes.old) (N.seen notes.new) result
        (counts_line counts.now.tally counts.now.waiting ++ cursor_line cursor) }
    ensures short { length (counts_line counts.now.tally counts.now.waiting ++ cursor_line cursor) ≤ notes_room }
{
    write_tally(notes, counts)?;
    write_cursor(notes, cursor)
}

fn write_cursor<N: Out>(notes: &mut N, cursor: u32) -> Result<(), Failed>
    ensures text { WritesBytes (N.seen notes.old) (N.seen notes.new) result (cursor_line cursor) }
    ensures short { length (cursor_line cursor) ≤ 18 }
{
    let mut number = Buffer::new();
    write_pieces(
        notes,
        &[b"cursor ", number.format(cursor).as_bytes(), b"\n"],
    )
}

fn write_tally<N: Out>(notes: &mut N, counts: &Counts) -> Result<(), Failed>
    ensures text { WritesBytes (N.seen notes.old) (N.seen notes.new) result
        (counts_line counts.now.tally counts.now.waiting) }
    ensures short { length (counts_line counts.now.tally counts.now.waiting) + 18 ≤ notes_room }
{
    let tally = &counts.tally;
    let [mut accepted, mut repeated, mut waits] = [Buffer::new(), Buffer::new(), Buffer::new()];
    let [mut conflict, mut stray, mut full] = [Buffer::new(), Buffer::new(), Buffer::new()];
    write_pieces(
        notes,
        &[
            b"accepted ",
            accepted.format(tally.accepted).as_bytes(),
            b", repeated ",
            repeated.format(tally.repeated).as_bytes(),
            b", waiting ",
            waits.format(counts.waiting).as_bytes(),
            b", conflict ",
            conflict.format(tally.conflict).as_bytes(),
            b", stray ",
            stray.format(tally.stray).as_bytes(),
            b", full ",
            full.format(tally.full).as_bytes(),
            b"\n",
        ],
    )
}

/// Partial where some operation waits or was refused, and Done otherwise.
pub(crate) fn status_of(counts: &Counts) -> Status
    ensures { result ≡ status_by counts.now.tally counts.now.waiting }
{
    let tally = &counts.tally;
    if counts.waiting == 0 && tally.conflict == 0 && tally.stray == 0 && tally.full == 0 {
        Status::Done
    } else {
        Status::Partial
    }
}

/// Writes how many operations were made.
pub(crate) fn write_made<N: Out>(notes: &mut N, made: u32) -> Result<(), Failed>
    ensures text { WritesBytes (N.seen notes.old) (N.seen notes.new) result (made_line made) }
    ensures short { length (made_line made) ≤ notes_room }
{
    let mut number = Buffer::new();
    write_pieces(notes, &[b"made ", number.format(made).as_bytes(), b"\n"])
}

/// Writes how many operations a draft took, and how many of them were made on sections.
fn write_sections<N: Out>(notes: &mut N, made: u32, sections: &SectionCounts) -> Result<(), Failed>
    ensures text { WritesBytes (N.seen notes.old) (N.seen notes.new) result (sections_lines made sections.now) }
    ensures short { length (sections_lines made sections.now) ≤ notes_room }
{
    let [mut operations, mut added, mut dropped] = [Buffer::new(), Buffer::new(), Buffer::new()];
    let [mut moved, mut retitled] = [Buffer::new(), Buffer::new()];
    write_pieces(
        notes,
        &[
            b"made ",
            operations.format(made).as_bytes(),
            b"\n",
            b"sections: ",
            added.format(sections.added).as_bytes(),
            b" added, ",
            dropped.format(sections.dropped).as_bytes(),
            b" dropped, ",
            moved.format(sections.moved).as_bytes(),
            b" moved, ",
            retitled.format(sections.retitled).as_bytes(),
            b" retitled",
            b"\n",
        ],
    )
}

/// Writes how many operations a draft took, and how many of them were made on sections, if any was.
pub(crate) fn write_revised<N: Out>(
    notes: &mut N,
    made: u32,
    sections: &SectionCounts,
) -> Result<(), Failed>
    ensures text { WritesBytes (N.seen notes.old) (N.seen notes.new) result (revised_text made sections.now) }
    ensures short { length (revised_text made sections.now) ≤ notes_room }
{
    if sections.are_none() {
        write_made(notes, made)
    } else {
        write_sections(notes, made, sections)
    }
}
