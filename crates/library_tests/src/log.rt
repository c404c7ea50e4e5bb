//! Tests of the relay's log and its sessions, by example and against a slow reference implementation.
use crate::assertions::{equal, holds_at};
use crate::dice::Dice;
use Happens::{Goes, Opens, Says};
use fugue_ids::{ByteList, Op};
use op_frame::{First, encode, first_frame};
use relay_core::{Event, MOST_LOGGED, Relay};
use std::alloc::{AllocError, Global};
use std::hash::{BuildHasherDefault, FoldHasher};
use std::process::Abort;
use std::test::Fail;

type Plain = BuildHasherDefault<FoldHasher>;

/// The frame of a section.
const SECTION: &[u8] = &[1, 0, 0, 0, 9, 0, 0, 0, 0, 0, 0, 0, 1, 84];

/// The frame of a text.
const TEXT: &[u8] = &[
    2, 0, 0, 0, 1, 0, 0, 0, 0, 0, 0, 0, 9, 0, 0, 0, 0, 0, 0, 0, 0, 97,
];

/// The frame of a note.
const NOTE: &[u8] = &[5, 0, 0, 0, 1, 0, 0, 0, 0, 0, 7, 0, 2, b'h', b'i'];

/// The note, and the length of a log of one.
const NOTE_LOGGED: &[u8] = &[
    5, 0, 0, 0, 1, 0, 0, 0, 0, 0, 7, 0, 2, b'h', b'i', 0x55, 0, 0, 0, 1,
];

/// A greeting from the start of the log on, and the text's frame.
const HELLO_TEXT: &[u8] = &[
    0x48, 0, 0, 0, 0, 2, 0, 0, 0, 1, 0, 0, 0, 0, 0, 0, 0, 9, 0, 0, 0, 0, 0, 0, 0, 0, 97,
];

/// A greeting, and both frames, the section first.
const HELLO_SECTION_TEXT: &[u8] = &[
    0x48, 0, 0, 0, 0, 1, 0, 0, 0, 9, 0, 0, 0, 0, 0, 0, 0, 1, 84, 2, 0, 0, 0, 1, 0, 0, 0, 0, 0, 0,
    0, 9, 0, 0, 0, 0, 0, 0, 0, 0, 97,
];

/// Both frames, the text first, and the length of a log of two.
const BOTH: &[u8] = &[
    2, 0, 0, 0, 1, 0, 0, 0, 0, 0, 0, 0, 9, 0, 0, 0, 0, 0, 0, 0, 0, 97, 1, 0, 0, 0, 9, 0, 0, 0, 0,
    0, 0, 0, 1, 84, 0x55, 0, 0, 0, 2,
];

/// The section alone, and the length of a log of two.
const SECOND: &[u8] = &[1, 0, 0, 0, 9, 0, 0, 0, 0, 0, 0, 0, 1, 84, 0x55, 0, 0, 0, 2];

/// The frame of five letters that were typed in a row.
const FIVE_LETTERS: &[u8] = &[
    4, 0, 0, 0, 1, 0, 0, 0, 0, 0, 0, 0, 9, 0, 0, 0, 0, 0, 0, 0, 5, 0, 0, 97, 0, 0, 98, 0, 0, 99, 0,
    0, 100, 0, 0, 101,
];

/// The own frames of the first three of them.
const THREE_LETTERS: &[u8] = &[
    2, 0, 0, 0, 1, 0, 0, 0, 0, 0, 0, 0, 9, 0, 0, 0, 0, 0, 0, 0, 0, 97, 2, 0, 0, 0, 1, 0, 0, 0, 1,
    0, 0, 0, 9, 0, 0, 0, 0, 1, 0, 0, 0, 1, 0, 0, 0, 0, 0, 0, 0, 98, 2, 0, 0, 0, 1, 0, 0, 0, 2, 0,
    0, 0, 9, 0, 0, 0, 0, 1, 0, 0, 0, 1, 0, 0, 0, 1, 0, 0, 0, 99,
];

/// Those, and the length of a log of three.
const THREE_LOGGED: &[u8] = &[
    2, 0, 0, 0, 1, 0, 0, 0, 0, 0, 0, 0, 9, 0, 0, 0, 0, 0, 0, 0, 0, 97, 2, 0, 0, 0, 1, 0, 0, 0, 1,
    0, 0, 0, 9, 0, 0, 0, 0, 1, 0, 0, 0, 1, 0, 0, 0, 0, 0, 0, 0, 98, 2, 0, 0, 0, 1, 0, 0, 0, 2, 0,
    0, 0, 9, 0, 0, 0, 0, 1, 0, 0, 0, 1, 0, 0, 0, 1, 0, 0, 0, 99, 85, 0, 0, 0, 3,
];

/// The third one alone, and the length of a log of three.
const THIRD: &[u8] = &[
    2, 0, 0, 0, 1, 0, 0, 0, 2, 0, 0, 0, 9, 0, 0, 0, 0, 1, 0, 0, 0, 1, 0, 0, 0, 1, 0, 0, 0, 99, 85,
    0, 0, 0, 3,
];

/// A greeting, the section, and the frame of the first three letters.
const SECTION_AND_RUN: &[u8] = &[
    72, 0, 0, 0, 0, 1, 0, 0, 0, 9, 0, 0, 0, 0, 0, 0, 0, 1, 84, 4, 0, 0, 0, 1, 0, 0, 0, 0, 0, 0, 0,
    9, 0, 0, 0, 0, 0, 0, 0, 3, 0, 0, 97, 0, 0, 98, 0, 0, 99,
];

/// Both frames, the section first, and the length of a log of two.
const SECTION_FIRST: &[u8] = &[
    1, 0, 0, 0, 9, 0, 0, 0, 0, 0, 0, 0, 1, 84, 2, 0, 0, 0, 1, 0, 0, 0, 0, 0, 0, 0, 9, 0, 0, 0, 0,
    0, 0, 0, 0, 97, 85, 0, 0, 0, 2,
];

/// What happens to a session.
#[derive(Clone, Copy)]
enum Happens {
    Opens,
    Says(&'static [u8]),
    Goes,
}

/// A session, what happens to it, and the reply to it; no bytes where there is none.
type Row = (u32, Happens, &'static [u8]);

/// Two sessions bring a frame each, and are answered both; each later one is read beside that log.
const ROWS: &[Row] = &[
    (0, Opens, &[]),
    (1, Opens, &[]),
    (0, Says(&[0x48, 0, 0, 0, 0]), &[]),
    (1, Says(HELLO_TEXT), &[]),
    (0, Says(SECTION), &[]),
    (1, Says(&[0x44]), BOTH),
    (0, Says(&[0x44]), BOTH),
    (2, Opens, &[]),
    (2, Says(&[0x48]), &[]),
    (2, Says(&[0]), &[]),
    (2, Says(&[0]), &[]),
    (2, Says(&[0]), &[]),
    (2, Says(&[1]), &[]),
    (2, Says(&[0x44]), SECOND),
    (3, Opens, &[]),
    (3, Says(&[0x48, 0, 0, 0, 3]), &[0x58, 3]),
    // A cursor at the log's end is fine.
    (4, Opens, &[]),
    (
        4,
        Says(&[0x48, 0, 0, 0, 2, 0x44, 0x44]),
        &[0x55, 0, 0, 0, 2],
    ),
    // Closed, and unknown.
    (4, Says(&[0x44]), &[]),
    (7, Says(&[0]), &[]),
    (7, Goes, &[]),
    // No message begins with these.
    (5, Opens, &[]),
    (5, Says(&[0]), &[0x58, 1]),
    (5, Opens, &[]),
    (5, Says(&[0x48, 0, 0, 0, 0, 6, 0x44]), &[0x58, 1]),
    // Replica 0, at the last byte of it.
    (5, Opens, &[]),
    (5, Says(&[0x48, 0, 0, 0, 0, 2, 0, 0, 0]), &[]),
    (5, Opens, &[]),
    (5, Says(&[0]), &[0x58, 1]),
    // A number that is opened again begins an empty text.
    (6, Opens, &[]),
    (6, Says(&[0x48, 0, 0]), &[]),
    (6, Goes, &[]),
    (6, Opens, &[]),
    (6, Says(&[0]), &[0x58, 1]),
];

/// Whether what happens to a session has one reply, with these bytes, that closes the session, or none where there are no
/// bytes.
fn is_answered(
    alloc: Global,
    relay: &mut Relay<Plain>,
    session: u32,
    happens: Happens,
    bytes: &[u8],
) -> Result<bool, Fail> {
    let event = match happens {
        Opens => Event::Opened(session),
        Says(piece) => Event::Piece(session, ByteList::new(piece.to_vec(alloc)?)),
        Goes => Event::Gone(session),
    };
    let replies = match relay.step(event) {
        Ok(replies) => replies,
        Err(_) => return Err(Fail::from(AllocError)),
    };
    Ok(match replies.as_slice() {
        [] => bytes.is_empty(),
        [reply] => reply.session == session && reply.closes && reply.bytes.as_slice() == bytes,
        _ => false,
    })
}

fn check_rows(
    rt: &impl Abort,
    alloc: Global,
    relay: &mut Relay<Plain>,
    rows: &[Row],
) -> Result<(), Fail> {
    for (row, (session, happens, want)) in rows.iter().enumerate() {
        let answered = is_answered(alloc, relay, *session, *happens, want)?;
        holds_at(rt, &(row, *session, *want), answered);
    }
    Ok(())
}

/// One operation fits; it is known when it comes again, and another is refused.
const ONE_FRAME: &[Row] = &[
    (8, Opens, &[]),
    (8, Says(HELLO_SECTION_TEXT), &[0x58, 2]),
    (9, Opens, &[]),
    (9, Says(&[0x48, 0, 0, 0, 1]), &[]),
    (9, Says(SECTION), &[]),
    (9, Says(&[0x44]), &[0x55, 0, 0, 0, 1]),
    (9, Opens, &[]),
    (9, Says(HELLO_TEXT), &[0x58, 2]),
];

/// Of five letters that were typed in a row three fit: they stay, and are known alone and as a run.
const RUNS: &[Row] = &[
    (0, Opens, &[]),
    (0, Says(&[0x48, 0, 0, 0, 0]), &[]),
    (0, Says(FIVE_LETTERS), &[0x58, 2]),
    (1, Opens, &[]),
    (1, Says(&[0x48, 0, 0, 0, 0]), &[]),
    (1, Says(THREE_LETTERS), &[]),
    (1, Says(&[0x44]), THREE_LOGGED),
    // A cursor within the run, which comes in two pieces.
    (2, Opens, &[]),
    (2, Says(&[0x48, 0, 0, 0, 2]), &[]),
    (
        2,
        Says(&[4, 0, 0, 0, 1, 0, 0, 0, 0, 0, 0, 0, 9, 0, 0, 0, 0, 0, 0, 0]),
        &[],
    ),
    (2, Says(&[3, 0, 0, 97, 0, 0, 98, 0, 0, 99]), &[]),
    (2, Says(&[0x44]), THIRD),
    (3, Opens, &[]),
    (3, Says(&[0x48, 0, 0, 0, 4]), &[0x58, 3]),
    (4, Opens, &[]),
    (4, Says(&[0x48, 0, 0, 0, 3, 0x44]), &[0x55, 0, 0, 0, 3]),
    // The closing byte's number within a frame ends nothing, and a run of one letter is none.
    (5, Opens, &[]),
    (5, Says(&[0x48, 0, 0, 0, 0, 4, 0, 0, 0, 0x44]), &[]),
    (5, Goes, &[]),
    (5, Opens, &[]),
    (
        5,
        Says(&[
            72, 0, 0, 0, 0, 4, 0, 0, 0, 1, 0, 0, 0, 0, 0, 0, 0, 9, 0, 0, 0, 0, 0, 0, 0, 1,
        ]),
        &[0x58, 1],
    ),
];

/// The section and one letter of three fit.
const SECTION_AND_LETTER: &[Row] = &[
    (0, Opens, &[]),
    (0, Says(SECTION_AND_RUN), &[0x58, 2]),
    (1, Opens, &[]),
    (1, Says(&[0x48, 0, 0, 0, 0]), &[]),
    (1, Says(TEXT), &[]),
    (1, Says(SECTION), &[]),
    (1, Says(&[0x44]), SECTION_FIRST),
];

/// All five letters fit.
const ALL_LETTERS: &[Row] = &[
    (0, Opens, &[]),
    (0, Says(&[0x48, 0, 0, 0, 0]), &[]),
    (0, Says(FIVE_LETTERS), &[]),
    (1, Opens, &[]),
    (1, Says(&[0x48, 0, 0, 0, 5, 0x44]), &[0x55, 0, 0, 0, 5]),
];

/// A note joins the log once, and is answered as its own frame.
const NOTE_TWICE: &[Row] = &[
    (0, Opens, &[]),
    (0, Says(&[0x48, 0, 0, 0, 0]), &[]),
    (0, Says(NOTE), &[]),
    (0, Says(NOTE), &[]),
    (0, Says(&[0x44]), NOTE_LOGGED),
];

#[test]
fn each_session_is_answered_as_its_text_asks_while_the_log_has_room(
    rt: HostRuntime,
) -> Result<(), Fail> {
    let cases = [
        (MOST_LOGGED, ROWS, 2),
        (1, ONE_FRAME, 1),
        (3, RUNS, 3),
        (2, SECTION_AND_LETTER, 2),
        (MOST_LOGGED, ALL_LETTERS, 5),
        (1, NOTE_TWICE, 1),
    ];
    for (most, rows, logged) in cases {
        let mut relay = Relay::new(rt.alloc(), BuildHasherDefault::default(), most);
        let checked = check_rows(&rt, rt.alloc(), &mut relay, rows);
        equal(&rt, relay.log_len(), logged);
        drop(relay);
        checked?;
    }
    Ok(())
}

/// What four sessions say: a section and a text, with a byte after the closing one; a run that begins with the text,
/// with more; a cursor that may come too early; and a surrogate at the end.
const TEXTS: [&[u8]; 4] = [
    &[
        72, 0, 0, 0, 0, 1, 0, 0, 0, 9, 0, 0, 0, 0, 0, 0, 0, 1, 84, 2, 0, 0, 0, 1, 0, 0, 0, 0, 0, 0,
        0, 9, 0, 0, 0, 0, 0, 0, 0, 0, 97, 68, 72,
    ],
    &[
        72, 0, 0, 0, 0, 4, 0, 0, 0, 1, 0, 0, 0, 0, 0, 0, 0, 9, 0, 0, 0, 0, 0, 0, 0, 3, 0, 0, 97, 0,
        0, 98, 0, 0, 99, 3, 0, 0, 0, 1, 0, 0, 0, 0, 1, 0, 0, 0, 9, 0, 0, 0, 0, 0, 0, 0, 1, 84, 1,
        0, 0, 0, 9, 0, 0, 0, 1, 1, 0, 0, 0, 9, 0, 0, 0, 0, 0, 0, 6, 97, 195, 169, 226, 130, 172,
        68,
    ],
    &[
        72, 0, 0, 0, 1, 1, 0, 0, 0, 9, 0, 0, 0, 1, 1, 0, 0, 0, 9, 0, 0, 0, 0, 0, 0, 6, 97, 195,
        169, 226, 130, 172, 2, 0, 0, 0, 1, 0, 0, 0, 1, 0, 0, 0, 9, 0, 0, 0, 0, 1, 0, 0, 0, 1, 0, 0,
        0, 0, 1, 0, 0, 0, 2, 0, 0, 0, 0, 1, 246, 0, 68,
    ],
    &[
        72, 0, 0, 0, 0, 2, 0, 0, 0, 1, 0, 0, 0, 0, 0, 0, 0, 9, 0, 0, 0, 0, 0, 0, 0, 0, 97, 2, 0, 0,
        0, 1, 0, 0, 0, 1, 0, 0, 0, 9, 0, 0, 0, 0, 1, 0, 0, 0, 1, 0, 0, 0, 0, 1, 0, 0, 0, 2, 0, 0,
        0, 0, 1, 246, 0, 3, 0, 0, 0, 1, 0, 0, 0, 0, 2, 0, 0, 0, 1, 0, 0, 0, 0, 0, 0, 0, 9, 0, 0, 0,
        0, 0, 0, 0, 216, 0,
    ],
];

/// What a text is at its last byte, read from its start.
#[derive(Drop)]
enum TextState {
    Partly,
    /// The greeting ends there.
    Cursor(u32),
    /// The frame of these ends there.
    Frame(Vec<Op>),
    /// The closing byte, after this greeting.
    Closing(u32),
    Bad,
}

fn read_text(alloc: Global, text: &[u8]) -> Result<TextState, Fail> {
    let [0x48, a, b, c, d, messages @ ..] = text else {
        return Ok(match text {
            [] | [0x48, ..] => TextState::Partly,
            _ => TextState::Bad,
        });
    };
    let cursor = u32::from_be_bytes([*a, *b, *c, *d]);
    let mut rest = messages;
    for _ in 0..messages.len() {
        match first_frame(alloc, rest)? {
            First::Whole(_, len) if len < rest.len() => rest = &rest[len..],
            First::Whole(ops, _) => return Ok(TextState::Frame(ops)),
            First::Prefix => return Ok(TextState::Partly),
            First::Bad if matches!(rest, [0x44]) => return Ok(TextState::Closing(cursor)),
            First::Bad => return Ok(TextState::Bad),
        }
    }
    Ok(TextState::Cursor(cursor))
}

/// The reply to a text at its last byte, by reading it anew; no bytes where there is none. The operations of a frame join
/// the log until one finds it full.
fn slow_reply(alloc: Global, log: &mut Vec<Vec<u8>>, text: &[u8]) -> Result<Vec<u8>, Fail> {
    let mut reply = Vec::new(alloc);
    match read_text(alloc, text)? {
        TextState::Partly => {}
        TextState::Bad => reply.extend_from_slice(&[0x58, 1])?,
        TextState::Cursor(cursor) => {
            if cursor as usize > log.len() {
                reply.extend_from_slice(&[0x58, 3])?;
            }
        }
        TextState::Closing(cursor) => {
            for frame in log.iter().skip(cursor as usize) {
                reply.extend_from_slice(frame.as_slice())?;
            }
            reply.push(0x55)?;
            reply.extend_from_slice(&(log.len().min(FEW) as u32).to_be_bytes())?;
        }
        TextState::Frame(ops) => {
            for op in &ops {
                let mut own = Vec::new(alloc);
                encode(op, &mut own)?;
                if !reply.is_empty() || log.contains(&own) {
                    continue;
                }
                if log.len() >= FEW {
                    reply.extend_from_slice(&[0x58, 2])?;
                } else {
                    log.push(own)?;
                }
            }
        }
    }
    Ok(reply)
}

/// How many operations the log takes here.
const FEW: usize = 4;

/// Four sessions speak in turns that the seed gives, in pieces of one to nine bytes.
fn talk(
    rt: &impl Abort,
    alloc: Global,
    relay: &mut Relay<Plain>,
    log: &mut Vec<Vec<u8>>,
    seed: u64,
) -> Result<(), Fail> {
    let mut dice = Dice { state: seed };
    let mut said = [0usize; 4];
    for session in 0..4 {
        let is_open = is_answered(alloc, relay, session, Opens, &[])?;
        holds_at(rt, &session, is_open);
    }
    for _ in 0..150 {
        // No clause of `Dice` says that the number is below four.
        let session = dice.number(4) % 4;
        let text = TEXTS[session as usize];
        let from = said[session as usize];
        let to = from.saturating_add(1).saturating_add(dice.roll(9));
        let (from, to) = (from.min(to).min(text.len()), to.min(text.len()));
        let mut want = Vec::new(alloc);
        for end in from..to {
            if want.is_empty() {
                want = slow_reply(alloc, log, &text[..text.len().min(end + 1)])?;
            }
        }
        let same = is_answered(alloc, relay, session, Says(&text[from..to]), &want)?;
        holds_at(rt, &(seed, session, from), same);
        said[session as usize] = if want.is_empty() { to } else { text.len() };
    }
    Ok(())
}

#[test]
fn interleaved_sessions_are_answered_as_their_joined_texts_ask(
    rt: HostRuntime,
) -> Result<(), Fail> {
    for seed in 0..1000 {
        let mut relay = Relay::new(rt.alloc(), BuildHasherDefault::default(), FEW as u32);
        let mut log = Vec::new(rt.alloc());
        let done = talk(&rt, rt.alloc(), &mut relay, &mut log, seed);
        drop(relay);
        done?;
    }
    Ok(())
}
