//! The bytes of a session's request parsed one by one: greeting, frames, and the closing byte.
ghost use Rattle.std.specs.Prelude.{◌≡◌, ◌≢◌, ◌≤◌, ◌<◌, ◌^◌, ◌++◌, ◌∷◌, [], IfOk, List, OnErr, Some, false, length};
ghost use Rattle.std.specs.Prelude.{true, ℕ};
ghost use Rattle.origin_model.specs.relay.Session.{Goes, TakesAll, TakesByte, TakesOne, at_cursor, closing};
ghost use Rattle.relay_core.specs.Logs.{LogGrows, frames_in};
ghost use Rattle.relay_core.specs.Sessions.{becomes, reading_of};

use crate::greeting::Greeted;
use crate::joining::{refuse, take_frame};
use crate::log::{Log, answer};
use crate::partial_frame::PartialFrame;
use crate::sessions::Session;
use fugue_ids::{ByteList, NoMemory};
use op_frame::{CLOSING, Grown};
use std::alloc::Global;
use std::hash::BuildHasher;

/// A session whose greeting is whole, where the log has so many operations.
fn begin(
    alloc: Global,
    count: usize,
    session: &mut Session,
    cursor: u32,
) -> Result<Option<ByteList>, NoMemory>
    ensures { IfOk result (λ reply. (log : List (List ℕ)) → length log ≡ count
        → at_cursor log cursor ≡ record { log = log; next = becomes reply (reading_of session.new) }) }
{
    if count < cursor as usize {
        return refuse(alloc, 3);
    }
    *session = Session::Messages(cursor, PartialFrame::new());
    Ok(None)
}

/// Whether the byte ends the text: it does so in the place of a message.
fn is_closing(front: &[u8], byte: u8) -> bool
    ensures yes { result ≡ true → front.now ++ byte ∷ [] ≡ closing }
    ensures no { result ≡ false → front.now ++ byte ∷ [] ≢ closing }
{
    front.is_empty() && byte == CLOSING
}

/// One byte more after the greeting.
fn take_message<B: BuildHasher>(
    alloc: Global,
    limit: u32,
    log: &mut Log<B>,
    cursor: u32,
    front: &mut PartialFrame,
    byte: u8,
) -> Result<Option<ByteList>, NoMemory>
    requires room { length (frames_in log.old) ≤ limit }
    requires small { limit < 2 ^ 32 }
    ensures ok { IfOk result (λ reply. TakesByte limit (frames_in log.old) (Some cursor) (front.old ++ byte ∷ [])
        (record {
          log = frames_in log.new;
          next = becomes reply (record { cursor = Some cursor; rest = front.new });
        })) }
    ensures grows { LogGrows (frames_in log.old) (frames_in log.new) }
    ensures within { length (frames_in log.new) ≤ limit }
{
    if is_closing(front.as_slice(), byte) {
        return Ok(Some(answer(alloc, log, cursor)?));
    }
    match front.push(byte) {
        Grown::Front => Ok(None),
        Grown::Bad => refuse(alloc, 1),
        Grown::Frame => {
            let reply = take_frame(alloc, limit, log, front.as_slice())?;
            front.clear();
            Ok(reply)
        }
    }
}

/// One byte more of a session's text, and the reply where it closes the session.
fn take_byte<B: BuildHasher>(
    alloc: Global,
    limit: u32,
    log: &mut Log<B>,
    session: &mut Session,
    byte: u8,
) -> Result<Option<ByteList>, NoMemory>
    requires room { length (frames_in log.old) ≤ limit }
    requires small { limit < 2 ^ 32 }
    ensures ok { IfOk result (λ reply. TakesOne limit byte (frames_in log.old) (Goes (reading_of session.old))
        (record { log = frames_in log.new; next = becomes reply (reading_of session.new) })) }
    ensures grows { LogGrows (frames_in log.old) (frames_in log.new) }
    ensures within { length (frames_in log.new) ≤ limit }
{
    match session {
        Session::Messages(cursor, front) => take_message(alloc, limit, log, *cursor, front, byte),
        Session::Greeting(greeting) => match greeting.push(byte) {
            Greeted::Partly => Ok(None),
            Greeted::Bad => refuse(alloc, 1),
            Greeted::Cursor(cursor) => begin(alloc, log.len(), session, cursor),
        },
    }
}

/// The bytes of a piece, one after another, up to the one that closes the session. After an allocation failure the log
/// may have some of the operations that came.
pub(crate) fn take_all<B: BuildHasher>(
    alloc: Global,
    limit: u32,
    log: &mut Log<B>,
    session: &mut Session,
    piece: &[u8],
) -> Result<Option<ByteList>, NoMemory>
    requires room { length (frames_in log.old) ≤ limit }
    requires small { limit < 2 ^ 32 }
    ensures ok { IfOk result (λ reply. TakesAll limit piece.now
        (record { log = frames_in log.old; next = Goes (reading_of session.old) })
        (record { log = frames_in log.new; next = becomes reply (reading_of session.new) })) }
    ensures grows { LogGrows (frames_in log.old) (frames_in log.new) }
    ensures within { length (frames_in log.new) ≤ limit }
{
    for byte in piece {
        let reply = take_byte(alloc, limit, log, session, *byte)?;
        if reply.is_some() {
            return Ok(reply);
        }
    }
    Ok(None)
}
