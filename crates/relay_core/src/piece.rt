//! A piece of a session's request applied to the log and the sessions, or undone if memory runs out.
ghost use Rattle.std.specs.Prelude.{◌≡◌, ◌≤◌, ◌<◌, ◌^◌, IfOk, OnErr, length, Option as Maybe};
ghost use Rattle.std.specs.FinMap as finite;
ghost use Rattle.origin_model.specs.declared.relay.Reply.{Reply as AnyReply};
ghost use Rattle.origin_model.specs.relay.Relay.{StepsPiece};
ghost use Rattle.origin_model.specs.relay.Session.{Goes, Taken, TakesAll};
ghost use Rattle.relay_core.specs.Logs.{LogGrows, frames_in};
ghost use Rattle.relay_core.specs.Sessions.{SessionBecomes, becomes, reply_list, reading_of, sessions_in};

use crate::log::Log;
use crate::sessions::{Session, Sessions, copy_of, keep_or_close};
use crate::taking::take_all;
use fugue_ids::{ByteList, NoMemory};
use origin_model::Reply;
use std::alloc::Global;
use std::hash::BuildHasher;

/// Whether the session is kept, and the replies.
fn comes_to(
    alloc: Global,
    n: u32,
    session: Session,
    reply: Option<ByteList>,
) -> Result<(Option<Session>, Vec<Reply>), NoMemory>
    ensures { IfOk result (λ r. SessionBecomes n (becomes reply (reading_of session)) r.0 r.1.items) }
{
    let mut replies = Vec::new(alloc);
    let Some(bytes) = reply else {
        return Ok((Some(session), replies));
    };
    replies.push(Reply {
        session: n,
        bytes,
        closes: true,
    })?;
    Ok((None, replies))
}

/// What a piece of an open session comes to. After an allocation failure the log may have some of the operations that
/// came.
fn take<B: BuildHasher>(
    alloc: Global,
    limit: u32,
    log: &mut Log<B>,
    n: u32,
    mut session: Session,
    piece: &[u8],
) -> Result<(Option<Session>, Vec<Reply>), NoMemory>
    requires room { length (frames_in log.old) ≤ limit }
    requires small { limit < 2 ^ 32 }
    ensures ok { IfOk result (λ r. (after : Taken)
        × TakesAll limit piece.now (record { log = frames_in log.old; next = Goes (reading_of session) }) after
        × (frames_in log.new ≡ after.log) × SessionBecomes n after.next r.0 r.1.items) }
    ensures grows { LogGrows (frames_in log.old) (frames_in log.new) }
    ensures within { length (frames_in log.new) ≤ limit }
{
    let reply = take_all(alloc, limit, log, &mut session, piece)?;
    comes_to(alloc, n, session, reply)
}

/// A piece of a session. After an allocation failure the log and the sessions are as before.
pub(crate) fn take_piece<B: BuildHasher>(
    alloc: Global,
    limit: u32,
    log: &mut Log<B>,
    sessions: &mut Sessions,
    n: u32,
    piece: &[u8],
) -> Result<Vec<Reply>, NoMemory>
    requires room { length (frames_in log.old) ≤ limit }
    requires small { limit < 2 ^ 32 }
    ensures ok { IfOk result (λ replies. (reply : Maybe AnyReply) × (replies.items ≡ reply_list reply)
        × StepsPiece (record { limit = limit; log = frames_in log.old; sessions = sessions_in sessions.old }) n
        (finite.get (sessions_in sessions.old) n) piece.now
        (record { limit = limit; log = frames_in log.new; sessions = sessions_in sessions.new }) reply) }
    ensures err { OnErr result
        ((frames_in log.new ≡ frames_in log.old) × (sessions_in sessions.new ≡ sessions_in sessions.old)) }
    ensures within { length (frames_in log.new) ≤ limit }
{
    let Some(session) = copy_of(sessions, n) else {
        return Ok(Vec::new(alloc));
    };
    let count = log.len();
    match take(alloc, limit, log, n, session, piece) {
        Ok((kept, replies)) => {
            keep_or_close(sessions, n, kept);
            Ok(replies)
        }
        Err(_) => {
            log.truncate(count);
            Err(NoMemory)
        }
    }
}
