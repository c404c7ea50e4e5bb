//! The open sessions by number, each with how far its request has been parsed.
ghost use Rattle.std.specs.FinMap as finite;
ghost use Rattle.std.specs.Prelude.{◌≡◌, true, OnErr, OnOk, option_map};
ghost use Rattle.origin_model.specs.relay.Relay.{session_opened};
ghost use Rattle.relay_core.specs.Sessions.{reading_of, sessions_in, session_kept};
ghost use Rattle.origin_model.specs.relay.Session.{unread};

use crate::greeting::Greeting;
use crate::partial_frame::PartialFrame;
use fugue_ids::NoMemory;
use std::collections::BTreeMap;

/// How far the text of an open session was read. It takes no memory of its own.
#[derive(Drop)]
pub(crate) enum Session {
    /// These bytes of the greeting came.
    Greeting(Greeting),
    /// After the greeting: its cursor, and the bytes since the last whole message.
    Messages(u32, PartialFrame),
}

impl Session {
    /// Nothing came yet.
    pub(crate) fn new() -> Session
        ensures { reading_of result ≡ unread }
    {
        Session::Greeting(Greeting::new())
    }

    pub(crate) fn copied(&self) -> Session
        ensures { reading_of result ≡ reading_of self.now }
    {
        match self {
            Session::Greeting(greeting) => Session::Greeting(greeting.copied()),
            Session::Messages(cursor, front) => Session::Messages(*cursor, front.copied()),
        }
    }
}

/// The open sessions.
pub(crate) type Sessions = BTreeMap<u32, Session>;

/// One session more, of whose text nothing came; an open one stays as it is. After an allocation failure all are as
/// before.
pub(crate) fn open(sessions: &mut Sessions, n: u32) -> Result<(), NoMemory>
    ensures ok { OnOk result (sessions_in sessions.new ≡ session_opened n (sessions_in sessions.old)) }
    ensures err { OnErr result (sessions_in sessions.new ≡ sessions_in sessions.old) }
{
    if sessions.contains_key(&n) {
        return Ok(());
    }
    let Ok(_) = sessions.insert(n, Session::new()) else {
        return Err(NoMemory);
    };
    Ok(())
}

/// One session less.
pub(crate) fn close(sessions: &mut Sessions, n: u32)
    ensures { sessions_in sessions.new ≡ finite.remove (sessions_in sessions.old) n }
{
    sessions.remove(&n);
}

/// A session with another value.
fn replace(sessions: &mut Sessions, n: u32, session: Session)
    requires { finite.contains_key (sessions_in sessions.old) n ≡ true }
    ensures { sessions_in sessions.new ≡ finite.insert (sessions_in sessions.old) n (reading_of session) }
{
    if let Some(place) = sessions.get_mut(&n) {
        *place = session;
    }
}

/// What becomes of an open session: it goes on, or is closed.
pub(crate) fn keep_or_close(sessions: &mut Sessions, n: u32, kept: Option<Session>)
    requires { finite.contains_key (sessions_in sessions.old) n ≡ true }
    ensures { sessions_in sessions.new ≡ session_kept n (sessions_in sessions.old) kept }
{
    match kept {
        Some(session) => replace(sessions, n, session),
        None => close(sessions, n),
    }
}

/// A copy of an open session.
pub(crate) fn copy_of(sessions: &Sessions, n: u32) -> Option<Session>
    ensures { option_map reading_of result ≡ finite.get (sessions_in sessions.now) n }
{
    let session = sessions.get(&n)?;
    Some(session.copied())
}
