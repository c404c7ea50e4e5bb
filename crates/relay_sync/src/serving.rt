//! The relay's loop: a listener's events go to the relay, replies to sessions, until enough are finished.
ghost use Rattle.std.specs.Prelude.{◌≡◌, ◌≢◌, ◌<◌, ◌≤◌, ◌∷◌, [], Err, IfErr, List, OnOk, length, ℕ, Option as Maybe};
ghost use Rattle.std.specs.Prelude.{OnErr, IsErr, Some};
ghost use Rattle.fugue_ids.specs.Causes.{Faulted, HasCause};
ghost use Rattle.relay_core.specs.Sessions.{reply_list};
ghost use Rattle.origin_model.specs.declared.relay.Reply.{Reply as AnyReply};
ghost use Rattle.relay_sync.specs.Over.{IsOver, over_once};
ghost use Rattle.relay_sync.specs.Sending.{DockRisesFor, IsDockFault, Replied, RepliedPartly, SendsText};
ghost use Rattle.relay_sync.specs.Serving.{BlamesDock, NoneAfter, Serves, ServingStops, ServedStep, TurnStops, count_over};
ghost use Rattle.relay_sync.specs.Serving.{event_of as event_by, over_after, with_closed, with_gone, with_number};
ghost use Rattle.relay_sync.specs.declared.serving.ServeFault.TheVariants.{DockFault as AtDock};
ghost use Rattle.relay_sync.specs.declared.serving.ServeFault.TheVariants.{TooLong as TakesTooLong};

use crate::next_step::next_step;
use fugue_ids::{Failed, NoMemory};
use outer_ports::{Dock, MemStep};
use relay_core::{Event, Relay, Reply};
use std::alloc::Global;
use std::collections::BTreeSet;
use std::hash::BuildHasher;

/// Why a relay served no further.
#[derive(Clone, Copy, Debug, PartialEq, Eq)]
pub enum ServeFault {
    /// A call on the dock failed.
    DockFault,
    /// All steps that were allowed were taken, and fewer sessions are over than were to be served.
    TooLong,
    NoMemory,
}

/// Gives the dock's steps to the relay and sends its replies, until so many sessions are closed or gone; a number
/// counts once.
///
/// After a fault the relay stands after a front of the steps. Once all steps that are allowed were taken and served,
/// and fewer sessions are over, the answer of a dock that lasts is `TooLong`, but for lack of memory.
pub fn serve<B: BuildHasher, D: Dock>(
    alloc: Global,
    relay: &mut Relay<B>,
    dock: &mut D,
    sessions: u32,
    steps: u64,
) -> Result<(), ServeFault>
    ensures ok { OnOk result ((turns : List ServedStep) × Serves relay.old relay.new (D.seen dock.old) (D.seen dock.new) turns
        × (sessions ≤ count_over turns) × NoneAfter sessions turns × (length turns ≤ steps)) }
    ensures too_long { result ≡ Err TakesTooLong → (turns : List ServedStep)
        × Serves relay.old relay.new (D.seen dock.old) (D.seen dock.new) turns
        × (count_over turns < sessions) × NoneAfter sessions turns × (length turns ≡ steps) }
    ensures partly { IfErr result
        (λ fault. ServingStops sessions steps fault relay.old relay.new (D.seen dock.old) (D.seen dock.new)) }
    ensures dock_fault { result ≡ Err AtDock → Faulted (D.seen dock.old).faults (D.seen dock.new).faults }
    ensures reported { DockRisesFor (IsDockFault result) (D.seen dock.old) (D.seen dock.new) }
    ensures dock { BlamesDock sessions relay.old (D.seen dock.old) (D.seen dock.new) result }
{
    let mut over = BTreeSet::new(alloc);
    let mut left = steps;
    'steps: while over.len() < sessions as usize {
        if left == 0 {
            return Err(ServeFault::TooLong);
        }
        left -= 1;
        serve_step(alloc, relay, dock, &mut over)?;
    }
    Ok(())
}

/// One step of the dock, and the reply to it.
fn serve_step<B: BuildHasher, D: Dock>(
    alloc: Global,
    relay: &mut Relay<B>,
    dock: &mut D,
    over: &mut BTreeSet<u32>,
) -> Result<(), ServeFault>
    ensures ok { OnOk result ((turn : ServedStep) × Serves relay.old relay.new (D.seen dock.old) (D.seen dock.new) (turn ∷ [])
        × ((sessions : List ℕ) → IsOver over.old sessions → IsOver over.new (over_after sessions (turn ∷ [])))) }
    ensures partly { IfErr result (λ fault. TurnStops fault relay.old relay.new (D.seen dock.old) (D.seen dock.new)) }
    ensures dock_fault { result ≡ Err AtDock → Faulted (D.seen dock.old).faults (D.seen dock.new).faults }
    ensures reported { DockRisesFor (IsDockFault result) (D.seen dock.old) (D.seen dock.new) }
    ensures not_long { result ≢ Err TakesTooLong }
{
    let step = next_step(alloc, dock)?;
    let gone = gone_by(&step);
    let Ok(replies) = relay.step(event_of(step)) else {
        return Err(ServeFault::NoMemory);
    };
    answer(dock, over, &replies)?;
    let Ok(()) = note_gone(over, gone) else {
        return Err(ServeFault::NoMemory);
    };
    Ok(())
}

/// Sends the reply, where there is one, and notes that its session is over.
fn answer<D: Dock>(
    dock: &mut D,
    over: &mut BTreeSet<u32>,
    replies: &[Reply],
) -> Result<(), ServeFault>
    ensures ok { (reply : Maybe AnyReply) → replies.now ≡ reply_list reply
        → OnOk result (Replied (D.seen dock.old) (D.seen dock.new) reply
        × ((sessions : List ℕ) → IsOver over.old sessions → IsOver over.new (with_closed sessions reply))) }
    ensures partly { (reply : Maybe AnyReply) → replies.now ≡ reply_list reply
        → IfErr result (λ fault. RepliedPartly fault (D.seen dock.old) (D.seen dock.new) reply) }
    ensures dock_fault { result ≡ Err AtDock → Faulted (D.seen dock.old).faults (D.seen dock.new).faults }
    ensures reported { DockRisesFor (IsDockFault result) (D.seen dock.old) (D.seen dock.new) }
    ensures not_long { result ≢ Err TakesTooLong }
{
    let [reply] = replies else {
        return Ok(());
    };
    let Ok(()) = send_reply(dock, reply) else {
        return Err(ServeFault::DockFault);
    };
    if reply.closes {
        let Ok(()) = note(over, reply.session) else {
            return Err(ServeFault::NoMemory);
        };
    }
    Ok(())
}

/// The session that the step says is gone.
fn gone_by(step: &MemStep) -> Option<u32>
    ensures { (sessions : List ℕ) → with_gone sessions step.now ≡ with_number sessions result }
{
    match step {
        MemStep::Gone(session) => Some(*session),
        MemStep::Opened(_) | MemStep::Bytes(..) => None,
    }
}

fn event_of(step: MemStep) -> Event
    ensures { result ≡ event_by step }
{
    match step {
        MemStep::Opened(session) => Event::Opened(session),
        MemStep::Bytes(session, bytes) => Event::Piece(session, bytes),
        MemStep::Gone(session) => Event::Gone(session),
    }
}

/// Notes that the session is over. Its number counts once.
pub(crate) fn note(over: &mut BTreeSet<u32>, session: u32) -> Result<(), NoMemory>
    ensures { OnOk result ((sessions : List ℕ) → IsOver over.old sessions
        → IsOver over.new (over_once sessions session)) }
{
    over.insert(session)?;
    Ok(())
}

/// Notes that the session that is gone, where there is one, is over.
pub(crate) fn note_gone(over: &mut BTreeSet<u32>, gone: Option<u32>) -> Result<(), NoMemory>
    ensures { OnOk result ((sessions : List ℕ) → IsOver over.old sessions
        → IsOver over.new (with_number sessions gone)) }
{
    match gone {
        Some(session) => note(over, session),
        None => Ok(()),
    }
}

/// Sends the reply whole, and ends its session where it closes it.
pub(crate) fn send_reply<D: Dock>(dock: &mut D, reply: &Reply) -> Result<(), Failed>
    ensures ok { OnOk result (Replied (D.seen dock.old) (D.seen dock.new) (Some reply.now)) }
    ensures err { OnErr result (RepliedPartly AtDock (D.seen dock.old) (D.seen dock.new) (Some reply.now)) }
    ensures reported { DockRisesFor (IsErr result) (D.seen dock.old) (D.seen dock.new) }
    ensures cause { HasCause (D.seen dock.old).faults (D.seen dock.new).faults result }
{
    send_whole(dock, reply.session, reply.bytes.as_slice())?;
    if reply.closes {
        dock.end(reply.session)?;
    }
    Ok(())
}

/// Sends the whole piece to the session, or fails with a front of it sent.
fn send_whole<D: Dock>(dock: &mut D, session: u32, piece: &[u8]) -> Result<(), Failed>
    ensures { SendsText (D.seen dock.old) (D.seen dock.new) result session piece.now }
{
    let mut at = 0;
    while at < piece.len() {
        at += dock.send(session, &piece[at..])?;
    }
    Ok(())
}
