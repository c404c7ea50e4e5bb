//! The relay as a state machine: its log and open sessions, changed by one event at a time.
ghost use Rattle.std.specs.Prelude.{◌≡◌, ◌<◌, ◌≤◌, ◌∷◌, ◌++◌, [], length, List, IfErr, IfOk, OnErr, OnOk};
ghost use Rattle.origin_model.specs.declared.relay.Event.{Event as AnyEvent};
ghost use Rattle.origin_model.specs.relay.Relay.{IsRelayState, new_relay};
ghost use Rattle.relay_core.specs.Relays.{Stepped};

use crate::log::Log;
use crate::piece::take_piece;
use crate::sessions::{Sessions, close, open};
use indexmap::IndexSet;
use origin_model::{Event, Reply};
use std::alloc::Global;
use std::collections::BTreeMap;
use std::hash::BuildHasher;
use std::marker::Model;

/// An allocation failure, with the event handed back.
#[derive(Debug, Drop)]
pub struct NoMemoryFor {
    pub event: Event,
}

/// The most operations that a log may be asked to take.
pub const MOST_LOGGED: u32 = 1_048_576;

/// The operations that came, and the open sessions.
///
/// A session costs no memory beyond that of one frame.
#[derive(Drop)]
pub struct Relay<B: BuildHasher> {
    alloc: Global,
    limit: u32,
    log: Log<B>,
    sessions: Sessions,
}

impl<B: BuildHasher> Model for Relay<B> {
    ghost use Rattle.std.specs.Prelude.{◌≤◌, length};
    ghost use Rattle.origin_model.specs.relay.Relay.{Relay};
    ghost use Rattle.relay_core.specs.Logs.{frames_in};
    ghost use Rattle.relay_core.specs.Relays.{coded_relay};
    ghost use Rattle.relay_core.specs.Sessions.{sessions_in};

    ghost Value = { Relay };

    ghost coded = { coded_relay };

    ghost view = { λ r. record { limit = r.limit; log = frames_in r.log; sessions = sessions_in r.sessions } };

    ghost invariant = { λ r. (length (frames_in r.log) ≤ r.limit) × (r.limit ≤ 1048576) };
}

impl<B: BuildHasher> Relay<B> {
    /// A relay to which nothing happened. It takes no memory.
    pub fn new(alloc: Global, hasher: B, limit: u32) -> Relay<B>
        requires some { 0 < limit }
        requires most { limit ≤ MOST_LOGGED }
        ensures new { result ≡ new_relay limit }
        ensures state { IsRelayState limit [] result }
    {
        Relay {
            alloc,
            limit,
            log: IndexSet::with_hasher(alloc, hasher),
            sessions: BTreeMap::new(alloc),
        }
    }

    /// How many operations the log has.
    pub fn log_len(&self) -> u32
        ensures { result ≡ length self.now.log }
    {
        self.log.len() as u32
    }

    /// What the event does, and the reply to it. After an allocation failure the relay is unchanged, and the event
    /// comes back.
    pub fn step(&mut self, event: Event) -> Result<Vec<Reply>, NoMemoryFor>
        ensures ok { IfOk result (λ replies. Stepped self.old event self.new replies.items) }
        ensures state { OnOk result
            ((events : List AnyEvent) → IsRelayState self.old.limit events self.old
            → IsRelayState self.old.limit (events ++ event ∷ []) self.new) }
        ensures unchanged { OnErr result (self.new ≡ self.old) }
        ensures back { IfErr result (λ fault. fault.event ≡ event) }
    {
        match self.advance(event) {
            Ok(replies) => Ok(replies),
            Err(fault) => Err(fault),
        }
    }

    /// The same, of one step alone.
    fn advance(&mut self, event: Event) -> Result<Vec<Reply>, NoMemoryFor>
        ensures ok { IfOk result (λ replies. Stepped self.old event self.new replies.items) }
        ensures unchanged { OnErr result (self.new ≡ self.old) }
        ensures back { IfErr result (λ fault. fault.event ≡ event) }
    {
        match event {
            Event::Opened(n) => match open(&mut self.sessions, n) {
                Ok(()) => Ok(Vec::new(self.alloc)),
                Err(_) => Err(NoMemoryFor {
                    event: Event::Opened(n),
                }),
            },
            Event::Piece(n, bytes) => match take_piece(
                self.alloc,
                self.limit,
                &mut self.log,
                &mut self.sessions,
                n,
                bytes.as_slice(),
            ) {
                Ok(replies) => Ok(replies),
                Err(_) => Err(NoMemoryFor {
                    event: Event::Piece(n, bytes),
                }),
            },
            Event::Gone(n) => {
                close(&mut self.sessions, n);
                Ok(Vec::new(self.alloc))
            }
        }
    }
}
