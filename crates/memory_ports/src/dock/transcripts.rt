//! What was sent to each session of a listener in memory, and how much more is sure to fit.
ghost use Rattle.std.specs.Prelude.{ℕ, ◌≡◌, ◌≢◌, ◌≤◌, ◌<◌, ◌-◌, ◌++◌, [], length, nat_eq, position, OnOk, OnErr, IfOk};
ghost use Rattle.memory_ports.specs.dock.Transcripts.{SameTranscripts, sent_by, room_by};

use crate::reserved::append;
use std::alloc::{AllocError, Global};
use std::marker::Model;

/// What was sent to a session.
#[derive(Drop)]
pub(super) struct Transcript {
    session: u32,
    bytes: Vec<u8>,
    room: usize,
}

impl Model for Transcript {
    ghost use Rattle.std.specs.Prelude.{◌≤◌, ◌+◌, vec_len, vec_capacity};
    ghost use Rattle.memory_ports.specs.dock.Transcripts.{TranscriptView};

    ghost Value = { TranscriptView };

    ghost view = { λ l. record { session = l.session; bytes = l.bytes.items; room = l.room } };

    ghost invariant = { λ l. vec_len l.bytes + l.room ≤ vec_capacity l.bytes };
}

impl Transcript {
    /// Nothing was sent, and so many bytes are sure to fit.
    pub(super) fn new(alloc: Global, session: u32, room: usize) -> Result<Transcript, AllocError>
        ensures { IfOk result (λ l. l ≡ record { session = session; bytes = []; room = room }) }
    {
        Ok(Transcript {
            session,
            bytes: Vec::with_capacity(alloc, room)?,
            room,
        })
    }

    pub(super) fn session(&self) -> u32
        ensures { result ≡ self.now.session }
    {
        self.session
    }

    pub(super) fn bytes(&self) -> &[u8]
        ensures { result.now ≡ self.now.bytes }
    {
        &self.bytes
    }

    pub(super) fn room(&self) -> usize
        ensures { result ≡ self.now.room }
    {
        self.room
    }

    /// Takes memory for so many further bytes.
    pub(super) fn prepare(&mut self, room: usize) -> Result<(), AllocError>
        ensures kept { self.new ≡ record self.old { room = self.new.room } }
        ensures ok { OnOk result (self.new.room ≡ room) }
        ensures err { OnErr result (self.new ≡ self.old) }
    {
        self.bytes.reserve(room)?;
        self.room = room;
        Ok(())
    }

    /// Sends bytes for which memory is there.
    pub(super) fn append(&mut self, bytes: &[u8])
        requires { length bytes.now ≤ self.old.room }
        ensures { self.new ≡ record self.old {
          bytes = self.old.bytes ++ bytes.now;
          room = self.old.room - length bytes.now;
        } }
    {
        append(&mut self.bytes, bytes);
        self.room -= bytes.len();
    }
}

/// What was sent to each session.
#[derive(Drop)]
pub(super) struct Transcripts {
    transcripts: Vec<Transcript>,
}

impl Model for Transcripts {
    ghost use Rattle.std.specs.Prelude.{List};
    ghost use Rattle.memory_ports.specs.dock.Transcripts.{TranscriptView};

    ghost Value = { List TranscriptView };

    ghost view = { λ l. l.transcripts.items };
}

impl Transcripts {
    pub(super) fn new(alloc: Global) -> Transcripts
        ensures { result ≡ [] }
    {
        Transcripts {
            transcripts: Vec::new(alloc),
        }
    }

    /// All that was sent to the session.
    pub(super) fn sent(&self, session: u32) -> &[u8]
        ensures { result.now ≡ sent_by self.now session }
    {
        match self.position_of(session) {
            Some(at) => self.transcripts[at].bytes(),
            None => &[],
        }
    }

    /// How many further bytes are sure to fit.
    pub(super) fn room(&self, session: u32) -> usize
        ensures { result ≡ room_by self.now session }
    {
        match self.position_of(session) {
            Some(at) => self.transcripts[at].room(),
            None => 0,
        }
    }

    /// Takes memory for so many further bytes.
    pub(super) fn prepare(
        &mut self,
        alloc: Global,
        session: u32,
        room: usize,
    ) -> Result<(), AllocError>
        ensures sent { (s : ℕ) → sent_by self.new s ≡ sent_by self.old s }
        ensures others { (s : ℕ) → s ≢ session → room_by self.new s ≡ room_by self.old s }
        ensures ok { OnOk result (room_by self.new session ≡ room) }
        ensures err { OnErr result (self.new ≡ self.old) }
    {
        if let Some(at) = self.position_of(session) {
            return self.transcripts[at].prepare(room);
        }
        let transcript = Transcript::new(alloc, session, room)?;
        self.transcripts.push(transcript)?;
        Ok(())
    }

    /// Takes memory for so many further bytes, where there is none.
    pub(super) fn ensure(
        &mut self,
        alloc: Global,
        session: u32,
        room: usize,
    ) -> Result<(), AllocError>
        ensures ok { OnOk result (room ≤ room_by self.new session) }
        ensures wanting { OnErr result (room_by self.old session < room) }
        ensures err { OnErr result (self.new ≡ self.old) }
        ensures others { (s : ℕ) → s ≢ session → room_by self.new s ≡ room_by self.old s }
        ensures sent { (s : ℕ) → sent_by self.new s ≡ sent_by self.old s }
    {
        if room <= self.room(session) {
            return Ok(());
        }
        self.prepare(alloc, session, room)
    }

    /// Sends bytes for which memory is there.
    pub(super) fn append(&mut self, session: u32, bytes: &[u8])
        requires { length bytes.now ≤ room_by self.old session }
        ensures sent { sent_by self.new session ≡ sent_by self.old session ++ bytes.now }
        ensures room { room_by self.new session ≡ room_by self.old session - length bytes.now }
        ensures others { (s : ℕ) → s ≢ session
            → (sent_by self.new s ≡ sent_by self.old s) × (room_by self.new s ≡ room_by self.old s) }
    {
        if let Some(at) = self.position_of(session) {
            self.transcripts[at].append(bytes);
        }
    }

    fn position_of(&self, session: u32) -> Option<usize>
        ensures { result ≡ position (λ transcript. nat_eq transcript.session session) self.now }
    {
        self.transcripts
            .iter()
            .position(|transcript| transcript.session() == session)
    }
}
