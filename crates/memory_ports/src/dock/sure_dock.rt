//! A listener in memory with reserved capacity for what each session is sent; I/O calls never allocate.
ghost use Rattle.std.specs.Prelude.{ℕ, ◌≡◌, ◌≤◌, ◌<◌, [], length, if◌then◌else◌, All, Ok, Some, IfOk, option_map};
ghost use Rattle.outer_ports.specs.Latest.{never, once_more};
ghost use Rattle.outer_ports.specs.dock.Steps.{BringsSome, opens_session};
ghost use Rattle.memory_ports.specs.dock.Transcripts.{sent_by, room_by};
ghost use Rattle.outer_ports.specs.dock.Docks.{Listens, Takes, Sends, EndsSession};
ghost use Rattle.memory_ports.specs.dock.Forms.{HasRooms, SureTakes, SureSends, SureEnds, listening_at};

use super::arrivals::{Arrivals, most_calls_of};
use super::transcripts::Transcripts;
use crate::reserved::add;
use fugue_ids::{Failed, NoMemory};
use outer_ports::{Dock, DockStep, Latest, Listening, MemStep, raise};
use std::alloc::{AllocError, Global};
use std::marker::Model;

/// Gives steps from memory and keeps what is sent, as much in each call as its piece allows, in room that was reserved.
/// A call takes no memory, and fails only where no room and no step is left.
#[derive(Drop)]
pub struct SureDock {
    listens: Latest<Listening>,
    arrivals: Arrivals,
    transcripts: Transcripts,
    ended: Vec<u32>,
    /// How many bytes each of these had been sent as it was ended.
    ended_at: Vec<usize>,
    ends: usize,
    piece: usize,
    faults: u64,
}

impl Model for SureDock {
    ghost use Rattle.std.specs.Prelude.{◌≤◌, ◌+◌, vec_len, vec_capacity};
    ghost use Rattle.outer_ports.specs.dock.Steps.{calls_for_all};
    ghost use Rattle.memory_ports.specs.dock.Forms.{SureDockView};

    ghost Value = { SureDockView };

    ghost view = { λ d. record {
      listens = d.listens;
      taken = d.arrivals.taken;
      coming = d.arrivals.coming;
      transcripts = d.transcripts;
      ended = d.ended.items;
      ended_at = d.ended_at.items;
      piece = d.piece;
      ends = d.ends;
      faults = d.faults;
    } };

    ghost invariant = { λ d. (1 ≤ d.piece)
        × (calls_for_all d.arrivals.coming ≤ d.arrivals.ready)
        × (vec_len d.ended + d.ends ≤ vec_capacity d.ended)
        × (vec_len d.ended_at + d.ends ≤ vec_capacity d.ended_at) };
}

impl SureDock {
    /// A call gives or takes at most `piece` bytes. Each session that a step opens has room for `room` bytes, and as
    /// many sessions can be ended as there are steps.
    pub fn new(
        alloc: Global,
        steps: Vec<MemStep>,
        piece: usize,
        room: usize,
    ) -> Result<SureDock, NoMemory>
        requires piece { 1 ≤ piece }
        requires steps { All BringsSome steps.items }
        ensures made { IfOk result (λ d. d ≡ record {
          listens = never;
          taken = [];
          coming = steps.items;
          transcripts = d.transcripts;
          ended = [];
          ended_at = [];
          piece = piece;
          ends = length steps.items;
          faults = 0;
        }) }
        ensures sent { IfOk result (λ d. (s : ℕ) → (⟦<SureDock as Dock>⟧.seen d).sent s ≡ Some []) }
        ensures room { IfOk result (λ d. (s : ℕ) → (⟦<SureDock as Dock>⟧.seen d).room s
            ≡ Some (if opens_session steps.items s then room else 0)) }
    {
        let transcripts = rooms(alloc, &steps, room)?;
        let ends = steps.len();
        let ended = Vec::with_capacity(alloc, ends)?;
        let ended_at = Vec::with_capacity(alloc, ends)?;
        let Some(calls) = most_calls_of(&steps) else {
            return Err(NoMemory);
        };
        let mut arrivals = Arrivals::new(alloc, steps);
        arrivals.prepare(calls)?;
        Ok(SureDock {
            listens: Latest::none(),
            arrivals,
            transcripts,
            ended,
            ended_at,
            ends,
            piece,
            faults: 0,
        })
    }

    /// How often it listened, and the last time.
    pub fn listens(&self) -> Latest<Listening>
        ensures { result ≡ self.now.listens }
    {
        self.listens
    }

    /// The port last listened on.
    pub fn port(&self) -> Option<u16>
        ensures { result ≡ option_map (λ l. l.port) self.now.listens.last }
    {
        self.listens.last.map(|l| l.port)
    }

    /// All that was sent to the session: nothing to one that was sent nothing.
    pub fn sent(&self, session: u32) -> &[u8]
        ensures { result.now ≡ sent_by self.now.transcripts session }
    {
        self.transcripts.sent(session)
    }

    /// The sessions that were ended, in order.
    pub fn ended(&self) -> &[u32]
        ensures { result.now ≡ self.now.ended }
    {
        &self.ended
    }
}

/// Room for so many bytes for each session that one of the steps opens.
fn rooms(alloc: Global, steps: &[MemStep], room: usize) -> Result<Transcripts, AllocError>
    ensures { IfOk result (λ transcripts. HasRooms steps.now room transcripts) }
{
    let mut transcripts = Transcripts::new(alloc);
    for step in steps {
        if let MemStep::Opened(session) = step {
            transcripts.prepare(alloc, *session, room)?;
        }
    }
    Ok(transcripts)
}

impl Dock for SureDock {
    ghost seen = { λ d. record {
      listens = Some d.listens;
      coming = Some d.coming;
      taken = Some d.taken;
      sent = λ s. Some (sent_by d.transcripts s);
      room = λ s. Some (room_by d.transcripts s);
      ends = Some d.ends;
      ended = Some d.ended;
      ended_at = Some d.ended_at;
      faults = d.faults;
    } };

    fn listen(&mut self, port: u16) -> Result<(), Failed>
        ensures listens { Listens (⟦<SureDock as Dock>⟧.seen self.old)
            (⟦<SureDock as Dock>⟧.seen self.new) result port }
        ensures form { self.new
            ≡ record self.old { listens = once_more (listening_at port self.old.taken) self.old.listens } }
    {
        self.listens.add(Listening {
            port,
            taken: Some(self.arrivals.count()),
        });
        Ok(())
    }

    fn next(&mut self, buf: &mut [u8]) -> Result<DockStep, Failed>
        requires room { 0 < length buf.old }
        ensures takes { Takes (⟦<SureDock as Dock>⟧.seen self.old) (⟦<SureDock as Dock>⟧.seen self.new)
            result buf.new }
        ensures form { SureTakes self.old self.new result buf.new }
    {
        if self.arrivals.is_over() {
            raise(&mut self.faults);
            return Err(Failed);
        }
        Ok(self.arrivals.take(self.piece.min(buf.len()), buf))
    }

    fn send(&mut self, session: u32, piece: &[u8]) -> Result<usize, Failed>
        ensures sends { Sends (⟦<SureDock as Dock>⟧.seen self.old) (⟦<SureDock as Dock>⟧.seen self.new)
            result session piece.now }
        ensures form { SureSends self.old self.new result session piece.now }
    {
        let room = self.transcripts.room(session);
        if room == 0 && !piece.is_empty() {
            raise(&mut self.faults);
            return Err(Failed);
        }
        let count = self.piece.min(piece.len()).min(room);
        self.transcripts.append(session, &piece[..count]);
        Ok(count)
    }

    fn end(&mut self, session: u32) -> Result<(), Failed>
        ensures ends { EndsSession (⟦<SureDock as Dock>⟧.seen self.old) (⟦<SureDock as Dock>⟧.seen self.new) result session }
        ensures form { SureEnds self.old self.new result session }
    {
        if self.ends == 0 {
            raise(&mut self.faults);
            return Err(Failed);
        }
        add(&mut self.ended, session);
        add(&mut self.ended_at, self.transcripts.sent(session).len());
        self.ends -= 1;
        Ok(())
    }
}
