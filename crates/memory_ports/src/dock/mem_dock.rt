//! A listener in memory that delivers predefined events, keeps what is sent, and fails at listed calls.
ghost use Rattle.std.specs.Prelude.{◌≡◌, ◌≤◌, ◌<◌, [], length, All, Some, None, option_map};
ghost use Rattle.outer_ports.specs.Latest.{never};
ghost use Rattle.outer_ports.specs.dock.Steps.{BringsSome};
ghost use Rattle.memory_ports.specs.dock.Transcripts.{sent_by};
ghost use Rattle.outer_ports.specs.dock.Docks.{Listens, Takes, Sends, EndsSession};
ghost use Rattle.memory_ports.specs.dock.Forms.{MemListens, MemTakes, MemSends, MemEnds};

use super::arrivals::Arrivals;
use super::transcripts::Transcripts;
use crate::reserved::{add, reserve_both};
use fugue_ids::Failed;
use outer_ports::{Calls, Dock, DockStep, Latest, Listening, MemStep};
use std::alloc::Global;
use std::marker::Model;

/// Gives steps from memory and keeps what is sent, at most `piece` bytes in each call. A call fails if it is listed, if
/// no step is left, or if memory runs out.
#[derive(Drop)]
pub struct MemDock {
    alloc: Global,
    listens: Latest<Listening>,
    arrivals: Arrivals,
    transcripts: Transcripts,
    ended: Vec<u32>,
    /// How many bytes each of these had been sent when it was ended.
    ended_at: Vec<usize>,
    piece: usize,
    calls: Calls,
}

impl Model for MemDock {
    ghost use Rattle.std.specs.Prelude.{◌≤◌, ◌-◌, min, vec_len, vec_capacity};
    ghost use Rattle.memory_ports.specs.dock.Forms.{MemDockView};

    ghost Value = { MemDockView };

    ghost view = { λ d. record {
      listens = d.listens;
      taken = d.arrivals.taken;
      coming = d.arrivals.coming;
      spare_steps = d.arrivals.spare;
      transcripts = d.transcripts;
      ended = d.ended.items;
      ended_at = d.ended_at.items;
      spare_ends = min (vec_capacity d.ended - vec_len d.ended) (vec_capacity d.ended_at - vec_len d.ended_at);
      piece = d.piece;
      calls = d.calls;
    } };

    ghost invariant = { λ d. 1 ≤ d.piece };
}

impl MemDock {
    /// A call gives or takes at most `piece` bytes. The calls listed in `fail`, counted from 0, fail.
    pub fn new(alloc: Global, steps: Vec<MemStep>, piece: usize, fail: Vec<u32>) -> MemDock
        requires piece { 1 ≤ piece }
        requires steps { All BringsSome steps.items }
        ensures seen { ⟦<MemDock as Dock>⟧.seen result ≡ record {
          listens = Some never;
          taken = Some [];
          coming = Some steps.items;
          sent = λ s. Some [];
          ended = Some [];
          ended_at = Some [];
          faults = 0;
          room = λ s. None;
          ends = None;
        } }
        ensures piece { result.piece ≡ piece }
        ensures calls { result.calls ≡ record { made = 0; listed = fail.items; faults = 0 } }
    {
        MemDock {
            alloc,
            listens: Latest::none(),
            arrivals: Arrivals::new(alloc, steps),
            transcripts: Transcripts::new(alloc),
            ended: Vec::new(alloc),
            ended_at: Vec::new(alloc),
            piece,
            calls: Calls::new(fail),
        }
    }

    /// All that was sent to the session; it is empty for one that is not known.
    pub fn sent(&self, session: u32) -> &[u8]
        ensures { result.now ≡ sent_by self.now.transcripts session }
    {
        self.transcripts.sent(session)
    }

    /// How often it listened, and the last time.
    pub fn listens(&self) -> Latest<Listening>
        ensures { result ≡ self.now.listens }
    {
        self.listens
    }

    /// The port last listened on.
    pub fn port(&self) -> Option<u16>
        ensures { result ≡ option_map (λ l. l.port) self.now.listens.last }
    {
        self.listens.last.map(|l| l.port)
    }

    /// The sessions that were ended, in order.
    pub fn ended(&self) -> &[u32]
        ensures { result.now ≡ self.now.ended }
    {
        &self.ended
    }
}

impl Dock for MemDock {
    ghost seen = { λ d. record {
      listens = Some d.listens;
      taken = Some d.taken;
      coming = Some d.coming;
      sent = λ s. Some (sent_by d.transcripts s);
      ended = Some d.ended;
      ended_at = Some d.ended_at;
      faults = d.calls.faults;
      room = λ s. None;
      ends = None;
    } };

    fn listen(&mut self, port: u16) -> Result<(), Failed>
        ensures listens { Listens (⟦<MemDock as Dock>⟧.seen self.old) (⟦<MemDock as Dock>⟧.seen self.new) result port }
        ensures form { MemListens self.old self.new result port }
    {
        self.calls.begin()?;
        self.listens.add(Listening {
            port,
            taken: Some(self.arrivals.count()),
        });
        Ok(())
    }

    fn next(&mut self, buf: &mut [u8]) -> Result<DockStep, Failed>
        requires room { 0 < length buf.old }
        ensures takes { Takes (⟦<MemDock as Dock>⟧.seen self.old) (⟦<MemDock as Dock>⟧.seen self.new)
            result buf.new }
        ensures form { MemTakes self.old self.new result buf.new }
    {
        self.calls.begin()?;
        match self.arrivals.take_if_able(self.piece.min(buf.len()), buf) {
            Some(step) => Ok(step),
            None => Err(self.calls.fail()),
        }
    }

    fn send(&mut self, session: u32, piece: &[u8]) -> Result<usize, Failed>
        ensures sends { Sends (⟦<MemDock as Dock>⟧.seen self.old) (⟦<MemDock as Dock>⟧.seen self.new)
            result session piece.now }
        ensures form { MemSends self.old self.new result session piece.now }
    {
        self.calls.begin()?;
        let count = self.piece.min(piece.len());
        if self.transcripts.ensure(self.alloc, session, count).is_err() {
            return Err(self.calls.fail());
        }
        self.transcripts.append(session, &piece[..count]);
        Ok(count)
    }

    fn end(&mut self, session: u32) -> Result<(), Failed>
        ensures ends { EndsSession (⟦<MemDock as Dock>⟧.seen self.old) (⟦<MemDock as Dock>⟧.seen self.new) result session }
        ensures form { MemEnds self.old self.new result session }
    {
        self.calls.begin()?;
        if reserve_both(&mut self.ended, &mut self.ended_at, 1).is_err() {
            return Err(self.calls.fail());
        }
        add(&mut self.ended, session);
        add(&mut self.ended_at, self.transcripts.sent(session).len());
        Ok(())
    }
}
