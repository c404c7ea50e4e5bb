//! A disk in memory with reserved capacity: I/O calls never allocate, and fail only if it is exceeded.
ghost use Rattle.std.specs.Prelude.{◌≡◌, ◌≤◌, ◌-◌, [], length, min, Ok, Some, IfOk};
ghost use Rattle.outer_ports.specs.disk.States.{IsHonest, IsCrashImage, wrote, durable};
ghost use Rattle.outer_ports.specs.disk.Moments.{history_after_step};
ghost use Rattle.outer_ports.specs.Calls.{risen};
ghost use Rattle.outer_ports.specs.disk.Disks.{Sizes, ReadsAt, WritesAt, Syncs, reach_after};
ghost use Rattle.memory_ports.specs.disk.Picks.{image_picked};
ghost use Rattle.memory_ports.specs.disk.Forms.{untouched_disk, SureSteps};

use super::kept::Kept;
use super::mem_disk::crashed;
use super::reaching::reach_to;
use crate::{MemDisk, Pick};
use fugue_ids::{Failed, NoMemory};
use outer_ports::{Disk, raise};
use std::alloc::Global;
use std::marker::Model;

/// A file in memory, with room that was reserved. Its calls take no memory, and fail only where no room is left.
#[derive(Drop)]
pub struct SureDisk {
    alloc: Global,
    kept: Kept,
    faults: u64,
    /// How often the size was asked for.
    sizes: u64,
    /// How far it was read.
    reach: u64,
}

impl Model for SureDisk {
    ghost use Rattle.memory_ports.specs.disk.Forms.{SureDiskView};

    ghost Value = { SureDiskView };

    ghost view = { λ d. record {
      past = d.kept.past;
      room = record { bytes = d.kept.room; calls = d.kept.calls };
      faults = d.faults;
      sizes = d.sizes;
      reach = d.reach;
    } };
}

impl SureDisk {
    #[tactic(auto, using(outer_ports::proofs::SharedLemmas::honest_at_rest))]
    /// A file of these bytes, all of them settled. All writes together write at most `room` bytes, and all writes and
    /// syncs are at most `room` calls.
    pub fn new(alloc: Global, bytes: Vec<u8>, room: usize) -> Result<SureDisk, NoMemory>
        ensures seen { IfOk result (λ d. ⟦<SureDisk as Disk>⟧.seen d
            ≡ record {
              past = Some (untouched_disk bytes.items);
              faults = 0;
              room = Some (record { bytes = room; calls = room });
              sizes = Some 0;
              reach = Some 0;
            }) }
        ensures honest { IfOk result (λ d. IsHonest d.past.last) }
    {
        let mut kept = Kept::new(alloc, bytes);
        kept.prepare(alloc, room, room)?;
        Ok(SureDisk {
            alloc,
            kept,
            faults: 0,
            sizes: 0,
            reach: 0,
        })
    }

    /// One of the files that a crash may leave. No call on it is to fail. Both disks are honest.
    pub fn crash(&self, pick: Pick) -> Result<MemDisk, NoMemory>
        ensures honest { IsHonest self.now.past.last }
        ensures rests { IfOk result (λ d. IsHonest d.past.last) }
        ensures past { IfOk result (λ d. d.past ≡ untouched_disk (image_picked pick self.now.past.last)) }
        ensures image { IsCrashImage self.now.past.last (image_picked pick self.now.past.last) }
        ensures calls { IfOk result (λ d. d.calls ≡ record { made = 0; listed = []; faults = 0 }) }
    {
        crashed(self.alloc, &self.kept, pick)
    }
}

impl Disk for SureDisk {
    ghost seen = { λ d. record {
      past = Some d.past;
      faults = d.faults;
      room = Some d.room;
      sizes = Some d.sizes;
      reach = Some d.reach;
    } };

    fn size(&mut self) -> Result<u64, Failed>
        ensures sizes { Sizes (⟦<SureDisk as Disk>⟧.seen self.old) (⟦<SureDisk as Disk>⟧.seen self.new) result }
        ensures asked { self.new ≡ record self.old { sizes = risen self.old.sizes } }
        ensures form { result ≡ Ok (length self.old.past.last.seen) }
    {
        raise(&mut self.sizes);
        Ok(self.kept.bytes().len() as u64)
    }

    fn read_at(&mut self, at: u64, buf: &mut [u8]) -> Result<usize, Failed>
        ensures reads { ReadsAt (⟦<SureDisk as Disk>⟧.seen self.old) (⟦<SureDisk as Disk>⟧.seen self.new)
            result at buf.new }
        ensures asked { self.new ≡ record self.old { reach = reach_after at (length buf.new) self.old.reach } }
        ensures form { result ≡ Ok (min (length buf.new) (length self.old.past.last.seen - at)) }
    {
        reach_to(&mut self.reach, at, buf.len());
        Ok(self.kept.read_at(at, buf))
    }

    fn write_at(&mut self, at: u64, bytes: &[u8]) -> Result<(), Failed>
        requires inside { at ≤ length self.old.past.last.seen }
        ensures writes { WritesAt (⟦<SureDisk as Disk>⟧.seen self.old) (⟦<SureDisk as Disk>⟧.seen self.new)
            result at bytes.now }
        ensures form { SureSteps (length bytes.now)
            (history_after_step (wrote at bytes.now) self.old.past) self.old self.new result }
    {
        if bytes.len() > self.kept.room() || self.kept.calls() == 0 {
            raise(&mut self.faults);
            return Err(Failed);
        }
        self.kept.write(at, bytes);
        Ok(())
    }

    fn sync(&mut self) -> Result<(), Failed>
        ensures syncs { Syncs (⟦<SureDisk as Disk>⟧.seen self.old) (⟦<SureDisk as Disk>⟧.seen self.new) result }
        ensures form { SureSteps 0 (history_after_step durable self.old.past) self.old self.new result }
    {
        if self.kept.calls() == 0 {
            raise(&mut self.faults);
            return Err(Failed);
        }
        self.kept.make_durable();
        Ok(())
    }
}
