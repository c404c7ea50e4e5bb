//! A disk in memory whose listed calls fail, and the choice of the image that a crash leaves.
ghost use Rattle.std.specs.Prelude.{◌≡◌, ◌≤◌, ◌-◌, [], length, min, Some, None, IfOk};
ghost use Rattle.outer_ports.specs.disk.States.{IsHonest, IsCrashImage};
ghost use Rattle.outer_ports.specs.Calls.{risen};
ghost use Rattle.outer_ports.specs.disk.Disks.{Sizes, ReadsAt, WritesAt, Syncs, reach_after};
ghost use Rattle.memory_ports.specs.disk.Picks.{image_picked};
ghost use Rattle.memory_ports.specs.disk.Forms.{untouched_disk, MemLooks, MemDiskWrites, MemSyncs};

use super::kept::Kept;
use super::reaching::reach_to;
use fugue_ids::{Failed, NoMemory};
use outer_ports::{Calls, Disk, raise};
use std::alloc::Global;
use std::marker::Model;

/// Which of the images a crash leaves.
#[derive(Clone, Copy, Debug)]
pub enum Pick {
    /// What stood at the last sync.
    Old,
    /// What a read gives, with bytes of 0 up to the longest length since the last sync.
    New,
    /// This byte wherever a crash may leave any.
    Fill(u8),
}

/// A file in memory. It fails at the calls that it is set to, and where memory runs out.
#[derive(Drop)]
pub struct MemDisk {
    alloc: Global,
    kept: Kept,
    calls: Calls,
    /// How many steps are made room for at a time: one more than calls are listed.
    ahead: usize,
    /// How often the size was asked for.
    sizes: u64,
    /// How far it was read.
    reach: u64,
}

impl Model for MemDisk {
    ghost use Rattle.std.specs.Prelude.{◌≡◌, ◌+◌, length};
    ghost use Rattle.memory_ports.specs.disk.Forms.{MemDiskView};

    ghost Value = { MemDiskView };

    ghost view = { λ d. record {
      past = d.kept.past;
      calls = d.calls;
      ready = d.kept.calls;
      room = d.kept.room;
      sizes = d.sizes;
      reach = d.reach;
    } };

    ghost invariant = { λ d. d.ahead ≡ length d.calls.listed + 1 };
}

impl MemDisk {
    #[tactic(auto, using(outer_ports::proofs::SharedLemmas::honest_at_rest))]
    /// A file of these bytes, all of them settled. The calls listed in `fail`, counted from 0, fail.
    pub fn new(alloc: Global, bytes: Vec<u8>, fail: Vec<u32>) -> MemDisk
        ensures seen { ⟦<MemDisk as Disk>⟧.seen result
            ≡ record { past = Some (untouched_disk bytes.items); faults = 0; room = None; sizes = Some 0; reach = Some 0 } }
        ensures honest { IsHonest result.past.last }
        ensures calls { result.calls ≡ record { made = 0; listed = fail.items; faults = 0 } }
    {
        let ahead = fail.len() + 1;
        MemDisk {
            alloc,
            kept: Kept::new(alloc, bytes),
            calls: Calls::new(fail),
            ahead,
            sizes: 0,
            reach: 0,
        }
    }

    /// One of the files that a crash may leave. No call on it is to fail. Both disks are honest.
    pub fn crash(&self, pick: Pick) -> Result<MemDisk, NoMemory>
        ensures past { IfOk result (λ d. d.past ≡ untouched_disk (image_picked pick self.now.past.last)) }
        ensures image { IsCrashImage self.now.past.last (image_picked pick self.now.past.last) }
        ensures calls { IfOk result (λ d. d.calls ≡ record { made = 0; listed = []; faults = 0 }) }
        ensures honest { IsHonest self.now.past.last }
        ensures rests { IfOk result (λ d. IsHonest d.past.last) }
    {
        crashed(self.alloc, &self.kept, pick)
    }
}

impl Disk for MemDisk {
    ghost seen = { λ d. record {
      past = Some d.past;
      faults = d.calls.faults;
      room = None;
      sizes = Some d.sizes;
      reach = Some d.reach;
    } };

    fn size(&mut self) -> Result<u64, Failed>
        ensures sizes { Sizes (⟦<MemDisk as Disk>⟧.seen self.old) (⟦<MemDisk as Disk>⟧.seen self.new) result }
        ensures form { MemLooks (record self.old { sizes = risen self.old.sizes }) self.old self.new result }
    {
        self.calls.begin()?;
        raise(&mut self.sizes);
        Ok(self.kept.bytes().len() as u64)
    }

    fn read_at(&mut self, at: u64, buf: &mut [u8]) -> Result<usize, Failed>
        ensures reads { ReadsAt (⟦<MemDisk as Disk>⟧.seen self.old) (⟦<MemDisk as Disk>⟧.seen self.new)
            result at buf.new }
        ensures form { MemLooks (record self.old { reach = reach_after at (length buf.new) self.old.reach })
            self.old self.new result }
        ensures count { IfOk result (λ n. n ≡ min (length buf.new) (length self.old.past.last.seen - at)) }
    {
        self.calls.begin()?;
        reach_to(&mut self.reach, at, buf.len());
        Ok(self.kept.read_at(at, buf))
    }

    fn write_at(&mut self, at: u64, bytes: &[u8]) -> Result<(), Failed>
        requires inside { at ≤ length self.old.past.last.seen }
        ensures writes { WritesAt (⟦<MemDisk as Disk>⟧.seen self.old) (⟦<MemDisk as Disk>⟧.seen self.new)
            result at bytes.now }
        ensures form { MemDiskWrites self.old self.new result at bytes.now }
    {
        if let Err(failed) = self.calls.begin() {
            self.kept.tear_if_able(self.alloc, at, bytes.len() as u64);
            return Err(failed);
        }
        if self
            .kept
            .prepare(self.alloc, bytes.len(), self.ahead)
            .is_err()
        {
            return Err(self.calls.fail());
        }
        self.kept.write(at, bytes);
        Ok(())
    }

    fn sync(&mut self) -> Result<(), Failed>
        ensures syncs { Syncs (⟦<MemDisk as Disk>⟧.seen self.old) (⟦<MemDisk as Disk>⟧.seen self.new) result }
        ensures form { MemSyncs self.old self.new result }
    {
        self.calls.begin()?;
        if self.kept.prepare(self.alloc, 0, self.ahead).is_err() {
            return Err(self.calls.fail());
        }
        self.kept.make_durable();
        Ok(())
    }
}

/// A disk with one of the files that a crash may leave of these.
pub(crate) fn crashed(alloc: Global, kept: &Kept, pick: Pick) -> Result<MemDisk, NoMemory>
    ensures disk { IfOk result (λ d. (d.past ≡ untouched_disk (image_picked pick kept.now.past.last))
        × (d.calls ≡ record { made = 0; listed = []; faults = 0 })) }
    ensures image { IsCrashImage kept.now.past.last (image_picked pick kept.now.past.last) }
    ensures honest { IsHonest kept.now.past.last }
    ensures rests { IfOk result (λ d. IsHonest d.past.last) }
{
    let bytes = kept.crash(alloc, pick)?;
    Ok(MemDisk::new(alloc, bytes, Vec::new(alloc)))
}
