//! The file after both disks in memory: its bytes, its writes and syncs so far, and what a crash leaves.
ghost use Rattle.std.specs.Prelude.{◌⊎◌, ◌≡◌, ◌≤◌, ◌<◌, ◌+◌, ◌-◌, ◌^◌, [], length, min, IfOk, OnOk, OnErr, vec_len};
ghost use Rattle.std.specs.Prelude.{vec_capacity, true, false, if◌then◌else◌};
ghost use Rattle.outer_ports.specs.disk.States.{at_rest, wrote, tried_state, durable, IsHonest, IsCrashImage, overwritten};
ghost use Rattle.outer_ports.specs.disk.Moments.{history_after_step};
ghost use Rattle.outer_ports.specs.disk.Disks.{GivesAt};
ghost use Rattle.memory_ports.specs.disk.Kept.{KeptView};
ghost use Rattle.memory_ports.specs.disk.Picks.{padded_bytes, image_picked, range_filled, ranges_filled};

use crate::Pick;
use crate::reserved::{add, append, reserve_both};
use std::alloc::{AllocError, Global};
use std::marker::Model;

/// What was done to a file in memory.
#[derive(Drop)]
pub(crate) enum Step {
    /// A write, by its offset and length.
    Wrote(u64, u64),
    /// A write that failed, by its offset and length.
    Tried(u64, u64),
    Synced,
}

/// A file in memory, with what is needed to tell its past.
#[derive(Drop)]
pub(crate) struct Kept {
    /// Room was never prepared: what stood at first and at the last sync is what stands.
    fresh: bool,
    first: Vec<u8>,
    base: Vec<u8>,
    bytes: Vec<u8>,
    written: Vec<u8>,
    steps: Vec<Step>,
    ranges: Vec<(u64, u64)>,
    longest: u64,
    room: usize,
    calls: usize,
}

impl Model for Kept {
    ghost use Rattle.std.specs.Prelude.{◌≡◌, ◌≤◌, ◌<◌, ◌+◌, true, if◌then◌else◌, length, vec_len, vec_capacity};
    ghost use Rattle.outer_ports.specs.disk.States.{IsHonest};
    ghost use Rattle.memory_ports.specs.disk.Kept.{KeptView, past_after_steps, written_by_all};

    ghost Value = { KeptView };

    ghost view = { λ k. record {
      past = past_after_steps
          (if k.fresh then k.bytes.items else k.first.items) k.steps.items k.written.items;
      room = k.room;
      calls = k.calls;
    } };

    ghost invariant = { λ k.
        ((past_after_steps (if k.fresh then k.bytes.items else k.first.items) k.steps.items k.written.items).last
        ≡ record {
          seen = k.bytes.items;
          base = if k.fresh then k.bytes.items else k.base.items;
          ranges = k.ranges.items;
          longest = k.longest;
        })
        × IsHonest (record {
          seen = k.bytes.items;
          base = if k.fresh then k.bytes.items else k.base.items;
          ranges = k.ranges.items;
          longest = k.longest;
        })
        × (written_by_all k.steps.items ≡ length k.written.items)
        × (k.fresh ≡ true → k.calls ≡ 0)
        × (vec_len k.bytes + k.room ≤ vec_capacity k.bytes)
        × (vec_len k.written + k.room ≤ vec_capacity k.written)
        × (0 < k.calls → vec_len k.bytes + k.room ≤ vec_capacity k.base)
        × (vec_len k.steps + k.calls ≤ vec_capacity k.steps)
        × (vec_len k.ranges + k.calls ≤ vec_capacity k.ranges)
        × (length (if k.fresh then k.bytes.items else k.base.items) ≤ k.longest) };
}

impl Kept {
    /// A file of these bytes, all of them settled.
    pub(crate) fn new(alloc: Global, bytes: Vec<u8>) -> Kept
        ensures { result ≡ record { past = record { last = at_rest bytes.items; before = [] }; room = 0; calls = 0 } }
    {
        let longest = bytes.len() as u64;
        Kept {
            fresh: true,
            first: Vec::new(alloc),
            base: Vec::new(alloc),
            bytes,
            written: Vec::new(alloc),
            steps: Vec::new(alloc),
            ranges: Vec::new(alloc),
            longest,
            room: 0,
            calls: 0,
        }
    }

    /// What a read gives.
    pub(crate) fn bytes(&self) -> &[u8]
        ensures { result.now ≡ self.now.past.last.seen }
    {
        &self.bytes
    }

    /// What stood at the last sync.
    pub(crate) fn base(&self) -> &[u8]
        ensures { result.now ≡ self.now.past.last.base }
    {
        if self.fresh { &self.bytes } else { &self.base }
    }

    /// Gives bytes that stand from `at` on, and returns how many.
    pub(crate) fn read_at(&self, at: u64, buf: &mut [u8]) -> usize
        ensures bound { result ≤ length buf.new }
        ensures gives { GivesAt self.now.past.last.seen at result buf.new }
        ensures count { result ≡ min (length buf.new) (length self.now.past.last.seen - at) }
    {
        let offset = at.min(self.bytes.len() as u64) as usize;
        let count = buf.len().min(self.bytes.len() - offset);
        buf[..count].copy_from_slice(&self.bytes[offset..offset + count]);
        count
    }

    /// Takes memory for steps that together write at most `room` bytes and are at most `calls`.
    pub(crate) fn prepare(
        &mut self,
        alloc: Global,
        room: usize,
        calls: usize,
    ) -> Result<(), AllocError>
        ensures ok { OnOk result (self.new ≡ record { past = self.old.past; room = room; calls = calls }) }
        ensures err { OnErr result (self.new ≡ self.old) }
        ensures wanting { OnErr result ((self.old.room < room) ⊎ (self.old.calls < calls) ⊎ (self.old.calls ≡ 0)) }
    {
        reserve_both(&mut self.bytes, &mut self.written, room)?;
        reserve_both(&mut self.steps, &mut self.ranges, calls)?;
        let whole = self.bytes.len() + room;
        keep_base(
            alloc,
            &self.bytes,
            whole,
            &mut self.fresh,
            &mut self.first,
            &mut self.base,
        )?;
        self.room = room;
        self.calls = calls;
        Ok(())
    }

    /// Writes, in room that is prepared.
    pub(crate) fn write(&mut self, at: u64, bytes: &[u8])
        requires inside { at ≤ length self.old.past.last.seen }
        requires room { length bytes.now ≤ self.old.room }
        requires calls { 0 < self.old.calls }
        ensures { self.new ≡ record {
          past = history_after_step (wrote at bytes.now) self.old.past;
          room = self.old.room - length bytes.now;
          calls = self.old.calls - 1;
        } }
    {
        let length = bytes.len() as u64;
        overwrite(&mut self.bytes, at as usize, bytes);
        append(&mut self.written, bytes);
        add(&mut self.steps, Step::Wrote(at, length));
        add(&mut self.ranges, (at, length));
        self.longest = self.longest.max(at + length);
        self.room -= bytes.len();
        self.calls -= 1;
    }

    /// A write of so many bytes fails, and leaves their range torn.
    pub(crate) fn tear(&mut self, at: u64, count: u64)
        requires inside { at ≤ length self.old.past.last.seen }
        requires small { count < 2 ^ 63 }
        requires calls { 0 < self.old.calls }
        ensures { self.new ≡ record {
          past = history_after_step (tried_state at count) self.old.past;
          room = self.old.room;
          calls = self.old.calls - 1;
        } }
    {
        add(&mut self.steps, Step::Tried(at, count));
        add(&mut self.ranges, (at, count));
        self.longest = self.longest.max(at + count);
        self.calls -= 1;
    }

    /// A write of so many bytes fails. Where no memory is there for a step, and none is to be had, nothing is torn.
    pub(crate) fn tear_if_able(&mut self, alloc: Global, at: u64, count: u64)
        requires inside { at ≤ length self.old.past.last.seen }
        requires small { count < 2 ^ 63 }
        ensures torn { 0 < self.old.calls → self.new ≡ record {
          past = history_after_step (tried_state at count) self.old.past;
          room = self.old.room;
          calls = self.old.calls - 1;
        } }
        ensures may { (self.new.past ≡ self.old.past) ⊎ (self.new.past ≡ history_after_step (tried_state at count) self.old.past) }
    {
        if self.calls == 0 && self.prepare(alloc, 0, 1).is_err() {
            return;
        }
        self.tear(at, count);
    }

    /// What stands is settled.
    pub(crate) fn make_durable(&mut self)
        requires calls { 0 < self.old.calls }
        ensures stepped { self.new
            ≡ record { past = history_after_step durable self.old.past; room = self.old.room; calls = self.old.calls - 1 } }
        ensures honest { IsHonest self.old.past.last }
    {
        self.base.clear();
        append(&mut self.base, &self.bytes);
        add(&mut self.steps, Step::Synced);
        self.ranges.clear();
        self.longest = self.bytes.len() as u64;
        self.calls -= 1;
    }

    pub(crate) fn room(&self) -> usize
        ensures { result ≡ self.now.room }
    {
        self.room
    }

    pub(crate) fn calls(&self) -> usize
        ensures { result ≡ self.now.calls }
    {
        self.calls
    }

    /// What a crash may leave.
    pub(crate) fn crash(&self, alloc: Global, pick: Pick) -> Result<Vec<u8>, AllocError>
        ensures bytes { IfOk result (λ bytes. bytes.items ≡ image_picked pick self.now.past.last) }
        ensures image { IsCrashImage self.now.past.last (image_picked pick self.now.past.last) }
        ensures honest { IsHonest self.now.past.last }
    {
        match pick {
            Pick::Old => self.base().to_vec(alloc),
            Pick::New => pad(alloc, self.bytes(), self.longest, 0),
            Pick::Fill(byte) => {
                let mut bytes = pad(alloc, self.base(), self.longest, byte)?;
                fill(&mut bytes, &self.ranges, byte);
                Ok(bytes)
            }
        }
    }
}

/// Copies what stands, where that was not done before, and makes room for so many bytes where what is settled stands.
fn keep_base(
    alloc: Global,
    bytes: &[u8],
    whole: usize,
    fresh: &mut bool,
    first: &mut Vec<u8>,
    base: &mut Vec<u8>,
) -> Result<(), AllocError>
    ensures first { (if fresh.new then bytes.now else first.new.items)
        ≡ (if fresh.old then bytes.now else first.old.items) }
    ensures base { (if fresh.new then bytes.now else base.new.items)
        ≡ (if fresh.old then bytes.now else base.old.items) }
    ensures ok { OnOk result ((fresh.new ≡ false) × (whole ≤ vec_capacity base.new)) }
    ensures err { OnErr result (fresh.new ≡ fresh.old) }
    ensures capacity { fresh.old ≡ false → vec_capacity base.old ≤ vec_capacity base.new }
    ensures wanting { OnErr result ((fresh.old ≡ true) ⊎ (vec_capacity base.old < whole)) }
{
    if !*fresh {
        base.reserve(whole.saturating_sub(base.len()))?;
        return Ok(());
    }
    *first = bytes.to_vec(alloc)?;
    *base = bytes.to_vec(alloc)?;
    base.reserve(whole.saturating_sub(base.len()))?;
    *fresh = false;
    Ok(())
}

/// A copy of these bytes, with further ones up to this length.
fn pad(alloc: Global, bytes: &[u8], long: u64, byte: u8) -> Result<Vec<u8>, AllocError>
    requires { length bytes.now ≤ long }
    ensures { IfOk result (λ copy. copy.items ≡ padded_bytes long byte bytes.now) }
{
    let mut copy = bytes.to_vec(alloc)?;
    copy.resize(long as usize, byte)?;
    Ok(copy)
}

/// Writes over what is there, and past the end, in room that is there.
pub(crate) fn overwrite(old: &mut Vec<u8>, at: usize, bytes: &[u8])
    requires inside { at ≤ vec_len old.old }
    requires room { vec_len old.old + length bytes.now ≤ vec_capacity old.old }
    ensures items { old.new.items ≡ overwritten old.old.items at bytes.now }
    ensures capacity { vec_capacity old.old ≤ vec_capacity old.new }
{
    let inner = bytes.len().min(old.len() - at);
    old[at..at + inner].copy_from_slice(&bytes[..inner]);
    append(old, &bytes[inner..]);
}

/// Puts this byte wherever one of the ranges is.
pub(crate) fn fill(bytes: &mut [u8], ranges: &[(u64, u64)], byte: u8)
    ensures { bytes.new ≡ ranges_filled ranges.now byte bytes.old }
{
    for (at, count) in ranges {
        fill_range(bytes, *at, *count, byte);
    }
}

fn fill_range(bytes: &mut [u8], at: u64, count: u64, byte: u8)
    ensures { bytes.new ≡ range_filled at count byte bytes.old }
{
    let offset = at.min(bytes.len() as u64) as usize;
    let inner = count.min((bytes.len() - offset) as u64) as usize;
    bytes[offset..offset + inner].fill(byte);
}
