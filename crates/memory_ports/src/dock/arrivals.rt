//! The predefined events that a listener in memory delivers piece by piece, and a record of those delivered.
ghost use Rattle.std.specs.Prelude.{◌≡◌, ◌≤◌, ◌<◌, ◌+◌, ◌-◌, ◌^◌, ◌∷◌, ◌++◌, ◌↔◌, [], length, false, IsTrue, IfSome};
ghost use Rattle.std.specs.Prelude.{◌⊎◌, OnOk, OnErr, All, None};
ghost use Rattle.outer_ports.specs.dock.Steps.{Fits, BringsSome, Gives, with_bytes, given_part, calls_for, calls_for_all};
ghost use Rattle.memory_ports.specs.dock.Arrivals.{from};

use crate::reserved::add;
use outer_ports::{DockStep, MemStep};
use std::alloc::{AllocError, Global};
use std::marker::Model;

/// What a call gave of the step with this number: at most so many bytes, from an offset on.
#[derive(Clone, Copy)]
pub(super) struct Part {
    pub(super) step: usize,
    pub(super) offset: usize,
    pub(super) most: usize,
}

/// Steps that come in turn, with what is needed to tell those that were taken.
#[derive(Drop)]
pub(super) struct Arrivals {
    steps: Vec<MemStep>,
    /// How many steps were taken whole.
    at: usize,
    /// How many bytes of the next one were taken.
    offset: usize,
    parts: Vec<Part>,
    ready: usize,
}

impl Model for Arrivals {
    ghost use Rattle.std.specs.Prelude.{◌≤◌, ◌<◌, ◌+◌, ◌-◌, All, vec_len, vec_capacity};
    ghost use Rattle.outer_ports.specs.dock.Steps.{BringsSome, calls_for};
    ghost use Rattle.memory_ports.specs.dock.Arrivals.{ArrivalsView, step_at, taken_of, coming_of};

    ghost Value = { ArrivalsView };

    ghost view = { λ a. record {
      taken = taken_of a.steps.items a.parts.items;
      coming = coming_of a.steps.items a.at a.offset;
      ready = a.ready;
      spare = vec_capacity a.parts - vec_len a.parts;
    } };

    ghost invariant = { λ a. (a.at ≤ vec_len a.steps)
        × All BringsSome a.steps.items
        × (a.offset < calls_for (step_at a.steps.items a.at))
        × (vec_len a.parts + a.ready ≤ vec_capacity a.parts) };
}

impl Arrivals {
    pub(super) fn new(alloc: Global, steps: Vec<MemStep>) -> Arrivals
        requires { All BringsSome steps.items }
        ensures { result ≡ record { taken = []; coming = steps.items; ready = 0; spare = result.spare } }
    {
        Arrivals {
            steps,
            at: 0,
            offset: 0,
            parts: Vec::new(alloc),
            ready: 0,
        }
    }

    pub(super) fn is_over(&self) -> bool
        ensures over { IsTrue result ↔ (self.now.coming ≡ []) }
        ensures some { result ≡ false → 0 < calls_for_all self.now.coming }
    {
        self.at == self.steps.len()
    }

    /// How many steps were taken.
    pub(super) fn count(&self) -> usize
        ensures { result ≡ length self.now.taken }
    {
        self.parts.len()
    }

    /// Takes memory for so many calls of `take`.
    pub(super) fn prepare(&mut self, calls: usize) -> Result<(), AllocError>
        ensures ok { OnOk result (self.new ≡ record self.old { ready = calls; spare = self.new.spare }) }
        ensures err { OnErr result (self.new ≡ self.old) }
        ensures wanting { OnErr result (self.old.spare < calls) }
    {
        self.parts.reserve(calls)?;
        self.ready = calls;
        Ok(())
    }

    /// Takes the next step, and at most so many bytes of it.
    pub(super) fn take(&mut self, most: usize, buf: &mut [u8]) -> DockStep
        requires some { 0 < length self.old.coming }
        requires ready { 0 < self.old.ready }
        requires most { (0 < most) × (most ≤ length buf.old) }
        ensures fits { Fits result (length buf.new) }
        ensures gives { Gives most self.old.coming self.new.coming (with_bytes result buf.new) }
        ensures taken { self.new.taken ≡ self.old.taken ++ with_bytes result buf.new ∷ [] }
        ensures ready { self.new.ready ≡ self.old.ready - 1 }
        ensures fewer { calls_for_all self.new.coming + 1 ≤ calls_for_all self.old.coming }
    {
        let part = Part {
            step: self.at,
            offset: self.offset,
            most,
        };
        let first = &self.steps[self.at];
        let step = give(first, self.offset, most, buf);
        (self.at, self.offset) = behind(self.at, self.offset, most, most_calls(first));
        add(&mut self.parts, part);
        self.ready -= 1;
        step
    }

    /// The same with no room prepared. Nothing is taken where no step is left, or where memory runs out.
    pub(super) fn take_if_able(&mut self, most: usize, buf: &mut [u8]) -> Option<DockStep>
        requires most { (0 < most) × (most ≤ length buf.old) }
        ensures fits { IfSome result (λ step. Fits step (length buf.new)) }
        ensures gives { IfSome result
            (λ step. Gives most self.old.coming self.new.coming (with_bytes step buf.new)) }
        ensures taken { IfSome result (λ step. self.new.taken ≡ self.old.taken ++ with_bytes step buf.new ∷ []) }
        ensures over { self.old.coming ≡ [] → result ≡ None }
        ensures kept { result ≡ None
            → (self.new.taken ≡ self.old.taken) × (self.new.coming ≡ self.old.coming) }
        ensures wanting { result ≡ None → (self.old.coming ≡ []) ⊎ (self.old.spare ≡ 0) }
    {
        if self.is_over() || self.prepare(1).is_err() {
            return None;
        }
        Some(self.take(most, buf))
    }
}

/// How many calls a step serves at most.
fn most_calls(step: &MemStep) -> usize
    ensures { result ≡ calls_for step.now }
{
    match step {
        MemStep::Bytes(_, bytes) => bytes.as_slice().len(),
        MemStep::Opened(_) | MemStep::Gone(_) => 1,
    }
}

/// How many calls steps serve at most, where that is a number.
pub(super) fn most_calls_of(steps: &[MemStep]) -> Option<usize>
    ensures { IfSome result (λ calls. calls ≡ calls_for_all steps.now) }
{
    let mut calls: usize = 0;
    for step in steps {
        calls = calls.checked_add(most_calls(step))?;
    }
    Some(calls)
}

/// Where the steps to come begin after so many bytes of a step that serves so many calls.
fn behind(at: usize, offset: usize, most: usize, calls: usize) -> (usize, usize)
    requires within { offset < calls }
    requires at { at < 2 ^ 63 }
    ensures partly { most < calls - offset → (result.0 ≡ at) × (result.1 ≡ offset + most) }
    ensures whole { calls - offset ≤ most → (result.0 ≡ at + 1) × (result.1 ≡ 0) }
{
    if most < calls - offset {
        (at, offset + most)
    } else {
        (at + 1, 0)
    }
}

/// Gives a step without its first bytes, and at most so many of the others.
fn give(step: &MemStep, offset: usize, most: usize, buf: &mut [u8]) -> DockStep
    requires within { offset < calls_for step.now }
    requires most { (0 < most) × (most ≤ length buf.old) }
    ensures fits { Fits result (length buf.new) }
    ensures gives { with_bytes result buf.new ≡ given_part most (from offset step.now) }
{
    match step {
        MemStep::Opened(session) => DockStep::Opened(*session),
        MemStep::Bytes(session, bytes) => {
            let bytes = bytes.as_slice();
            let count = most.min(bytes.len() - offset);
            buf[..count].copy_from_slice(&bytes[offset..offset + count]);
            DockStep::Bytes(*session, count)
        }
        MemStep::Gone(session) => DockStep::Gone(*session),
    }
}
