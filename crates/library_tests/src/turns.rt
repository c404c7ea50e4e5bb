//! Two replicas that edit by turns and feed each other.

use crate::assertions::holds_at;
use crate::edits::Edit::{self, Add, Cut, Drop, Note, Put};
use crate::edits::make;
use crate::replicas::{copies_of, feed_ops, writes_as_plain};
use replica_core::Replica;
use std::alloc::Global;
use std::process::Abort;
use std::test::Fail;

/// Numbers that a seed gives.
#[derive(Clone, Copy)]
pub struct Dice {
    pub state: u64,
}

impl Dice {
    /// The next number below so many.
    pub fn roll(&mut self, sides: usize) -> usize {
        self.state = self
            .state
            .wrapping_mul(6_364_136_223_846_793_005)
            .wrapping_add(1_442_695_040_888_963_407);
        let number = (self.state >> 33) as usize;
        if sides == 0 { 0 } else { number % sides }
    }

    /// An edit of what the replica shows, or now and then of more than that.
    pub fn edit(&mut self, replica: &Replica) -> Edit {
        let section = self.roll(replica.section_count().saturating_add(1));
        let shown = replica.text_len(section).unwrap_or(0);
        let at = self.roll(shown.saturating_add(2));
        match self.roll(16) {
            0 => Add(section, "T"),
            1 => Drop(section),
            2..=5 => Cut(section, at, self.roll(4)),
            6..=9 => Put(section, at, "word "),
            10 => Put(section, at, "é"),
            11 if at < shown => Note(section, at),
            _ => Put(section, at, "xy"),
        }
    }
}

/// Feeds what one has accepted, from that operation on.
fn feed_from(
    rt: &impl Abort,
    alloc: Global,
    from: &Replica,
    to: &mut Replica,
    first: usize,
) -> Result<usize, Fail> {
    let ops = copies_of(alloc, from.accepted_from(first))?;
    feed_ops(rt, alloc, to, &ops)?;
    Ok(from.accepted().len())
}

/// One of them edits, and now and then the other hears of it.
fn take_turn(
    rt: &impl Abort,
    alloc: Global,
    editor: &mut Replica,
    reader: &mut Replica,
    dice: &mut Dice,
    heard: &mut usize,
) -> Result<(), Fail> {
    let edit = dice.edit(editor);
    let _answer = make(rt, alloc, editor, edit)?;
    if dice.roll(3) == 0 {
        *heard = feed_from(rt, alloc, editor, reader, *heard)?;
    }
    Ok(())
}

fn edit_by_turns(
    rt: &impl Abort,
    alloc: Global,
    first: &mut Replica,
    second: &mut Replica,
    seed: u64,
) -> Result<(), Fail> {
    let mut dice = Dice { state: seed };
    let mut heard = (0, 0);
    for title in ["T", "U", "V"] {
        make(rt, alloc, first, Add(0, title))??;
    }
    for _ in 0..40 {
        take_turn(rt, alloc, first, second, &mut dice, &mut heard.0)?;
        take_turn(rt, alloc, second, first, &mut dice, &mut heard.1)?;
    }
    feed_from(rt, alloc, first, second, heard.0)?;
    feed_from(rt, alloc, second, first, heard.1)?;
    // Both show what the plain replica does with the operations of the first.
    let made = first.accepted().len();
    holds_at(rt, &seed, made > 40 && made == second.accepted().len());
    for replica in [&*first, &*second] {
        let is_so = replica.waiting().is_empty() && writes_as_plain(alloc, replica, first)?;
        holds_at(rt, &seed, is_so);
    }
    Ok(())
}

#[test]
fn replicas_that_edit_by_turns_show_the_same(rt: HostRuntime) -> Result<(), Fail> {
    for seed in 0..20 {
        let mut first = Replica::new(rt.alloc(), 1, 100, 1000)?;
        let mut second = Replica::new(rt.alloc(), 2, 100, 1000)?;
        let done = edit_by_turns(&rt, rt.alloc(), &mut first, &mut second, seed);
        drop(second);
        drop(first);
        done?;
    }
    Ok(())
}
