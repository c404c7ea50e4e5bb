//! Reads the operations of a stream of limited length, one by one or many at once, with their offsets.
ghost use Rattle.std.specs.Prelude.{◌≡◌, ◌≢◌, ◌<◌, ◌≤◌, ◌+◌, ◌^◌, ℕ, List, [], length, Option, None, IfErr, IfOk, IfSome, IsErrOf};
ghost use Rattle.std.specs.Prelude.{vec_len, vec_capacity};
ghost use Rattle.fugue_ids.specs.declared.limits.TheConstants.{BUFFER};
ghost use Rattle.outer_ports.specs.Sources.{KeepsCount};
ghost use Rattle.origin_model.specs.declared.grammar.Grammar.TheVariants.{Version1 as Singles, Version2 as WithRuns};
ghost use Rattle.op_frame.specs.Readers.{Chains, Gave, GivesInOrder, Nexts, fresh_reading, kept_fault};
ghost use Rattle.op_frame.specs.NextRuns.{bytes_left, Gathers, GathersDelete, GathersDeletes, GathersMore, GathersTexts};
ghost use Rattle.op_frame.specs.NextRuns.{GivesManyBy, NextsRun};
ghost use Rattle.op_frame.specs.declared.fault.FrameFault.TheVariants.{ReadFault};

use crate::FrameFault;
use crate::encoding::LONGEST_RUN;
use crate::gather::{take_delete, take_held_texts, take_texts, target_after};
use crate::header::RunHeader;
use crate::next_ops::NextOps;
use crate::step::{take_held, take_next};
use crate::unread::Unread;
use fugue_ids::{ElementId, NoMemory, Op, RunStart, read_text};
use origin_model::Grammar;
use outer_ports::Source;
use std::alloc::Global;
use std::marker::Model;

/// Reads the operations of a stream, of which it takes at most `limit` bytes.
#[derive(Drop)]
pub struct FrameReader {
    alloc: Global,
    limit: u64,
    grammar: Grammar,
    unread: Unread,
    /// The operations of the frame that was last read that are still to be given. Their scalars are the first unread
    /// bytes.
    held: Option<RunHeader>,
    offset: u64,
    last: u64,
    fault: Option<FrameFault>,
}

impl Model for FrameReader {
    ghost use Rattle.std.specs.Prelude.{◌≡◌, ◌≤◌, ◌+◌, length, IfSome, Some};
    ghost use Rattle.op_frame.specs.Headers.{IsHeld, after_held, held_ops};
    ghost use Rattle.op_frame.specs.Readers.{FrameReading, kept_fault};

    ghost Value = { FrameReading };

    ghost view = { λ r. record {
      grammar = r.grammar;
      limit = r.limit;
      todo = held_ops r.held r.unread.bytes;
      unread = after_held r.held r.unread.bytes;
      offset = r.offset;
      last = r.last;
      fault = r.fault;
    } };

    ghost invariant = { λ r. (r.offset + length (after_held r.held r.unread.bytes) ≤ r.limit)
        × IfSome r.fault (λ f. kept_fault f ≡ Some f) × IfSome r.held (IsHeld r.unread.bytes) };
}

impl FrameReader {
    /// A reader of a stream of at most `limit` bytes. It takes an array of 4,096 bytes.
    pub fn new(alloc: Global, limit: u64) -> Result<FrameReader, NoMemory>
        ensures fresh { IfOk result (λ reader. reader ≡ fresh_reading WithRuns limit) }
        ensures gave_none { IfOk result (λ reader. (left : Option (List ℕ)) → Gave left [] reader left) }
    {
        FrameReader::of_grammar(alloc, Grammar::Version2, limit)
    }

    /// A reader of a stream of version 1, which has neither runs nor notes.
    pub fn old(alloc: Global, limit: u64) -> Result<FrameReader, NoMemory>
        ensures fresh { IfOk result (λ reader. reader ≡ fresh_reading Singles limit) }
        ensures gave_none { IfOk result (λ reader. (left : Option (List ℕ)) → Gave left [] reader left) }
    {
        FrameReader::of_grammar(alloc, Grammar::Version1, limit)
    }

    fn of_grammar(alloc: Global, grammar: Grammar, limit: u64) -> Result<FrameReader, NoMemory>
        ensures { IfOk result (λ reader. reader ≡ fresh_reading grammar limit) }
    {
        Ok(FrameReader {
            alloc,
            limit,
            grammar,
            unread: Unread::new(alloc)?,
            held: None,
            offset: 0,
            last: 0,
            fault: None,
        })
    }

    /// The offset of the first byte of the frame whose operation was last given, 0 before the first.
    pub fn last_at(&self) -> u64
        ensures { result ≡ self.now.last }
    {
        self.last
    }

    /// The next operation. None comes at the end of the stream.
    pub fn next<S: Source>(&mut self, source: &mut S) -> Result<Option<Op>, FrameFault>
        ensures in_order { self.old.fault ≡ None
            → GivesInOrder self.old self.new (S.seen source.old) (S.seen source.new) result }
        ensures nexts { self.old.fault ≡ None → Nexts self.old self.new (S.seen source.old) (S.seen source.new) result }
        ensures chains { self.old.fault ≡ None
            → Chains self.old self.new (S.seen source.old) (S.seen source.new) result }
        ensures repeats { IfSome self.old.fault
            (λ fault. (result ≡ Err fault) × (self.new ≡ self.old) × (source.new ≡ source.old)) }
        ensures held { self.old.fault ≡ None → self.old.todo ≢ [] → source.new ≡ source.old }
        ensures count { KeepsCount (S.seen source.old) (S.seen source.new)
            ((self.old.fault ≡ None) × IsErrOf result ReadFault) }
    {
        if let Some(fault) = self.fault {
            return Err(fault);
        }
        match self.held {
            Some(header) => {
                let (op, held) = take_held(header, &mut self.unread);
                self.held = held;
                Ok(Some(op))
            }
            None => self.advance(source),
        }
    }

    /// The next operations: a run's Texts, whose scalars are then in `text`, or Deletes of identifiers that follow one
    /// another, or one other operation. None comes at the end of the stream. They are those that as many calls of `next`
    /// give.
    ///
    /// Texts or Deletes are given at once as long as each goes on with the one before it, and stands whole in the bytes
    /// that were taken of the source already. So the source is asked for bytes only where nothing could be given
    /// otherwise, and what it answers then is never held back. `text` keeps its room. Where it has none, and none is to be
    /// had for one scalar, nothing is done; a call that runs out of memory later gives what it has.
    pub fn next_run<S: Source>(
        &mut self,
        source: &mut S,
        text: &mut Vec<char>,
    ) -> Result<Option<NextOps>, FrameFault>
        ensures nexts { self.old.fault ≡ None
            → NextsRun self.old self.new (S.seen source.old) (S.seen source.new) result text.new.items }
        ensures gives_many { self.old.fault ≡ None
            → GivesManyBy self.old self.new (S.seen source.old) (S.seen source.new) result text.new.items }
        ensures with_room { self.old.fault ≡ None → 0 < vec_capacity text.old
            → IfErr result (λ fault. Nexts self.old self.new (S.seen source.old) (S.seen source.new) (Err fault)) }
        ensures room { vec_capacity text.old ≤ vec_capacity text.new }
        ensures short { length text.new.items ≤ BUFFER }
        ensures repeats { IfSome self.old.fault
            (λ fault. (result ≡ Err fault) × (self.new ≡ self.old) × (source.new ≡ source.old)) }
        ensures held { self.old.fault ≡ None → self.old.todo ≢ [] → source.new ≡ source.old }
        ensures count { KeepsCount (S.seen source.old) (S.seen source.new)
            ((self.old.fault ≡ None) × IsErrOf result ReadFault) }
    {
        text.clear();
        if let Some(fault) = self.fault {
            return Err(fault);
        }
        if text.reserve(1).is_err() {
            return Err(FrameFault::NoMemory);
        }
        match self.next(source) {
            Ok(Some(op)) => {
                self.fits();
                Ok(Some(self.gather(op, text)))
            }
            Ok(None) => Ok(None),
            Err(fault) => Err(fault),
        }
    }

    /// What it has fits into the buffer: nothing is done.
    fn fits(&self)
        ensures { bytes_left self.now ≤ BUFFER }
    {
        self.unread.fit();
    }

    /// The operation, and what goes on with it.
    fn gather(&mut self, op: Op, text: &mut Vec<char>) -> NextOps
        requires fault { self.old.fault ≡ None }
        requires empty { text.old.items ≡ [] }
        requires room { vec_len text.old < vec_capacity text.old }
        ensures gathers { Gathers op result text.new.items self.old self.new }
        ensures kept_room { vec_capacity text.old ≤ vec_capacity text.new }
    {
        if let Op::Delete { target } = op {
            let count = self.gather_deletes(target);
            return NextOps::Deletes(target, count);
        }
        let Some((start, ch)) = read_text(&op) else {
            return NextOps::Single(op);
        };
        text.push_reserved(ch);
        self.gather_texts(&start, text);
        NextOps::Run(start)
    }

    /// Gives the Deletes that go on with this one, and returns how many they are with it.
    fn gather_deletes(&mut self, first: ElementId) -> u32
        requires { self.old.fault ≡ None }
        ensures { GathersDeletes first result self.old self.new }
    {
        // That the counter fits is told where it is read.
        let _counter = first.counter;
        let mut count = 1;
        'deletes: while count < LONGEST_RUN as u32 && self.gather_delete(first, count) {
            count += 1;
        }
        count
    }

    /// Gives the Delete of the identifier so many after this one, if that stands next.
    fn gather_delete(&mut self, first: ElementId, count: u32) -> bool
        requires { self.old.fault ≡ None }
        ensures { GathersDelete result first count self.old self.new }
    {
        if self.held.is_some() {
            return false;
        }
        let Some(target) = target_after(first, count) else {
            return false;
        };
        let Some(len) = take_delete(target, &mut self.unread) else {
            return false;
        };
        self.last = self.offset;
        self.offset += len as u64;
        true
    }

    /// Gives the Texts that go on with the run.
    fn gather_texts(&mut self, start: &RunStart, text: &mut Vec<char>)
        requires fault { self.old.fault ≡ None }
        requires counters { start.now.id.counter + length text.old.items ≤ 2 ^ 32 }
        ensures gathers { GathersTexts start.now text.old.items text.new.items self.old self.new }
        ensures room { vec_capacity text.old ≤ vec_capacity text.new }
    {
        'texts: while self.gather_more(start, text) {}
    }

    /// Gives the Texts that stand next, if these go on with the run.
    fn gather_more(&mut self, start: &RunStart, text: &mut Vec<char>) -> bool
        requires { self.old.fault ≡ None }
        ensures gathers { GathersMore result start.now text.old.items text.new.items self.old self.new }
        ensures room { vec_capacity text.old ≤ vec_capacity text.new }
    {
        match self.held {
            Some(header) => {
                if !take_held_texts(start, &header, &mut self.unread, text) {
                    return false;
                }
                self.held = None;
            }
            None => {
                let Some(len) = take_texts(self.grammar, start, &mut self.unread, text) else {
                    return false;
                };
                self.last = self.offset;
                self.offset += len as u64;
            }
        }
        true
    }

    fn advance<S: Source>(&mut self, source: &mut S) -> Result<Option<Op>, FrameFault>
        requires fault { self.old.fault ≡ None }
        requires none_held { self.old.todo ≡ [] }
        ensures nexts { Nexts self.old self.new (S.seen source.old) (S.seen source.new) result }
        ensures count { KeepsCount (S.seen source.old) (S.seen source.new) (IsErrOf result ReadFault) }
    {
        let room = self.limit - self.offset;
        match take_next(
            self.alloc,
            self.grammar,
            &mut self.unread,
            self.offset,
            room,
            source,
        ) {
            Ok(None) => Ok(None),
            Ok(Some(taken)) => {
                self.held = taken.held;
                self.last = self.offset;
                self.offset += taken.len as u64;
                Ok(Some(taken.op))
            }
            Err(fault) => {
                self.fault = kept(fault);
                Err(fault)
            }
        }
    }
}

/// The fault that is answered for good.
fn kept(fault: FrameFault) -> Option<FrameFault>
    ensures { result ≡ kept_fault fault }
{
    match fault {
        FrameFault::NoMemory => None,
        FrameFault::BadFrame(_) => Some(fault),
        FrameFault::CutShort(_) => Some(fault),
        FrameFault::ReadFault => Some(fault),
        FrameFault::TooLong => Some(fault),
    }
}
