//! Taking in as the definitions have it, with room for all: each step of settling looks at every waiting operation.

use fugue_ids::Op;
use origin_model::{PlainReplica, Verdict};
use outer_ports::MemSink;
use std::alloc::Global;
use std::test::Fail;

#[derive(Drop)]
pub struct Plain {
    pub accepted: PlainReplica,
    pub waiting: Vec<Op>,
}

impl Plain {
    pub fn new(alloc: Global) -> Plain {
        Plain {
            accepted: PlainReplica::new(alloc),
            waiting: Vec::new(alloc),
        }
    }

    /// Takes in a copy of the operation, and tells whether it was accepted or waits now and did not before.
    pub fn take_in(&mut self, alloc: Global, op: &Op) -> Result<bool, Fail> {
        // Its equal waits, or another one of its identifier.
        let is_excluded = self.waiting.iter().any(|other| {
            *other == *op || other.id().is_some() && other.id() == op.id()
        });
        if is_excluded {
            return Ok(false);
        }
        match self.accepted.verdict(op) {
            Verdict::Ready => self.accepted.accept(op.clone_in(alloc)?)?,
            Verdict::Missing(_) => self.waiting.push(op.clone_in(alloc)?)?,
            Verdict::Again | Verdict::Conflict | Verdict::Stray(_) => return Ok(false),
        }
        for _ in 0..self.waiting.len() {
            let decided = self.waiting.iter().position(|op| {
                matches!(
                    self.accepted.verdict(op),
                    Verdict::Ready | Verdict::Stray(_)
                )
            });
            let Some(at) = decided else {
                break;
            };
            let op = self.waiting.remove(at);
            if self.accepted.verdict(&op) == Verdict::Ready {
                self.accepted.accept(op)?;
            }
        }
        Ok(true)
    }

    pub fn take_all(&mut self, alloc: Global, ops: &[Op]) -> Result<(), Fail> {
        for op in ops {
            self.take_in(alloc, op)?;
        }
        Ok(())
    }
}

/// What the replica prints.
pub fn printed(alloc: Global, replica: &PlainReplica) -> Result<Vec<u8>, Fail> {
    let mut printed = MemSink::new(alloc, 4096, Vec::new(alloc));
    replica.print_into(&mut printed)?;
    Ok(Vec::from_slice(alloc, printed.written())?)
}
