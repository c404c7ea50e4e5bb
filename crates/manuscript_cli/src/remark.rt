//! The command `remark`: a comment on a passage, which is named by its text.
ghost use Rattle.std.specs.Prelude.{◌≡◌};
ghost use Rattle.manuscript_cli.specs.Remark.{remark_on, remark_refused};
ghost use Rattle.passage_remarks.specs.Spelling.{passage_of};

use crate::comments::text_body;
use command_kinds::{MakesNote, Refusal};
use passage_remarks::{RemarkFault, read_passage, remark};
use replica_core::Replica;
use std::alloc::Global;

/// The passage that the word spells gets a comment.
#[derive(Clone, Copy)]
pub(crate) struct Remark<'a> {
    pub passage: &'a str,
    pub text: &'a str,
}

impl<'a> MakesNote for Remark<'a> {
    ghost note_on = { λ what. remark_on (passage_of what.passage.now) what.text.now };

    fn make(&self, alloc: Global, replica: &mut Replica) -> Result<(), Refusal> {
        // The words were read as a passage and a comment's text, so memory alone can be wanting.
        let Some(text) = text_body(alloc, self.text) else {
            return Err(Refusal::NoMemory);
        };
        let Some(passage) = read_passage(alloc, self.passage.as_bytes()) else {
            return Err(Refusal::NoMemory);
        };
        match remark(alloc, replica, passage.as_slice(), text) {
            Ok(()) => Ok(()),
            Err(fault) => Err(refusal_of(fault)),
        }
    }
}

/// The refusal that a fault is.
fn refusal_of(fault: RemarkFault) -> Refusal
    ensures { result ≡ remark_refused fault }
{
    match fault {
        RemarkFault::NotFound => Refusal::PassageNotFound,
        RemarkFault::FoundOften(count) => Refusal::FoundOften(count),
        RemarkFault::IdsSpent(counter) => Refusal::IdsSpent(counter),
        RemarkFault::TooMany(held) => Refusal::TooMany(held),
        RemarkFault::NoMemory => Refusal::NoMemory,
    }
}
