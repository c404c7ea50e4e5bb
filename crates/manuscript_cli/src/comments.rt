//! The commands `comment` and `comments`: a comment is made, and all comments are printed with where they stand.
ghost use Rattle.std.specs.Prelude.{◌≡◌, IfSome, true};
ghost use Rattle.margin_notes.specs.Comments.{is_text as is_text_of};
ghost use Rattle.manuscript_cli.specs.Margins.{comment_on, comment_refused, comments_reports};

use crate::number::index_of;
use command_kinds::{MakesNote, Refusal, Report, ReportResult, gone_out};
use fugue_ids::{Body, Failed};
use margin_notes::{CommentFault, MarginFault, comment, is_text, write_comments};
use outer_ports::Sink;
use replica_core::Replica;
use std::alloc::Global;

/// So many clusters of a section, which counts from 1, get a comment, from the first one on, which counts from 0.
#[derive(Clone, Copy)]
pub(crate) struct NewComment<'a> {
    pub section: u32,
    pub first: u32,
    pub count: u32,
    pub text: &'a str,
}

impl<'a> MakesNote for NewComment<'a> {
    ghost note_on = { λ what. comment_on what.section what.first what.count what.text.now };

    fn make(&self, alloc: Global, replica: &mut Replica) -> Result<(), Refusal> {
        // The word was read as a comment's text, so memory alone can be wanting.
        let Some(text) = text_body(alloc, self.text) else {
            return Err(Refusal::NoMemory);
        };
        if self.count == 0 {
            return Err(Refusal::NoMemory);
        }
        match comment(
            replica,
            index_of(self.section),
            self.first,
            self.count,
            text,
        ) {
            Ok(_) => Ok(()),
            Err(fault) => Err(refusal_of(fault, self.section)),
        }
    }
}

/// The text as a note's body.
pub(crate) fn text_body(alloc: Global, text: &str) -> Option<Body>
    ensures { IfSome result (λ body. (body ≡ text.now) × (is_text_of text.now ≡ true)) }
{
    if !is_text(text.as_bytes()) {
        return None;
    }
    Body::read(alloc, text.as_bytes()).ok()
}

/// The refusal that a fault is, where the words ask for this section.
fn refusal_of(fault: CommentFault, section: u32) -> Refusal
    ensures { result ≡ comment_refused section fault }
{
    match fault {
        CommentFault::NoSection => Refusal::NoSection(section),
        CommentFault::OutOfRange => Refusal::OutOfRange,
        CommentFault::IdsSpent(counter) => Refusal::IdsSpent(counter),
        CommentFault::TooMany(held) => Refusal::TooMany(held),
        CommentFault::NoMemory => Refusal::NoMemory,
    }
}

/// Where the comments stand, and what they say.
pub(crate) struct Comments;

impl Report for Comments {
    ghost Tells = { λ what. comments_reports };

    fn write<O: Sink>(&self, alloc: Global, replica: &Replica, output: &mut O) -> ReportResult {
        match write_comments(alloc, replica, output) {
            Ok(()) => gone_out(Ok(())),
            Err(MarginFault::SinkFault) => gone_out(Err(Failed)),
            Err(MarginFault::NoMemory) => Err(Refusal::NoMemory),
        }
    }

    fn laws(&self) {}
}
