//! A comment made on a passage: a reader names it by its text, where that stands once.
ghost use Rattle.std.specs.Prelude.{◌≡◌, ◌≢◌, [], true, Err, IfErr, IfOk, OnErr, OnOk, option_map};
ghost use Rattle.origin_model.specs.edits.Noting.{ShowsAsBefore, note_refusal};
ghost use Rattle.origin_model.specs.edits.State.{IsSound};
ghost use Rattle.origin_model.specs.taking.Taking.{IsSettled};
ghost use Rattle.margin_notes.specs.Commenting.{IsCommentMade, IsCommented};
ghost use Rattle.margin_notes.specs.Comments.{is_text};
ghost use Rattle.passage_remarks.specs.Remarking.{IsOnly, IsRemarked, Refuses, as_remark_fault, of_comment_fault};
ghost use Rattle.passage_remarks.specs.Remarking.{remark_refusal};

use crate::finding::{Found, Spot, find_passage};
use fugue_ids::{Body, NoMemory};
use margin_notes::{CommentFault, comment};
use replica_core::Replica;
use std::alloc::Global;

/// Why there is no comment, in the order in which the causes are looked for. Nothing was changed.
#[derive(Clone, Copy, Debug, PartialEq, Eq)]
pub enum RemarkFault {
    /// The passage stands in no arranged section.
    NotFound,
    /// It stands at so many places, overlapping ones counted, or at more where this is the greatest number.
    FoundOften(u32),
    /// The note needs a counter past the greatest number: the greatest counter so far.
    IdsSpent(u32),
    /// More would be accepted or pending than may: how many are now.
    TooMany(u32),
    NoMemory,
}

impl From<NoMemory> for RemarkFault {
    ghost use Rattle.std.specs.Prelude.{◌≡◌};
    ghost use Rattle.passage_remarks.specs.declared.remarking.RemarkFault.TheVariants.{NoMemory as no_memory};

    ghost from_gives = { λ _ e. e ≡ no_memory };

    fn from(_e: NoMemory) -> RemarkFault {
        RemarkFault::NoMemory
    }
}

/// A comment on clusters that are there is refused as its note is.
fn fault_of(fault: CommentFault) -> RemarkFault
    ensures { result ≡ of_comment_fault fault }
{
    match fault {
        CommentFault::IdsSpent(greatest) => RemarkFault::IdsSpent(greatest),
        CommentFault::TooMany(held) => RemarkFault::TooMany(held),
        CommentFault::NoSection | CommentFault::OutOfRange | CommentFault::NoMemory => {
            RemarkFault::NoMemory
        }
    }
}

/// The one place of the passage.
fn one_spot(alloc: Global, replica: &Replica, passage: &[u8]) -> Result<Spot, RemarkFault>
    requires { passage.now ≢ [] }
    ensures once { IfOk result (IsOnly replica.now.held.history passage.now) }
    ensures refused { IfErr result (λ fault. Refuses (remark_refusal replica.now passage.now) (Err fault)) }
    ensures sound { IsSound replica.now }
{
    match find_passage(alloc, replica, passage)? {
        Found::Nowhere => Err(RemarkFault::NotFound),
        Found::Once(spot) => Ok(spot),
        Found::Often(count) => Err(RemarkFault::FoundOften(count)),
    }
}

/// The number in 32 bits: no text that is held has more clusters.
fn narrow(number: usize) -> Result<u32, NoMemory>
    ensures { IfOk result (λ n. n ≡ number) }
{
    match u32::try_from(number) {
        Ok(n) => Ok(n),
        Err(_) => Err(NoMemory),
    }
}

/// Comments on the clusters of a place.
fn comment_at(replica: &mut Replica, spot: Spot, body: Body) -> Result<(), RemarkFault>
    requires settled { IsSettled replica.old.held }
    requires text { is_text body ≡ true }
    ensures made { OnOk result (IsCommentMade replica.old replica.new spot.section spot.span.first spot.span.count body 1) }
    ensures spanned { OnOk result (IsCommented replica.old replica.new spot.section spot.span.first spot.span.count body) }
    ensures refused { Refuses (option_map as_remark_fault (note_refusal replica.old)) result }
    ensures shown { ShowsAsBefore replica.old replica.new }
    ensures unmade { OnErr result (replica.new ≡ replica.old) }
    ensures settled { IsSettled replica.new.held }
    ensures sound { IsSound replica.old → IsSound replica.new }
{
    let first = narrow(spot.span.first)?;
    let count = narrow(spot.span.count)?;
    if count == 0 {
        return Err(RemarkFault::NoMemory);
    }
    match comment(replica, spot.section, first, count, body) {
        Ok(_) => Ok(()),
        Err(fault) => Err(fault_of(fault)),
    }
}

/// Comments on the clusters that have bytes of the passage at its one place in the arranged sections.
pub fn remark(
    alloc: Global,
    replica: &mut Replica,
    passage: &[u8],
    body: Body,
) -> Result<(), RemarkFault>
    requires settled { IsSettled replica.old.held }
    requires some { passage.now ≢ [] }
    requires text { is_text body ≡ true }
    ensures made { OnOk result (IsRemarked replica.old replica.new passage.now body) }
    ensures refused { Refuses (remark_refusal replica.old passage.now) result }
    ensures shown { ShowsAsBefore replica.old replica.new }
    ensures unmade { OnErr result (replica.new ≡ replica.old) }
    ensures settled { IsSettled replica.new.held }
    ensures sound { IsSound replica.new }
{
    let spot = one_spot(alloc, replica, passage)?;
    comment_at(replica, spot, body)
}
