//! A comment made: a note that names the first and the last scalar of a passage.
ghost use Rattle.std.specs.Prelude.{◌≡◌, ◌↔◌, ◌<◌, ◌∷◌, [], true, Err, IfErr, IfOk, IsSome, None, Some, OnErr, OnOk};
ghost use Rattle.origin_model.specs.edits.Noting.{ShowsAsBefore};
ghost use Rattle.origin_model.specs.edits.Refusal.{section_shown};
ghost use Rattle.origin_model.specs.edits.State.{IsSound};
ghost use Rattle.origin_model.specs.taking.Taking.{IsSettled};
ghost use Rattle.margin_notes.specs.Commenting.{HasNoRange, IsCommentMade, IsCommented, IsRange, NamesPassage};
ghost use Rattle.margin_notes.specs.Commenting.{RefusesComment, as_comment_fault, shown_element};
ghost use Rattle.margin_notes.specs.Comments.{is_text};

use crate::COMMENT_CODE;
use cluster_text::cluster_span;
use fugue_ids::{Body, ElementId, NoMemory, NoteNames};
use replica_core::{EditFault, Replica};

/// Why there is no comment, in the order in which the causes are looked for. Nothing was changed.
#[derive(Clone, Copy, Debug, PartialEq, Eq)]
pub enum CommentFault {
    /// There are not so many visible sections.
    NoSection,
    /// The section has fewer clusters.
    OutOfRange,
    /// The note needs a counter past the greatest number: the greatest counter so far.
    IdsSpent(u32),
    /// More would be accepted or pending than may: how many are now.
    TooMany(u32),
    NoMemory,
}

impl From<NoMemory> for CommentFault {
    ghost use Rattle.std.specs.Prelude.{◌≡◌};
    ghost use Rattle.margin_notes.specs.declared.commenting.CommentFault.TheVariants.{NoMemory as no_memory};

    ghost from_gives = { λ _ e. e ≡ no_memory };

    fn from(_e: NoMemory) -> CommentFault {
        CommentFault::NoMemory
    }
}

/// A note is refused for no section and for no position.
fn fault_of(fault: EditFault) -> CommentFault
    ensures { result ≡ as_comment_fault fault }
{
    match fault {
        EditFault::IdsSpent(greatest) => CommentFault::IdsSpent(greatest),
        EditFault::TooMany(held) => CommentFault::TooMany(held),
        EditFault::NoSection | EditFault::OutOfRange | EditFault::NoMemory =>
            CommentFault::NoMemory,
    }
}

/// How many scalars of a visible section stand before n of its clusters, and how many these have.
fn find_range(
    replica: &Replica,
    section: usize,
    at: u32,
    n: u32,
) -> Result<(usize, usize), CommentFault>
    ensures found { IfOk result (IsRange replica.now section at n) }
    ensures none { IfErr result (HasNoRange replica.now section at n) }
    ensures sound { IsSound replica.now }
{
    let Some(text) = replica.text_of(section)? else {
        return Err(CommentFault::NoSection);
    };
    cluster_span(text.as_str(), at, n).ok_or(CommentFault::OutOfRange)
}

/// The element of the scalar with so many visible ones before it.
fn scalar_at(replica: &Replica, section: usize, at: usize) -> ElementId
    requires { IsSome (shown_element replica.now section at) }
    ensures { shown_element replica.now section at ≡ Some result }
{
    replica.scalar_at(section, at).unwrap()
}

/// The names of a comment on n clusters of a visible section.
fn find_names(replica: &Replica, section: usize, at: u32, n: u32) -> Result<NoteNames, CommentFault>
    requires { 0 < n }
    ensures found { IfOk result (λ names. NamesPassage replica.now section at n names) }
    ensures none { IfErr result (HasNoRange replica.now section at n) }
    ensures sound { IsSound replica.now }
{
    let (start, count) = find_range(replica, section, at, n)?;
    let first = scalar_at(replica, section, start);
    let last = scalar_at(replica, section, start + count - 1);
    let names = NoteNames::read(&[first, last]).unwrap();
    Ok(names)
}

/// Comments on n clusters, from the cluster `at` on, of the section with so many visible ones before it. Returns 1, the
/// number of operations that were made.
pub fn comment(
    replica: &mut Replica,
    section: usize,
    at: u32,
    n: u32,
    body: Body,
) -> Result<u32, CommentFault>
    requires settled { IsSettled replica.old.held }
    requires some { 0 < n }
    requires text { is_text body ≡ true }
    ensures made { IfOk result (λ count. IsCommentMade replica.old replica.new section at n body count) }
    ensures spanned { OnOk result (IsCommented replica.old replica.new section at n body) }
    ensures no_section { (result ≡ Err CommentFault.NoSection) ↔ (section_shown replica.old section ≡ None) }
    ensures refused { RefusesComment replica.old section at n result }
    ensures shown { ShowsAsBefore replica.old replica.new }
    ensures unmade { OnErr result (replica.new ≡ replica.old) }
    ensures settled { IsSettled replica.new.held }
    ensures sound { IsSound replica.new }
{
    let names = find_names(replica, section, at, n)?;
    match replica.note(names, COMMENT_CODE, body) {
        Ok(made) => Ok(made),
        Err(fault) => Err(fault_of(fault)),
    }
}
