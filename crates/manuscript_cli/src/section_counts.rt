//! How many operations add, drop, move and retitle a section.
ghost use Rattle.std.specs.Prelude.{◌≡◌, ◌≤◌, drop, length};
ghost use Rattle.fugue_ids.specs.declared.limits.TheConstants.{MOST_OPERATIONS};
ghost use Rattle.op_runs.specs.Finding.{op_of};
ghost use Rattle.origin_model.specs.declared.operations.Role.TheVariants.{Section as section_role};
ghost use Rattle.origin_model.specs.operations.History.{accepted};
ghost use Rattle.origin_model.specs.operations.Verdict.{fits};
ghost use Rattle.catalogue_notes.specs.Lift.{is_section as is_section_in};
ghost use Rattle.manuscript_cli.specs.SectionCounts.{changes_section as changes_section_in, count_of_kind as count_in};
ghost use Rattle.manuscript_cli.specs.SectionCounts.{section_counts as counts_in};

use catalogue_notes::{MOVE_CODE, RETITLE_CODE};
use command_kinds::SectionCounts;
use fugue_ids::{ElementId, Op};
use op_runs::{OpRef, OpSlice};
use replica_core::Replica;

/// What an operation may do to a section.
#[derive(Clone, Copy)]
enum SectionChange {
    Adds,
    Drops,
    Moves,
    Retitles,
}

/// Whether the operation is a Section.
fn is_section_op(op: &OpRef<'_>) -> bool
    ensures { result ≡ fits section_role (op_of op.now) }
{
    match op {
        OpRef::Letter(_, _) => false,
        OpRef::Deletion(_) => false,
        OpRef::Whole(op) => matches!(op, Op::Section { .. }),
    }
}

fn is_section(replica: &Replica, id: ElementId) -> bool
    ensures { result ≡ is_section_in replica.now.held.history id }
{
    match replica.holder(id) {
        Some(op) => is_section_op(&op),
        None => false,
    }
}

/// Whether the operation does that to a section.
fn changes_section(replica: &Replica, change: SectionChange, op: &Op) -> bool
    ensures { result ≡ changes_section_in replica.now.held.history change op.now }
{
    match (change, op) {
        (SectionChange::Adds, Op::Section { .. }) => true,
        (SectionChange::Drops, Op::Delete { target }) => is_section(replica, *target),
        (SectionChange::Moves, Op::Note { code, .. }) => *code == MOVE_CODE,
        (SectionChange::Retitles, Op::Note { code, .. }) => *code == RETITLE_CODE,
        _ => false,
    }
}

/// The same of an operation of a slice.
fn is_change(replica: &Replica, change: SectionChange, op: &OpRef<'_>) -> bool
    ensures { result ≡ changes_section_in replica.now.held.history change (op_of op.now) }
{
    match op {
        OpRef::Letter(_, _) => false,
        OpRef::Deletion(target) => match change {
            SectionChange::Drops => is_section(replica, *target),
            SectionChange::Adds => false,
            SectionChange::Moves => false,
            SectionChange::Retitles => false,
        },
        OpRef::Whole(op) => changes_section(replica, change, op),
    }
}

/// How many of the operations do that to a section.
fn count_of(replica: &Replica, ops: &OpSlice<'_>, change: SectionChange) -> u32
    requires { length ops.now ≤ MOST_OPERATIONS }
    ensures { result ≡ count_in replica.now.held.history ops.now change }
{
    let mut count = 0;
    let mut rest = ops.copy();
    'ops: while let Some(op) = rest.next_op() {
        if is_change(replica, change, &op) {
            count += 1;
        }
    }
    count
}

/// How many of the operations after so many accepted ones add, drop, move and retitle a section.
pub(crate) fn section_counts(replica: &Replica, before: usize) -> SectionCounts
    ensures { result ≡ counts_in replica.now.held.history (drop before (accepted replica.now.held.history)) }
{
    let ops = replica.accepted_from(before);
    SectionCounts {
        added: count_of(replica, &ops, SectionChange::Adds),
        dropped: count_of(replica, &ops, SectionChange::Drops),
        moved: count_of(replica, &ops, SectionChange::Moves),
        retitled: count_of(replica, &ops, SectionChange::Retitles),
    }
}
