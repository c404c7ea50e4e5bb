//! Comments of three authors who edit around them, beside a plain program of the definitions.

use crate::assertions::{equal_at, holds_at};
use crate::edits::Edit::{self, Add, Cut, Drop as DropSection, Put};
use crate::edits::make;
use crate::plain::Plain;
use crate::plain_notes::is_withdrawn;
use crate::replicas::{accepted_by, feed_accepted, feed_ops};
use crate::turns::Dice;
use fugue_ids::{Body, ElementId, Op};
use margin_notes::{COMMENT_CODE, CommentFault, comment, is_text, write_comments};
use origin_model::{Place, PlainReplica};
use outer_ports::MemSink;
use replica_core::Replica;
use std::alloc::Global;
use std::process::Abort;
use std::test::Fail;

/// The anchors of a note that has the shape of a comment.
fn anchors(op: &Op) -> Option<(ElementId, ElementId)> {
    let Op::Note {
        names,
        code,
        body,
        ..
    } = op
    else {
        return None;
    };
    let bytes = body.as_slice();
    let is_line = !bytes.is_empty() && !bytes.contains(&b'\n') && !bytes.contains(&b'\r');
    match names.as_slice() {
        [first, last] if *code == COMMENT_CODE && is_line && std::str::from_utf8(bytes).is_ok() => {
            Some((*first, *last))
        }
        _ => None,
    }
}

/// The two numbers of a comment in the section, where it has it: how many visible elements stand before the first anchor
/// and how many up to the last one.
fn span(
    plain: &PlainReplica,
    section: ElementId,
    first: ElementId,
    last: ElementId,
) -> Result<Option<(usize, usize)>, Fail> {
    let all = plain.elements(Place::Section(section))?;
    let shown = plain.shown(Place::Section(section))?;
    let mut seen: usize = 0;
    let mut from = None;
    for id in &all {
        if *id == first {
            from = Some(seen);
        }
        if shown.contains(id) {
            seen = seen.saturating_add(1);
        }
        if *id == last {
            return Ok(from.map(|from| (from, seen)));
        }
    }
    Ok(None)
}

/// The operations by identifier: Deletes have none.
fn by_id(alloc: Global, ops: &[Op]) -> Result<Vec<(ElementId, usize)>, Fail> {
    let mut found = Vec::new(alloc);
    for (at, op) in ops.iter().enumerate() {
        if let Some(id) = op.id() {
            found.push((id, at))?;
        }
    }
    found.sort_unstable();
    Ok(found)
}

/// The lines of all comments, by section and then by identifier.
fn margins(alloc: Global, plain: &PlainReplica) -> Result<Vec<u8>, Fail> {
    let mut text = Vec::new(alloc);
    let ops = by_id(alloc, plain.ops())?;
    for (k, section) in plain.shown(Place::Catalogue)?.iter().enumerate() {
        for (id, at) in &ops {
            let Some(op) = plain.ops().get(*at) else {
                continue;
            };
            let (Some((first, last)), Op::Note { body, .. }) = (anchors(op), op) else {
                continue;
            };
            let span = span(plain, *section, first, last)?;
            if let Some((from, to)) = span
                && !is_withdrawn(plain.ops(), *id)
            {
                let number = k.saturating_add(1);
                let head = format!(in alloc; "{number} {from} {to} ")?;
                text.extend_from_slice(head.as_bytes())?;
                text.extend_from_slice(body.as_slice())?;
                text.push(b'\n')?;
            }
        }
    }
    Ok(text)
}

/// Whether these lines are written of the comments.
fn lists(alloc: Global, replica: &Replica, text: &[u8]) -> Result<bool, Fail> {
    let mut written = MemSink::new(alloc, 1_000_000, Vec::new(alloc));
    write_comments(alloc, replica, &mut written)?;
    Ok(written.written() == text)
}

/// Whether the comments are written as the plain program writes them.
fn lists_as_plain(alloc: Global, replica: &Replica) -> Result<bool, Fail> {
    let mut plain = Plain::new(alloc);
    let ops = accepted_by(alloc, replica)?;
    plain.take_all(alloc, &ops)?;
    let wanted = margins(alloc, &plain.accepted)?;
    Ok(plain.waiting.is_empty() && lists(alloc, replica, &wanted)?)
}

/// Comments on scalars, which are the clusters in these tests.
fn comment_on(
    rt: &impl Abort,
    alloc: Global,
    replica: &mut Replica,
    section: usize,
    at: u32,
    n: u32,
) -> Result<(), Fail> {
    let end = (at as usize).saturating_add(n as usize);
    let wanted = match replica.text_len(section) {
        None => Err(CommentFault::NoSection),
        Some(len) if end > len => Err(CommentFault::OutOfRange),
        Some(_) => Ok(1),
    };
    let body = Body::read(alloc, b"check")?;
    assert!(rt; replica.is_settled() && n > 0 && is_text(body.as_slice()));
    equal_at(
        rt,
        &(section, at, n),
        comment(replica, section, at, n, body),
        wanted,
    );
    Ok(())
}

/// An author comments, withdraws a note or deletes an element, or does it again, or edits.
fn act(rt: &impl Abort, alloc: Global, dice: &mut Dice, replica: &mut Replica) -> Result<(), Fail> {
    let section = dice.roll(replica.section_count().saturating_add(1));
    let shown = replica.text_len(section).unwrap_or(0);
    match dice.roll(8) {
        0..=2 => {
            let at = dice.roll(shown.saturating_add(1)).min(1_000_000) as u32;
            let n = dice.roll(4).min(3) as u32 + 1;
            comment_on(rt, alloc, replica, section, at, n)
        }
        3 => {
            let ops = accepted_by(alloc, replica)?;
            let ids = by_id(alloc, &ops)?;
            match ids.get(dice.roll(ids.len())) {
                Some((id, _)) => feed_ops(rt, alloc, replica, &[Op::Delete { target: *id }]),
                None => Ok(()),
            }
        }
        _ => {
            let edit = dice.edit(replica);
            let _ = make(rt, alloc, replica, edit)?;
            Ok(())
        }
    }
}

/// Rounds: each of the three acts, one of them hears of another, and their comments are compared.
fn play(
    rt: &impl Abort,
    alloc: Global,
    dice: &mut Dice,
    a: &mut Replica,
    b: &mut Replica,
    c: &mut Replica,
) -> Result<(), Fail> {
    for round in 0..24 {
        act(rt, alloc, dice, a)?;
        act(rt, alloc, dice, b)?;
        act(rt, alloc, dice, c)?;
        match dice.roll(3) {
            0 => feed_accepted(rt, alloc, b, a)?,
            1 => feed_accepted(rt, alloc, c, b)?,
            _ => feed_accepted(rt, alloc, a, c)?,
        }
        for replica in [&*a, &*b, &*c] {
            holds_at(rt, &round, lists_as_plain(alloc, replica)?);
        }
    }
    Ok(())
}

/// Edits after the comment, and what is listed then.
const ROWS: &[(&[Edit], &str)] = &[
    (&[], "1 1 4 check\n"),
    (&[Cut(0, 1, 1), Put(0, 0, "xy")], "1 3 5 check\n"),
    (&[Cut(0, 3, 2)], "1 3 3 check\n"),
    (&[Add(0, "U")], "2 3 3 check\n"),
    (&[DropSection(1)], ""),
];

fn list_rows(rt: &impl Abort, alloc: Global, replica: &mut Replica) -> Result<(), Fail> {
    let _ = make(rt, alloc, replica, Add(0, "T"))?;
    let _ = make(rt, alloc, replica, Put(0, 0, "ABCDE"))?;
    comment_on(rt, alloc, replica, 0, 1, 3)?;
    for (edits, wanted) in ROWS {
        for edit in *edits {
            let _ = make(rt, alloc, replica, *edit)?;
        }
        holds_at(rt, wanted, lists(alloc, replica, wanted.as_bytes())?);
    }
    Ok(())
}

#[test]
fn comments_are_those_of_the_plain_program(rt: HostRuntime) -> Result<(), Fail> {
    let mut replica = Replica::new(rt.alloc(), 1, 100, 100)?;
    let done = list_rows(&rt, rt.alloc(), &mut replica);
    drop(replica);
    done?;
    for seed in 1..5 {
        let mut a = Replica::new(rt.alloc(), 1, 1_000, 1_000)?;
        let mut b = Replica::new(rt.alloc(), 2, 1_000, 1_000)?;
        let mut c = Replica::new(rt.alloc(), 3, 1_000, 1_000)?;
        let mut dice = Dice { state: seed };
        let done = play(&rt, rt.alloc(), &mut dice, &mut a, &mut b, &mut c);
        drop(a);
        drop(b);
        drop(c);
        done?;
    }
    Ok(())
}
