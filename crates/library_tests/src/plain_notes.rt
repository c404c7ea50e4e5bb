//! Moves, retitles and versions as their definitions have them, by a plain program that goes through all operations for
//! each answer.

use crate::plain::printed;
use catalogue_notes::{MOVE_CODE, RETITLE_CODE};
use fugue_ids::{ElementId, Op, Title};
use origin_model::{Place, PlainReplica, Verdict};
use std::alloc::Global;
use std::test::Fail;
use version_views::VERSION_CODE;

/// What a note says of a section: its stamp and its own identifier tell which one wins.
#[derive(Clone, Copy)]
struct Claim {
    stamp: u32,
    id: ElementId,
    section: ElementId,
}

/// The sections and the valid moves, as sections, and the valid moves and retitles.
#[derive(Drop)]
struct Claims {
    lift: PlainReplica,
    moves: Vec<Claim>,
    retitles: Vec<Claim>,
}

/// A section as it is, and a move as a section.
fn lifted(alloc: Global, op: &Op) -> Result<Option<Op>, Fail> {
    let Op::Note {
        code,
        names,
        body,
        id,
    } = op
    else {
        return match op {
            Op::Section { .. } => Ok(Some(op.clone_in(alloc)?)),
            _ => Ok(None),
        };
    };
    let (left, right) = match (names.as_slice(), body.as_slice()) {
        ([_], [_, _, _, _, 0]) => (None, None),
        ([_, left], [_, _, _, _, 1]) => (Some(*left), None),
        ([_, right], [_, _, _, _, 2]) => (None, Some(*right)),
        ([_, left, right], [_, _, _, _, 3]) => (Some(*left), Some(*right)),
        _ => return Ok(None),
    };
    if *code != MOVE_CODE {
        return Ok(None);
    }
    Ok(Some(Op::Section {
        id: *id,
        left,
        right,
        title: Title::read(alloc, "-")?,
    }))
}

/// The title that a retitle gives.
fn new_title(alloc: Global, op: &Op) -> Option<Title> {
    let Op::Note {
        body,
        names,
        code,
        ..
    } = op
    else {
        return None;
    };
    match (names.as_slice(), body.as_slice()) {
        ([_], [_, _, _, _, title @ ..]) if *code == RETITLE_CODE => {
            let text = std::str::from_utf8(title).ok()?;
            Title::read(alloc, text).ok()
        }
        _ => None,
    }
}

fn claim_in(op: &Op) -> Option<Claim> {
    let Op::Note {
        names,
        body,
        id,
        ..
    } = op
    else {
        return None;
    };
    let [section, ..] = names.as_slice() else {
        return None;
    };
    let [a, b, c, d, ..] = body.as_slice() else {
        return None;
    };
    Some(Claim {
        stamp: u32::from_be_bytes([*a, *b, *c, *d]),
        id: *id,
        section: *section,
    })
}

pub fn is_withdrawn(ops: &[Op], note: ElementId) -> bool {
    ops.iter().any(|op| matches!(op, Op::Delete { target } if *target == note))
}

/// Whether the operation is no claim, or one on a section.
fn is_on_section(ops: &[Op], op: &Op) -> bool {
    match claim_in(op) {
        Some(claim) => {
            ops.iter().any(|op| matches!(op, Op::Section { id, .. } if *id == claim.section))
        }
        None => true,
    }
}

/// The claims on sections: a move counts where its section is Ready on what was lifted before.
fn claims_in(alloc: Global, ops: &[Op]) -> Result<Claims, Fail> {
    let mut lift = PlainReplica::new(alloc);
    let mut moves = Vec::new(alloc);
    let mut retitles = Vec::new(alloc);
    for op in ops {
        if !is_on_section(ops, op) {
            continue;
        }
        if new_title(alloc, op).is_some() {
            retitles.extend(claim_in(op))?;
        }
        if let Some(section) = lifted(alloc, op)? {
            if accept(&mut lift, section)? {
                moves.extend(claim_in(op))?;
            }
        }
    }
    Ok(Claims {
        lift,
        moves,
        retitles,
    })
}

/// The one with the greatest stamp, and then with the greatest identifier, of those on the section that are not
/// withdrawn: its identifier, or else the section's own.
fn winner(ops: &[Op], claims: &[Claim], section: ElementId) -> ElementId {
    let mut best = (0, section);
    let mut found = false;
    for claim in claims {
        let is_greater = !found || best < (claim.stamp, claim.id);
        if is_greater && claim.section == section && !is_withdrawn(ops, claim.id) {
            best = (claim.stamp, claim.id);
            found = true;
        }
    }
    best.1
}

/// Accepts an operation that is Ready, and tells whether it is.
fn accept(plain: &mut PlainReplica, op: Op) -> Result<bool, Fail> {
    let is_ready = plain.verdict(&op) == Verdict::Ready;
    if is_ready {
        plain.accept(op)?;
    }
    Ok(is_ready)
}

/// The heading of a section.
fn heading(alloc: Global, ops: &[Op], claims: &Claims, section: ElementId) -> Result<Title, Fail> {
    let ops_source = winner(ops, &claims.retitles, section);
    let title = match ops.iter().find(|op| op.id() == Some(ops_source)) {
        Some(Op::Section { title, .. }) => Some(title.clone_in(alloc)?),
        Some(op) => new_title(alloc, op),
        None => None,
    };
    Ok(title.ok_or("a title")?)
}

/// What is written of the sections as they are arranged: the manuscript of a replica that has the shown sections alone,
/// under their headings, in the order of their positions.
pub fn arranged_text(alloc: Global, plain: &PlainReplica) -> Result<Vec<u8>, Fail> {
    let claims = claims_in(alloc, plain.ops())?;
    let shown = plain.shown(Place::Catalogue)?;
    let mut new = PlainReplica::new(alloc);
    let mut last = None;
    for x in &claims.lift.elements(Place::Catalogue)? {
        let here = shown.iter().find(|section| winner(plain.ops(), &claims.moves, **section) == *x);
        if let Some(section) = here {
            let title = heading(alloc, plain.ops(), &claims, *section)?;
            let op = Op::Section {
                id: *section,
                left: last,
                right: None,
                title,
            };
            accept(&mut new, op)?;
            last = Some(*section);
        }
    }
    for op in plain.ops() {
        if matches!(op, Op::Text { .. } | Op::Delete { .. }) {
            accept(&mut new, op.clone_in(alloc)?)?;
        }
    }
    printed(alloc, &new)
}

/// The manuscript of the first n operations, which are accepted anew.
pub fn view_text(alloc: Global, ops: &[Op], n: usize) -> Result<Vec<u8>, Fail> {
    let mut plain = PlainReplica::new(alloc);
    for op in ops.iter().take(n) {
        accept(&mut plain, op.clone_in(alloc)?)?;
    }
    printed(alloc, &plain)
}

/// The name of the version that an operation is in a file of that number.
pub fn version_name<'a>(ops: &[Op], number: u32, op: &'a Op) -> Option<&'a [u8]> {
    let Op::Note {
        body,
        code,
        names,
        id,
    } = op
    else {
        return None;
    };
    let name = body.as_slice();
    let is_own = id.replica == number && *code == VERSION_CODE && names.as_slice().is_empty();
    let is_line = !name.contains(&b'\n') && !name.contains(&b'\r');
    let is_name = is_line && (1..=120).contains(&name.len()) && std::str::from_utf8(name).is_ok();
    if is_own && is_name && !is_withdrawn(ops, *id) {
        Some(name)
    } else {
        None
    }
}
