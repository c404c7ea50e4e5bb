//! Which notes are moves and retitles.
ghost use Rattle.std.specs.Prelude.{◌≡◌, option_map};
ghost use Rattle.catalogue_notes.specs.Claims.{move_in as move_on, move_of as move_with, origins_of as origins_with};
ghost use Rattle.catalogue_notes.specs.Claims.{retitle_in as retitle_on, retitle_of as retitle_with};
ghost use Rattle.catalogue_notes.specs.Readings.{move_claim, read_origins, retitle_candidate};

use crate::{MOVE_CODE, RETITLE_CODE};
use fugue_ids::{ElementId, LONGEST_TITLE, Op, is_line};

/// A note on a section, by what the winner is chosen by.
#[derive(Clone, Copy)]
pub(crate) struct Candidate {
    pub id: ElementId,
    pub section: ElementId,
    pub stamp: u32,
}

/// Where a move puts its section.
#[derive(Clone, Copy)]
pub(crate) struct Gap {
    pub left: Option<ElementId>,
    pub right: Option<ElementId>,
}

#[derive(Clone, Copy)]
pub(crate) struct Move {
    pub candidate: Candidate,
    pub gap: Gap,
}

/// The origins that the names after the section are, by the form.
fn gap_of(form: u8, names: &[ElementId]) -> Option<Gap>
    ensures { option_map read_origins result ≡ origins_with form names.now }
{
    match (form, names) {
        (0, []) => Some(Gap {
            left: None,
            right: None,
        }),
        (1, [left]) => Some(Gap {
            left: Some(*left),
            right: None,
        }),
        (2, [right]) => Some(Gap {
            left: None,
            right: Some(*right),
        }),
        (3, [left, right]) => Some(Gap {
            left: Some(*left),
            right: Some(*right),
        }),
        _ => None,
    }
}

fn move_of(id: ElementId, names: &[ElementId], body: &[u8]) -> Option<Move>
    ensures { option_map move_claim result ≡ move_with id names.now body.now }
{
    let [section, origins @ ..] = names else {
        return None;
    };
    let [a, b, c, d, form] = body else {
        return None;
    };
    let gap = gap_of(*form, origins)?;
    let stamp = u32::from_be_bytes([*a, *b, *c, *d]);
    Some(Move {
        candidate: Candidate {
            id,
            section: *section,
            stamp,
        },
        gap,
    })
}

/// What the operation says, where it has the shape of a move.
pub(crate) fn move_in(op: &Op) -> Option<Move>
    ensures { option_map move_claim result ≡ move_on op.now }
{
    match op {
        Op::Note {
            id,
            names,
            code,
            body,
        } if *code == MOVE_CODE => move_of(*id, names.as_slice(), body.as_slice()),
        _ => None,
    }
}

fn retitle_of(id: ElementId, names: &[ElementId], body: &[u8]) -> Option<Candidate>
    ensures { result ≡ option_map retitle_candidate (retitle_with id names.now body.now) }
{
    let [section] = names else {
        return None;
    };
    let [a, b, c, d, title @ ..] = body else {
        return None;
    };
    if !is_line(title, LONGEST_TITLE) {
        return None;
    }
    let stamp = u32::from_be_bytes([*a, *b, *c, *d]);
    Some(Candidate {
        id,
        section: *section,
        stamp,
    })
}

/// What the operation says but the title, where it has the shape of a retitle.
pub(crate) fn retitle_in(op: &Op) -> Option<Candidate>
    ensures { result ≡ option_map retitle_candidate (retitle_on op.now) }
{
    match op {
        Op::Note {
            code,
            names,
            body,
            id,
        } if *code == RETITLE_CODE => retitle_of(*id, names.as_slice(), body.as_slice()),
        _ => None,
    }
}
