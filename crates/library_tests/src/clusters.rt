//! Tests of grapheme clusters: spans by example, and an index compared with its text after each edit.
use crate::assertions::{equal, equal_at};
use crate::dice::Dice;
use cluster_text::{ClusterIndex, cluster_span};
use std::alloc::{AllocError, Global};
use std::test::Fail;

/// A text, a place and a number of clusters, and the place and the number of their scalars.
type Row = (&'static str, u32, u32, Option<(usize, usize)>);

const ROWS: [Row; 24] = [
    ("", 0, 0, Some((0, 0))),
    ("", 0, 1, None),
    ("", 1, 0, None),
    // An accent belongs to its letter.
    ("e\u{301}f", 0, 0, Some((0, 0))),
    ("e\u{301}f", 0, 1, Some((0, 2))),
    ("e\u{301}f", 1, 1, Some((2, 1))),
    ("e\u{301}f", 0, 2, Some((0, 3))),
    ("e\u{301}f", 2, 0, Some((3, 0))),
    ("e\u{301}f", 2, 1, None),
    ("e\u{301}f", 3, 0, None),
    ("e\u{301}f", 1, u32::MAX, None),
    ("e\u{301}f", u32::MAX, u32::MAX, None),
    // A family of three, joined.
    (
        "\u{1F468}\u{200D}\u{1F469}\u{200D}\u{1F467}x",
        0,
        1,
        Some((0, 5)),
    ),
    (
        "\u{1F468}\u{200D}\u{1F469}\u{200D}\u{1F467}x",
        1,
        1,
        Some((5, 1)),
    ),
    // Two flags of two scalars.
    ("\u{1F1EB}\u{1F1F7}\u{1F1EE}\u{1F1F8}", 0, 1, Some((0, 2))),
    ("\u{1F1EB}\u{1F1F7}\u{1F1EE}\u{1F1F8}", 1, 1, Some((2, 2))),
    ("\u{1F1EB}\u{1F1F7}\u{1F1EE}\u{1F1F8}", 3, 0, None),
    // A Hangul syllable, spelled by three letters.
    ("\u{1112}\u{1161}\u{11AB}\u{1100}", 0, 1, Some((0, 3))),
    ("\u{1112}\u{1161}\u{11AB}\u{1100}", 1, 1, Some((3, 1))),
    // CR LF is one, LF CR are two.
    ("a\r\nb", 1, 1, Some((1, 2))),
    ("a\r\nb", 2, 1, Some((3, 1))),
    ("a\n\rb", 2, 1, Some((2, 1))),
    // A vowel sign belongs to its consonant, in an extended cluster.
    ("\u{915}\u{93F}x", 0, 1, Some((0, 2))),
    ("\u{915}\u{93F}x", 1, 1, Some((2, 1))),
];

#[test]
fn places_count_what_a_reader_sees(rt: HostRuntime) {
    for (text, at, n, span) in ROWS.iter() {
        equal_at(&rt, &(text, at, n), cluster_span(text, *at, *n), *span);
    }
}

/// Of what texts are made: letters and marks, ends of lines, emoji with what joins them, flags, syllables, NULs.
const PIECES: [&str; 20] = [
    "a",
    "b",
    " ",
    "\n",
    "\r\n",
    "\r",
    "e\u{301}",
    "\u{301}",
    "\u{200D}",
    "\u{1F468}\u{200D}\u{1F469}\u{200D}\u{1F467}",
    "\u{1F44D}\u{1F3FD}",
    "\u{1F1EB}\u{1F1F7}",
    "\u{1F1EB}",
    "\u{1112}\u{1161}",
    "\u{11AB}",
    "\u{915}\u{94D}\u{937}",
    "\u{93F}",
    "\u{436}",
    "\u{8A9E}",
    "\0",
];

fn make_text(alloc: Global, dice: &mut Dice, count: usize) -> Result<String, AllocError> {
    let mut text = String::new(alloc);
    for _ in 0..count {
        if let Some(piece) = PIECES.get(dice.roll(PIECES.len())) {
            text.push_str(piece)?;
        }
    }
    Ok(text)
}

/// An index of a text answers what the text does, at places here and there and beyond the end.
#[test]
fn an_index_is_the_text_that_it_stands_for(rt: HostRuntime) -> Result<(), Fail> {
    let mut dice = Dice { state: 11 };
    let mut text = make_text(rt.alloc(), &mut dice, 400)?;
    let mut index = ClusterIndex::new(rt.alloc(), text.as_str())?;
    for turn in 0..300 {
        let at = dice.roll(index.len()).min(index.len());
        let n = dice
            .roll(if turn % 8 == 0 { 400 } else { 6 })
            .min(index.len() - at);
        let count = dice.roll(if turn % 16 == 0 { 300 } else { 4 });
        let new = make_text(rt.alloc(), &mut dice, count)?;
        index.splice(at, n, new.as_str())?;
        let mut spliced = String::new(rt.alloc());
        for scalar in text.chars().take(at) {
            spliced.push(scalar)?;
        }
        spliced.push_str(new.as_str())?;
        for scalar in text.chars().skip(at).skip(n) {
            spliced.push(scalar)?;
        }
        text = spliced;
        equal(&rt, index.len(), text.chars().count());
        for _ in 0..4 {
            let place = dice.number(index.len());
            let more = dice.number(index.len() / 4);
            let span = cluster_span(text.as_str(), place, more);
            equal_at(&rt, &(turn, place, more), index.span(place, more), span);
        }
    }
    Ok(())
}
