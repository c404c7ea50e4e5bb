//! A draft read from its front to its end, line by line.

ghost use Rattle.std.specs.Prelude.{◌≡◌, ◌<◌, ◌≤◌, ◌&&◌, ◌∷◌, None, IfOk, IsTrue, length, map, not};
ghost use Rattle.std.specs.Prelude.{position, ◌==◌};
ghost use Rattle.std.specs.List.{join_with_byte};
ghost use Rattle.std.specs.Str.{IsUtf8};
ghost use Rattle.draft_plan.specs.Drafts.{first_bad, is_bad_at, is_heading as is_heading_in};
ghost use Rattle.catalogue_notes.specs.Claims.{is_title as is_title_in};
ghost use Rattle.draft_plan.specs.Drafts.{draft_lines, parts_of, pieces, heading_title};
ghost use Rattle.draft_plan.specs.Laws.{ends_part};
ghost use Rattle.draft_plan.specs.Readings.{IsFirstLine, IsFirstText, IsGood, seen_part};

use fugue_ids::{LONGEST_TITLE, NoMemory, is_line, is_utf8};
use section_plan::Part;
use std::alloc::Global;

fn find_line_feed(text: &[u8]) -> Option<usize>
    ensures { result ≡ position (λ b. b == 10) text.now }
{
    text.iter().position(|b| *b == b'\n')
}

/// Splits off the first line of a text, without its LF.
fn split_line(text: &[u8]) -> (&[u8], &[u8])
    requires { 0 < length text.now }
    ensures { IsFirstLine text.now result.0.now result.1.now }
{
    match find_line_feed(text) {
        Some(end) => (&text[..end], &text[end + 1..]),
        None => (text, &[]),
    }
}

pub(crate) fn is_heading(line: &[u8]) -> bool
    ensures is { result ≡ is_heading_in line.now }
    ensures bound { IsTrue result → 2 ≤ length line.now }
{
    line.starts_with(b"# ")
}

/// Whether a heading has no title.
fn has_bad_title(line: &[u8]) -> bool
    ensures { result ≡ (is_heading_in line.now && not (is_title_in (heading_title line.now))) }
{
    is_heading(line) && !is_line(&line[2..], LONGEST_TITLE)
}

/// Whether no draft has this line at this number.
fn is_bad(line: &[u8], number: usize) -> bool
    ensures { result ≡ is_bad_at number line.now }
{
    !is_utf8(line) || has_bad_title(line) || (number == 1 && !is_heading(line))
}

/// The number, from 1, of the first bad line.
pub(crate) fn bad_line(draft: &[u8]) -> Option<usize>
    ensures { result ≡ first_bad 1 (draft_lines draft.now) }
{
    let mut rest = draft;
    let mut before = 0;
    'lines: while !rest.is_empty() {
        let (line, behind) = split_line(rest);
        if is_bad(line, before + 1) {
            return Some(before + 1);
        }
        before += 1;
        rest = behind;
    }
    None
}

/// A text without the LF at its end.
fn without_line_feed(text: &[u8]) -> &[u8]
    ensures { result.now ≡ join_with_byte 10 (pieces text.now) }
{
    match text.strip_suffix(b"\n") {
        Some(front) => front,
        None => text,
    }
}

/// Whether nothing is left, or a heading comes next.
fn ends_text(rest: &[u8]) -> bool
    ensures { result ≡ ends_part (pieces rest.now) }
{
    rest.is_empty() || is_heading(rest)
}

/// Splits a draft in front of its first heading. The LF in front of that is in neither part.
fn split_text(draft: &[u8]) -> (&[u8], &[u8])
    ensures { IsFirstText draft.now result.0.now result.1.now }
{
    let mut rest = draft;
    'lines: while !ends_text(rest) {
        let (_, behind) = split_line(rest);
        rest = behind;
    }
    let text = &draft[..draft.len() - rest.len()];
    (without_line_feed(text), rest)
}

fn text_of(bytes: &[u8]) -> &str
    requires { IsUtf8 bytes.now }
    ensures { result.now ≡ bytes.now }
{
    std::str::from_utf8(bytes).unwrap()
}

/// Splits off the first part of what is left of a draft.
fn split_part<'a>(draft: &'a [u8]) -> (Part<'a>, &'a [u8])
    requires some { 0 < length draft.now }
    requires good { IsGood draft.now }
    ensures parts { parts_of (pieces draft.now) ≡ seen_part result.0 ∷ parts_of (pieces result.1.now) }
    ensures good { IsGood result.1.now }
    ensures shorter { length result.1.now < length draft.now }
{
    let (heading, behind) = split_line(draft);
    let (text, rest) = split_text(behind);
    let part = Part {
        title: text_of(&heading[2..]),
        text: text_of(text),
    };
    (part, rest)
}

/// The parts of a draft that has no bad line.
pub(crate) fn read_parts<'a>(alloc: Global, draft: &'a [u8]) -> Result<Vec<Part<'a>>, NoMemory>
    requires { first_bad 1 (draft_lines draft.now) ≡ None }
    ensures { IfOk result (λ parts. map seen_part parts.items ≡ parts_of (draft_lines draft.now)) }
{
    let mut parts = Vec::new(alloc);
    let mut rest = draft;
    'parts: while !rest.is_empty() {
        let (part, behind) = split_part(rest);
        parts.push(part)?;
        rest = behind;
    }
    Ok(parts)
}
