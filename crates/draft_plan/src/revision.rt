//! A whole manuscript, revised until it is a draft.

ghost use Rattle.std.specs.Prelude.{◌≡◌, ◌↔◌, [], IfErr, IfOk, IsTrue, OnOk, Some, length, map, slice_get, string_bytes};
ghost use Rattle.std.specs.Str.{encode_utf8_all};
ghost use Rattle.fugue_ids.specs.Identifiers.{Identifier};
ghost use Rattle.origin_model.specs.edits.Refusal.{section_shown};
ghost use Rattle.origin_model.specs.edits.State.{IsSound};
ghost use Rattle.origin_model.specs.order.Printed.{text as text_on};
ghost use Rattle.origin_model.specs.taking.Taking.{IsSettled};
ghost use Rattle.catalogue_notes.specs.Arranged.{arranged, heading};
ghost use Rattle.catalogue_notes.specs.Arranging.{Arranges};
ghost use Rattle.catalogue_notes.specs.Lift.{moves};
ghost use Rattle.catalogue_notes.specs.Moving.{section_placed};
ghost use Rattle.catalogue_notes.specs.Outlining.{IsEntry, IsOutline};
ghost use Rattle.draft_plan.specs.Keeping.{KeepsSections};
ghost use Rattle.draft_plan.specs.Limits.{Costs, IsOutOfMemory, revision_cost};
ghost use Rattle.draft_plan.specs.Matching.{Matches, shown_part};
ghost use Rattle.draft_plan.specs.Needed.{InTexts, MakesOnly, NoneIsNeedless};
ghost use Rattle.draft_plan.specs.Plain.{arranged_part, arranged_parts};
ghost use Rattle.draft_plan.specs.Plans.{CostsFilling, CostsSection, LacksPlan, filling, retitle_count};
ghost use Rattle.draft_plan.specs.Readings.{seen_part};
ghost use Rattle.draft_plan.specs.Revision.{IsRevision, MakesNothing, StopsAtLimit};
ghost use Rattle.draft_plan.specs.Shaping.{IsFilledIn, IsHeadedBy};

use crate::draft::Draft;
use crate::fault::ReviseFault;
use crate::revising::revise_text;
use crate::shaping::shape;
use crate::titles::title_of;
use catalogue_notes::{Arranger, Entry, outline};
use fugue_ids::NoMemory;
use replica_core::Replica;
use section_plan::{Pairs, Part, match_sections};
use std::alloc::Global;

/// Revises what the replica shows until it is the draft. Answers how many operations that took.
///
/// Sections are matched by heading and text, text, shared words, heading, and likeness. A matched section is moved and
/// retitled only where it has to be, and its text is changed only where it differs.
pub fn revise(alloc: Global, replica: &mut Replica, draft: &Draft<'_>) -> Result<u32, ReviseFault>
    requires { IsSettled replica.old.held }
    ensures revised { IfOk result (λ n. IsRevision replica.old replica.new draft.now n) }
    ensures keeps { OnOk result (KeepsSections replica.old.held.history replica.new.held.history) }
    ensures needed { OnOk result (NoneIsNeedless replica.old replica.new) }
    ensures same { IfOk result (λ n. MakesNothing replica.old replica.new draft.now n) }
    ensures stops { IfErr result (λ why. StopsAtLimit replica.old replica.new why) }
    ensures costs { Costs replica.old replica.new (revision_cost replica.old.held.history draft.now) result }
    ensures planned { IfErr result (λ why. LacksPlan replica.old draft.now why) }
    ensures spared { arranged_parts replica.old.held.history ≡ draft.now → IfErr result (λ why. IsOutOfMemory why) }
    ensures settled { IsSettled replica.new.held }
    ensures sound { IsSound replica.new }
{
    let parts = draft.parts();
    let outline = outline(alloc, replica)?;
    let entries = outline.entries();
    let pairs = match_parts(alloc, replica, entries, parts)?;
    let Some(pairs) = pairs else {
        return Ok(0);
    };
    let shaped = shape(alloc, replica, entries, parts, &pairs)?;
    let filled = fill_shaped(alloc, replica, parts)?;
    Ok(shaped + filled)
}

/// Which section each part is. `None` where the sections are the parts.
fn match_parts(
    alloc: Global,
    replica: &Replica,
    entries: &[Entry],
    parts: &[Part<'_>],
) -> Result<Option<Pairs>, NoMemory>
    requires { IsOutline replica.now.held.history entries.now }
    ensures { IfOk result (λ pairs. Matches replica.now.held.history parts.now pairs) }
{
    let shown = shown_of(alloc, replica, entries)?;
    let sections = parts_of(alloc, shown.as_slice())?;
    if are_same(sections.as_slice(), parts) {
        return Ok(None);
    }
    Ok(Some(match_sections(alloc, sections.as_slice(), parts)?))
}

/// What is shown of a section.
#[derive(Drop)]
struct Shown {
    title: String,
    text: String,
}

/// The sections, as they are arranged.
fn shown_of(alloc: Global, replica: &Replica, entries: &[Entry]) -> Result<Vec<Shown>, NoMemory>
    requires { IsOutline replica.now.held.history entries.now }
    ensures { IfOk result (λ shown. map shown_part shown.items ≡ arranged_parts replica.now.held.history) }
{
    let mut shown = Vec::new(alloc);
    'entries: for entry in entries {
        shown.push(shown_at(alloc, replica, entry)?)?;
    }
    Ok(shown)
}

/// What is shown of the section of an entry.
fn shown_at(alloc: Global, replica: &Replica, entry: &Entry) -> Result<Shown, NoMemory>
    requires { IsEntry replica.now.held.history entry.now }
    ensures { IfOk result (λ shown. shown_part shown ≡ arranged_part replica.now.held.history entry.now.section) }
{
    let text = text_at(alloc, replica, entry.number)?;
    let title = String::from_str(alloc, entry.heading.as_str())?;
    Ok(Shown { title, text })
}

/// The text of the section with this number in the catalogue.
fn text_at(alloc: Global, replica: &Replica, number: usize) -> Result<String, NoMemory>
    ensures { IfOk result (λ text. (s : Identifier) → section_shown replica.now number ≡ Some s
        → string_bytes text ≡ encode_utf8_all (text_on replica.now.held.history s)) }
{
    match replica.text_of(number)? {
        Some(text) => Ok(text),
        None => Ok(String::new(alloc)),
    }
}

/// The sections as the parts of a draft.
fn parts_of<'a>(alloc: Global, shown: &'a [Shown]) -> Result<Vec<Part<'a>>, NoMemory>
    ensures { IfOk result (λ parts. map seen_part parts.items ≡ map shown_part shown.now) }
{
    let mut parts = Vec::new(alloc);
    'shown: for section in shown {
        parts.push(Part {
            title: section.title.as_str(),
            text: section.text.as_str(),
        })?;
    }
    Ok(parts)
}

/// Whether these are the same titles and texts.
fn are_same(sections: &[Part<'_>], parts: &[Part<'_>]) -> bool
    ensures { IsTrue result ↔ (map seen_part sections.now ≡ map seen_part parts.now) }
{
    if sections.len() != parts.len() {
        return false;
    }
    'sections: for (place, section) in sections.iter().enumerate() {
        if !is_same(section, &parts[place]) {
            return false;
        }
    }
    true
}

fn is_same(section: &Part<'_>, part: &Part<'_>) -> bool
    ensures { IsTrue result ↔ (seen_part section.now ≡ seen_part part.now) }
{
    section.title == part.title && section.text == part.text
}

fn has_title(entry: &Entry, title: &str) -> bool
    ensures { IsTrue result ↔ (string_bytes entry.now.heading ≡ title.now) }
{
    entry.heading.as_str() == title
}

/// Gives the sections the titles and the texts of the parts, where there are as many of them.
fn fill_shaped(alloc: Global, replica: &mut Replica, parts: &[Part<'_>]) -> Result<u32, ReviseFault>
    requires settled { IsSettled replica.old.held }
    requires sound { IsSound replica.old }
    requires count { length (arranged replica.old.held.history) ≡ length parts.now }
    ensures revised { IfOk result (λ n. IsRevision replica.old replica.new (map seen_part parts.now) n) }
    ensures arranged { OnOk result (arranged replica.new.held.history ≡ arranged replica.old.held.history) }
    ensures touches { OnOk result (MakesOnly (InTexts replica.old.held.history) replica.old replica.new) }
    ensures moved { OnOk result (moves replica.new.held.history ≡ moves replica.old.held.history) }
    ensures stops { IfErr result (λ why. StopsAtLimit replica.old replica.new why) }
    ensures costs { CostsFilling replica.old replica.new (slice_get (arranged replica.old.held.history))
        (map seen_part parts.now) result }
    ensures settled { IsSettled replica.new.held }
    ensures sound { IsSound replica.new }
{
    let outline = outline(alloc, replica)?;
    fill(alloc, replica, outline.entries(), parts)
}

/// Gives each section, as they are arranged, the title and the text of its part.
fn fill(
    alloc: Global,
    replica: &mut Replica,
    entries: &[Entry],
    parts: &[Part<'_>],
) -> Result<u32, ReviseFault>
    requires outline { IsOutline replica.old.held.history entries.now }
    requires count { length entries.now ≡ length parts.now }
    requires settled { IsSettled replica.old.held }
    requires sound { IsSound replica.old }
    ensures revised { IfOk result (λ n. IsRevision replica.old replica.new (map seen_part parts.now) n) }
    ensures same { IfOk result (λ n. MakesNothing replica.old replica.new (map seen_part parts.now) n) }
    ensures arranged { OnOk result (arranged replica.new.held.history ≡ arranged replica.old.held.history) }
    ensures touches { OnOk result (MakesOnly (InTexts replica.old.held.history) replica.old replica.new) }
    ensures moved { OnOk result (moves replica.new.held.history ≡ moves replica.old.held.history) }
    ensures stops { IfErr result (λ why. StopsAtLimit replica.old replica.new why) }
    ensures costs { CostsFilling replica.old replica.new (slice_get (arranged replica.old.held.history))
        (map seen_part parts.now) result }
    ensures settled { IsSettled replica.new.held }
    ensures sound { IsSound replica.new }
{
    let mut arranger = Arranger::new();
    let mut made = 0;
    'parts: for (place, part) in parts.iter().enumerate() {
        made += fill_section(
            alloc,
            replica,
            &mut arranger,
            place,
            &entries[place],
            part.title,
            part.text,
        )?;
    }
    Ok(made)
}

/// Gives a section a title and a text.
fn fill_section(
    alloc: Global,
    replica: &mut Replica,
    arranger: &mut Arranger,
    place: usize,
    entry: &Entry,
    title: &str,
    text: &str,
) -> Result<u32, ReviseFault>
    requires settled { IsSettled replica.old.held }
    requires sound { IsSound replica.old }
    requires arranges { Arranges replica.old.held.history arranger.old }
    requires placed { section_placed replica.old place ≡ Some entry.now.section }
    requires numbered { section_shown replica.old entry.now.number ≡ Some entry.now.section }
    requires headed { string_bytes entry.now.heading
        ≡ encode_utf8_all (heading replica.old.held.history entry.now.section) }
    ensures filled { IfOk result
        (λ n. IsFilledIn replica.old replica.new entry.now.section (record { title = title.now; text = text.now }) n) }
    ensures stops { IfErr result (λ why. StopsAtLimit replica.old replica.new why) }
    ensures costs { CostsSection replica.old replica.new entry.now.section
        (record { title = title.now; text = text.now }) result }
    ensures arranges { OnOk result (Arranges replica.new.held.history arranger.new) }
    ensures settled { IsSettled replica.new.held }
    ensures sound { IsSound replica.new }
{
    let retitled = retitle_other(alloc, replica, arranger, place, entry, title)?;
    let revised = revise_text(alloc, replica, entry.number, text)?;
    Ok(retitled + revised)
}

/// Gives a section a title, unless that is its heading.
fn retitle_other(
    alloc: Global,
    replica: &mut Replica,
    arranger: &mut Arranger,
    place: usize,
    entry: &Entry,
    title: &str,
) -> Result<u32, ReviseFault>
    requires settled { IsSettled replica.old.held }
    requires sound { IsSound replica.old }
    requires arranges { Arranges replica.old.held.history arranger.old }
    requires placed { section_placed replica.old place ≡ Some entry.now.section }
    requires headed { string_bytes entry.now.heading
        ≡ encode_utf8_all (heading replica.old.held.history entry.now.section) }
    ensures titled { IfOk result (λ n. IsHeadedBy replica.old replica.new entry.now.section title.now n) }
    ensures stops { IfErr result (λ why. StopsAtLimit replica.old replica.new why) }
    ensures costs { Costs replica.old replica.new
        (filling (retitle_count replica.old.held.history (Some entry.now.section) (Some title.now)) []) result }
    ensures arranges { Arranges replica.new.held.history arranger.new }
    ensures settled { IsSettled replica.new.held }
    ensures sound { IsSound replica.new }
{
    if has_title(entry, title) {
        return Ok(0);
    }
    let title = title_of(alloc, title)?;
    Ok(arranger.retitle(alloc, replica, place, title)?)
}
