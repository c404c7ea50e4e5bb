//! The text of one section, revised by cuts and puts.

ghost use Rattle.std.specs.Prelude.{◌≡◌, ◌≢◌, ◌↔◌, ◌+◌, ◌≤◌, IfErr, IfOk, Err, None, Some, length, nat_eq, string_bytes};
ghost use Rattle.std.specs.Str.{chars, encode_utf8_all};
ghost use Rattle.fugue_ids.specs.Identifiers.{Identifier};
ghost use Rattle.origin_model.specs.edits.Effect.{OfSection};
ghost use Rattle.origin_model.specs.edits.Refusal.{section_shown};
ghost use Rattle.origin_model.specs.edits.State.{IsSound};
ghost use Rattle.origin_model.specs.order.Printed.{text as text_on};
ghost use Rattle.origin_model.specs.taking.Taking.{IsSettled};
ghost use Rattle.text_diff.specs.Hunks.{Transforms};
ghost use Rattle.draft_plan.specs.Limits.{Costs, CostsText, by_edit, hunk_cost, hunks_cost};
ghost use Rattle.draft_plan.specs.Needed.{InText, MakesOnly};
ghost use Rattle.draft_plan.specs.Revising.{AreHunksMade, IsHunkMade, IsLimit, IsWithinText, shown_elements};
ghost use Rattle.draft_plan.specs.Texts.{CountsHunks, IsRevised, StopsEditing, StopsRevising};

use fugue_ids::NoMemory;
use origin_model::EditFault;
use replica_core::Replica;
use std::alloc::Global;
use text_diff::{Hunk, text_hunks};

/// The most lines or words of a hunk that are compared with one another.
const MOST_DIFFERENCES: usize = 4096;

/// The text of some scalars.
fn text_of(alloc: Global, scalars: &[char]) -> Result<String, NoMemory>
    ensures { IfOk result (λ text. string_bytes text ≡ encode_utf8_all scalars.now) }
{
    let mut text = String::new(alloc);
    'scalars: for scalar in scalars {
        text.push(*scalar)?;
    }
    Ok(text)
}

fn scalars_of(alloc: Global, text: &str) -> Result<Vec<char>, NoMemory>
    ensures { IfOk result (λ scalars. scalars.items ≡ chars text.now) }
{
    Ok(text.chars().collect(alloc)?)
}

/// Cuts the old range of a hunk, and puts the new one there.
fn revise_hunk(
    alloc: Global,
    replica: &mut Replica,
    section: usize,
    hunk: Hunk,
    new: &[char],
) -> Result<u32, EditFault>
    requires settled { IsSettled replica.old.held }
    requires sound { IsSound replica.old }
    requires old { IsWithinText replica.old section (hunk.old_at + hunk.old_len) }
    requires new { hunk.new_at + hunk.new_len ≤ length new.now }
    ensures made { IfOk result (λ n. OfSection replica.old section
        (λ x. IsHunkMade replica.old replica.new section x hunk new.now n)) }
    ensures stops { IfErr result (λ fault. StopsEditing replica.old replica.new section fault) }
    ensures limits { IfErr result (λ fault. IsLimit fault) }
    ensures costs { Costs replica.old replica.new (hunk_cost hunk) (by_edit result) }
    ensures settled { IsSettled replica.new.held }
    ensures sound { IsSound replica.new }
{
    let text = text_of(alloc, &new[hunk.new_at..hunk.new_at + hunk.new_len])?;
    let cut = replica.cut(section, hunk.old_at, hunk.old_len)?;
    let put = replica.put(section, hunk.old_at, text.as_str())?;
    Ok(cut + put)
}

/// Makes the edits of hunks, from the last one to the first: so positions in front of them stay.
fn revise_hunks(
    alloc: Global,
    replica: &mut Replica,
    section: usize,
    hunks: &[Hunk],
    new: &[char],
) -> Result<u32, EditFault>
    requires settled { IsSettled replica.old.held }
    requires sound { IsSound replica.old }
    requires hunks { OfSection replica.old section (λ x.
        Transforms nat_eq (text_on replica.old.held.history x) new.now hunks.now) }
    ensures made { IfOk result (λ n. OfSection replica.old section
        (λ x. AreHunksMade replica.old replica.new section x hunks.now new.now n)) }
    ensures stops { IfErr result (λ fault. StopsEditing replica.old replica.new section fault) }
    ensures limits { IfErr result (λ fault. IsLimit fault) }
    ensures costs { Costs replica.old replica.new (hunks_cost hunks.now) (by_edit result) }
    ensures settled { IsSettled replica.new.held }
    ensures sound { IsSound replica.new }
{
    let mut left = hunks.len();
    let mut made = 0;
    'hunks: while left > 0 {
        left -= 1;
        made += revise_hunk(alloc, replica, section, hunks[left], new)?;
    }
    Ok(made)
}

/// Revises the shown text of the section with so many shown ones before it, and returns how many operations that took.
/// What stands between hunks is left, and each hunk is cut and typed anew; they are found by lines and words.
pub fn revise_text(
    alloc: Global,
    replica: &mut Replica,
    section: usize,
    new: &str,
) -> Result<u32, EditFault>
    requires { IsSettled replica.old.held }
    ensures revised { IfOk result (λ n. OfSection replica.old section
        (λ x. IsRevised replica.old replica.new section x (chars new.now) n)) }
    ensures few { IfOk result (λ n. OfSection replica.old section
        (λ x. n ≤ length (text_on replica.old.held.history x) + length (chars new.now))) }
    ensures keeps { IfOk result (λ n. OfSection replica.old section
        (λ x. CountsHunks replica.old replica.new x n)) }
    ensures touches { IfOk result (λ n. OfSection replica.old section
        (λ x. MakesOnly (InText x (shown_elements replica.old x)) replica.old replica.new)) }
    ensures same { IfOk result (λ n. OfSection replica.old section (λ x.
        encode_utf8_all (text_on replica.old.held.history x) ≡ new.now → (n ≡ 0) × (replica.new ≡ replica.old))) }
    ensures absent { (result ≡ Err EditFault.NoSection) ↔ (section_shown replica.old section ≡ None) }
    ensures in_range { result ≢ Err EditFault.OutOfRange }
    ensures stops { IfErr result (λ fault. StopsRevising replica.old replica.new section fault) }
    ensures costs { (x : Identifier) → section_shown replica.old section ≡ Some x
        → CostsText replica.old replica.new x (chars new.now) result }
    ensures settled { IsSettled replica.new.held }
    ensures sound { IsSound replica.new }
{
    let Some(old) = replica.text_of(section)? else {
        return Err(EditFault::NoSection);
    };
    if old.as_str() == new {
        return Ok(0);
    }
    let hunks = text_hunks(alloc, old.as_str(), new, MOST_DIFFERENCES)?;
    let scalars = scalars_of(alloc, new)?;
    revise_hunks(
        alloc,
        replica,
        section,
        hunks.as_slice(),
        scalars.as_slice(),
    )
}
