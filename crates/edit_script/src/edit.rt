//! The edits that script lines ask for (`add`, `put`, `cut`, `drop`), and the parser of such a line.
ghost use Rattle.std.specs.Prelude.{◌≡◌, ℕ, List, ◌++◌, ◌∷◌, ◌+◌, ◌<◌, ◌^◌, true, Some, IfOk, IfSome, IsNone};
ghost use Rattle.std.specs.Prelude.{IsSomeAnd, option_map, codes, decimal, encode_utf8_all};
ghost use Rattle.std.specs.Str.{all_scalars};
ghost use Rattle.fugue_ids.specs.Titles.{IsTitleText};
ghost use Rattle.origin_model.specs.edits.Edits.{Command};
ghost use Rattle.edit_script.specs.Grammar.{Asks, HasNoSpace};
ghost use Rattle.edit_script.specs.Commands.{replica_command};

use crate::number::{read_decimal, read_ordinal};
use crate::text::read_text;
use fugue_ids::{NoMemory, Title, TitleFault};
use std::alloc::Global;

/// An edit that a line asks for. Sections count from 0, and places and counts are clusters.
#[derive(Drop)]
pub(crate) enum Edit {
    Add { at: u32, title: Title },
    Put { section: u32, at: u32, text: String },
    Cut { section: u32, at: u32, count: u32 },
    DropSection { section: u32 },
}

/// Reads a line that asks for an edit. Returns None where it asks for none.
pub(crate) fn read_edit(alloc: Global, line: &str) -> Result<Option<Edit>, NoMemory>
    ensures named { IfOk result (λ found. IfSome found (λ edit. Asks line.now (replica_command edit))) }
    ensures every { (command : Command) → Asks line.now command
        → IfOk result (λ found. option_map replica_command found ≡ Some command) }
{
    let Some((word, rest)) = split_word(line) else {
        return Ok(None);
    };
    match Form::read(word) {
        Some(Form::Add) => read_add(alloc, rest),
        Some(Form::Put) => read_put(alloc, rest),
        Some(Form::Cut) => Ok(read_cut(rest)),
        Some(Form::Drop) => Ok(read_drop(rest)),
        None => Ok(None),
    }
}

/// Reads what stands after `add `.
fn read_add(alloc: Global, rest: &str) -> Result<Option<Edit>, NoMemory>
    ensures named { IfOk result
        (λ found. IfSome found (λ edit. Asks (codes "add " ++ rest.now) (replica_command edit))) }
    ensures every { (command : Command) → Asks (codes "add " ++ rest.now) command
        → IfOk result (λ found. option_map replica_command found ≡ Some command) }
{
    let Some((at, title)) = split_ordinal(rest) else {
        return Ok(None);
    };
    match read_title(alloc, title)? {
        Some(title) => Ok(Some(Edit::Add { at, title })),
        None => Ok(None),
    }
}

/// Reads a title. Returns None where the text is none.
fn read_title(alloc: Global, text: &str) -> Result<Option<Title>, NoMemory>
    ensures title { IfOk result (λ found. IfSome found (λ title.
        (encode_utf8_all title ≡ text.now) × (all_scalars title ≡ true) × IsTitleText text.now)) }
    ensures none { IfOk result (λ found. IsNone found → ¬ (IsTitleText text.now)) }
{
    match Title::read(alloc, text) {
        Ok(title) => Ok(Some(title)),
        Err(TitleFault::NoMemory) => Err(NoMemory),
        Err(TitleFault::Empty | TitleFault::TooLong | TitleFault::LineEnd) => Ok(None),
    }
}

/// Reads what stands after `put `.
fn read_put(alloc: Global, rest: &str) -> Result<Option<Edit>, NoMemory>
    ensures named { IfOk result
        (λ found. IfSome found (λ edit. Asks (codes "put " ++ rest.now) (replica_command edit))) }
    ensures every { (command : Command) → Asks (codes "put " ++ rest.now) command
        → IfOk result (λ found. option_map replica_command found ≡ Some command) }
{
    let Some((section, at, text)) = split_place(rest) else {
        return Ok(None);
    };
    if text.is_empty() {
        return Ok(None);
    }
    match read_text(alloc, text)? {
        Some(text) => Ok(Some(Edit::Put { section, at, text })),
        None => Ok(None),
    }
}

/// Reads what stands after `cut `.
fn read_cut(rest: &str) -> Option<Edit>
    ensures named { IfSome result (λ edit. Asks (codes "cut " ++ rest.now) (replica_command edit)) }
    ensures every { (command : Command) → Asks (codes "cut " ++ rest.now) command
        → option_map replica_command result ≡ Some command }
{
    let (section, at, count) = split_place(rest)?;
    let count = read_decimal(count)?;
    Some(Edit::Cut { section, at, count })
}

/// Reads what stands after `drop `.
fn read_drop(rest: &str) -> Option<Edit>
    ensures named { IfSome result (λ edit. Asks (codes "drop " ++ rest.now) (replica_command edit)) }
    ensures every { (command : Command) → Asks (codes "drop " ++ rest.now) command
        → option_map replica_command result ≡ Some command }
{
    let section = read_ordinal(rest)?;
    Some(Edit::DropSection { section })
}

/// Splits off a section, counted from 0, and a place.
fn split_place(text: &str) -> Option<(u32, u32, &str)>
    ensures parts { IfSome result (λ (section, at, rest).
        (text.now ≡ decimal (section + 1) ++ 32 ∷ (decimal at ++ 32 ∷ rest.now)) × (section + 1 < 2 ^ 32)
        × (at < 2 ^ 32)) }
    ensures every { (k p : ℕ) (behind : List ℕ) → k + 1 < 2 ^ 32 → p < 2 ^ 32
        → text.now ≡ decimal (k + 1) ++ 32 ∷ (decimal p ++ 32 ∷ behind)
        → IsSomeAnd result (λ (section, at, rest). (section ≡ k) × (at ≡ p) × (rest.now ≡ behind)) }
{
    let (section, rest) = split_ordinal(text)?;
    let (at, rest) = split_word(rest)?;
    Some((section, read_decimal(at)?, rest))
}

/// Splits off a number that counts from 1, counted from 0.
fn split_ordinal(text: &str) -> Option<(u32, &str)>
    ensures parts { IfSome result (λ (n, rest). (text.now ≡ decimal (n + 1) ++ 32 ∷ rest.now) × (n + 1 < 2 ^ 32)) }
    ensures every { (k : ℕ) (behind : List ℕ) → k + 1 < 2 ^ 32 → text.now ≡ decimal (k + 1) ++ 32 ∷ behind
        → IsSomeAnd result (λ (n, rest). (n ≡ k) × (rest.now ≡ behind)) }
{
    let (number, rest) = split_word(text)?;
    Some((read_ordinal(number)?, rest))
}

/// The first word of a line, by which its form is known.
#[derive(Clone, Copy)]
pub(crate) enum Form {
    Add,
    Put,
    Cut,
    Drop,
}

impl Form {
    ghost use Rattle.edit_script.specs.Forms.{form_word};

    /// Reads a word. Returns None where it begins no line.
    pub(crate) fn read(word: &str) -> Option<Form>
        ensures word { IfSome result (λ form. word.now ≡ form_word form) }
        ensures every { (form : Form) → word.now ≡ form_word form → result ≡ Some form }
    {
        match word {
            "add" => Some(Form::Add),
            "put" => Some(Form::Put),
            "cut" => Some(Form::Cut),
            "drop" => Some(Form::Drop),
            _ => None,
        }
    }
}

/// Splits a text at its first space.
pub(crate) fn split_word(text: &str) -> Option<(&str, &str)>
    ensures parts { IfSome result (λ (word, rest). text.now ≡ word.now ++ 32 ∷ rest.now) }
    ensures every { (word rest : List ℕ) → HasNoSpace word → text.now ≡ word ++ 32 ∷ rest
        → IsSomeAnd result (λ (first, behind). (first.now ≡ word) × (behind.now ≡ rest)) }
{
    text.split_once(' ')
}
