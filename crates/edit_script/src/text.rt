//! The text of a `put` line, with the escapes `\n` and `\\` decoded.
ghost use Rattle.std.specs.Prelude.{◌≡◌, ◌≢◌, ℕ, List, ◌∷◌, ◌++◌, encode_utf8, IfOk, IfSome, IsNone, IsSomeAnd};
ghost use Rattle.std.specs.Prelude.{MatchOption, string_bytes};
ghost use Rattle.std.specs.List.{flat_map};
ghost use Rattle.std.specs.Str.{chars, IsUtf8};
ghost use Rattle.edit_script.specs.Grammar.{escaped_scalar};

use fugue_ids::NoMemory;
use std::alloc::Global;

/// Reads the text of a put. Returns None where a backslash stands before anything but an `n` or a backslash.
pub(crate) fn read_text(alloc: Global, text: &str) -> Result<Option<String>, NoMemory>
    ensures named { IfOk result
        (λ found. IfSome found (λ new. text.now ≡ flat_map escaped_scalar (chars (string_bytes new)))) }
    ensures every { (new : List ℕ) → text.now ≡ flat_map escaped_scalar new
        → IfOk result (λ found. IsSomeAnd found (λ read. chars (string_bytes read) ≡ new)) }
{
    let mut new = String::with_capacity(alloc, text.len())?;
    let mut rest = text;
    'scalars: while !rest.is_empty() {
        let Some((scalar, behind)) = split_scalar(rest) else {
            return Ok(None);
        };
        new.push(scalar)?;
        rest = behind;
    }
    Ok(Some(new))
}

/// Splits off the first scalar. An LF stands in no line: it is written as `\n`.
fn split_scalar(text: &str) -> Option<(char, &str)>
    ensures some { IfSome result (λ (scalar, rest). text.now ≡ escaped_scalar scalar ++ rest.now) }
    ensures utf8 { IfSome result (λ (_, rest). IsUtf8 rest.now) }
    ensures none { IsNone result → (scalar : ℕ) (rest : List ℕ) → text.now ≢ escaped_scalar scalar ++ rest }
{
    let mut scalars = text.chars();
    match scalars.next()? {
        '\n' => None,
        '\\' => {
            let scalar = after_backslash(scalars.next()?)?;
            Some((scalar, scalars.as_str()))
        }
        scalar => Some((scalar, scalars.as_str())),
    }
}

fn after_backslash(scalar: char) -> Option<char>
    ensures { MatchOption result ((scalar ≢ 110) × (scalar ≢ 92)) (λ read. escaped_scalar read ≡ 92 ∷ encode_utf8 scalar) }
{
    match scalar {
        'n' => Some('\n'),
        '\\' => Some('\\'),
        _ => None,
    }
}
