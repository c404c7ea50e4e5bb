//! How a passage is spelled in a word: `\n` stands for LF, and `\\` for a backslash.
ghost use Rattle.std.specs.Prelude.{◌≡◌, ◌≢◌, ◌↔◌, ◌++◌, [], ℕ, IfSome, IsNone, IsTrue, List};
ghost use Rattle.passage_remarks.specs.Spelling.{IsSpelled, escaped_byte, passage_of, word_of_passage};

use std::alloc::Global;

/// Splits off what stands for the first byte of a passage.
fn split_byte(word: &[u8]) -> Option<(u8, &[u8])>
    ensures some { IfSome result (λ (byte, rest). word.now ≡ escaped_byte byte ++ rest.now) }
    ensures none { IsNone result → (byte : ℕ) (rest : List ℕ) → word.now ≢ escaped_byte byte ++ rest }
{
    match word {
        [] | [b'\n', ..] => None,
        [b'\\', b'n', rest @ ..] => Some((b'\n', rest)),
        [b'\\', b'\\', rest @ ..] => Some((b'\\', rest)),
        [b'\\', ..] => None,
        [byte, rest @ ..] => Some((*byte, rest)),
    }
}

/// Whether the word spells a passage that is not empty: each backslash is one of `\n` or `\\`, and there is no LF.
pub fn is_spelled(word: &[u8]) -> bool
    ensures { IsTrue result ↔ IsSpelled word.now }
{
    let mut rest = word;
    'bytes: while let Some((_byte, behind)) = split_byte(rest) {
        rest = behind;
    }
    rest.is_empty() && !word.is_empty()
}

/// The passage that a word spells. Returns None where it spells none, or memory runs out.
pub fn read_passage(alloc: Global, word: &[u8]) -> Option<Vec<u8>>
    ensures { IfSome result (λ passage. (word.now ≡ word_of_passage passage.items) × (passage.items ≢ [])
        × (passage.items ≡ passage_of word.now)) }
{
    let mut passage = Vec::new(alloc);
    let mut rest = word;
    'bytes: while let Some((byte, behind)) = split_byte(rest) {
        passage.push(byte).ok()?;
        rest = behind;
    }
    if rest.is_empty() && !word.is_empty() {
        Some(passage)
    } else {
        None
    }
}
