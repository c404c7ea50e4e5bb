//! Decimal numbers without sign or leading zeros, and ordinals from 1 read as indices from 0.
ghost use Rattle.std.specs.Prelude.{◌≡◌, ◌<◌, ◌+◌, ◌^◌, ◌↔◌, ℕ, Some, IfSome, IsTrue, decimal};

use itoa::Buffer;

/// Reads a number that counts from 1, and answers it counted from 0.
pub(crate) fn read_ordinal(word: &str) -> Option<u32>
    ensures number { IfSome result (λ n. word.now ≡ decimal (n + 1)) }
    ensures every { (n : ℕ) → n + 1 < 2 ^ 32 → word.now ≡ decimal (n + 1) → result ≡ Some n }
    ensures small { IfSome result (λ n. n + 1 < 2 ^ 32) }
{
    read_decimal(word)?.checked_sub(1)
}

/// Reads decimal digits with no sign, and no zero in front but in `0` itself.
pub fn read_decimal(word: &str) -> Option<u32>
    ensures number { IfSome result (λ n. word.now ≡ decimal n) }
    ensures every { (n : ℕ) → n < 2 ^ 32 → word.now ≡ decimal n → result ≡ Some n }
    ensures small { IfSome result (λ n. n < 2 ^ 32) }
{
    match word.parse::<u32>() {
        Ok(number) if is_text_of(number, word) => Some(number),
        _ => None,
    }
}

fn is_text_of(number: u32, word: &str) -> bool
    ensures { IsTrue result ↔ (word.now ≡ decimal number) }
{
    Buffer::new().format(number) == word
}
