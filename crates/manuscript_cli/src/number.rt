//! Numbers on the command line: parsed within bounds, and turned from 1-based into 0-based indices.
ghost use Rattle.std.specs.Prelude.{◌≡◌, ◌-◌, ℕ, Some, IfSome};
ghost use Rattle.manuscript_cli.specs.Number.{IsNumber};

use edit_script::read_decimal;

/// Reads a number as the commands write it, from `low` to `high`.
pub(crate) fn read_number(word: &str, low: u32, high: u32) -> Option<u32>
    ensures number { IfSome result (λ n. IsNumber word.now low high n) }
    ensures every { (n : ℕ) → IsNumber word.now low high n → result ≡ Some n }
{
    let number = read_decimal(word)?;
    if number < low || high < number {
        return None;
    }
    Some(number)
}

/// What the words count from 1, counted from 0.
pub(crate) fn index_of(number: u32) -> usize
    ensures { result ≡ number - 1 }
{
    number.saturating_sub(1) as usize
}
