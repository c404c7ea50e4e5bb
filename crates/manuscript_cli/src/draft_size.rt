//! How much a draft has.
ghost use Rattle.std.specs.Prelude.{◌≡◌, length, map};
ghost use Rattle.std.specs.Str.{chars};
ghost use Rattle.draft_plan.specs.Readings.{seen_part};
ghost use Rattle.manuscript_cli.specs.Revising.{is_too_large as is_too_large_in};

use draft_plan::Part;
use fugue_ids::MOST_OPERATIONS;

fn letter_count(text: &str) -> usize
    ensures { result ≡ length (chars text.now) }
{
    text.chars().count()
}

/// Whether the parts have more titles and letters than a replica may hold operations. Then none comes to show them, and
/// the texts need not be compared.
pub(crate) fn is_too_large(parts: &[Part<'_>]) -> bool
    ensures { result ≡ is_too_large_in (map seen_part parts.now) }
{
    let mut room = MOST_OPERATIONS as usize;
    'parts: for part in parts {
        let letters = letter_count(part.text);
        if letters >= room {
            return true;
        }
        room -= letters + 1;
    }
    false
}
