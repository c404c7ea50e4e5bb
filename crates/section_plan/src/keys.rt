//! What sections and parts are matched by.

ghost use Rattle.std.specs.Prelude.{◌≡◌};
ghost use Rattle.section_plan.specs.Matching.{is_keyed, key_in};

use crate::part::Part;

/// What a section and a part are alike in.
#[derive(Clone, Copy, Debug, PartialEq, Eq)]
pub enum Key {
    Text,
    Title,
}

/// The key of a part.
pub(crate) fn key_of<'a>(part: &Part<'a>, key: Key) -> &'a str
    ensures { result.now ≡ key_in key part.now }
{
    match key {
        Key::Text => part.text,
        Key::Title => part.title,
    }
}

/// Whether the part is matched by this key: by its text only where that is not empty.
pub(crate) fn has_key(part: &Part<'_>, key: Key) -> bool
    ensures { result ≡ is_keyed key part.now }
{
    match key {
        Key::Text => !part.text.is_empty(),
        Key::Title => true,
    }
}
