//! How a text ends.
ghost use Rattle.std.specs.Prelude.{◌≡◌, ◌&&◌, [], not};
ghost use Rattle.std.specs.List.{fold};
ghost use Rattle.std.specs.Str.{chars};
ghost use Rattle.cluster_text.specs.Boundaries.{is_indicator as is_indicator_on, is_mark as is_mark_on};
ghost use Rattle.cluster_text.specs.Endings.{IsEnding, ends_cluster, ending_with};

use crate::boundary::{closes, is_indicator, is_mark, is_regional, leaves_open};

/// The last character of a text, whether it is half of a flag whose other half would come after it, and whether a
/// consonant after it would join a conjunct.
#[derive(Clone, Copy)]
pub(crate) struct Ending {
    last: char,
    half: bool,
    conjunct: bool,
}

impl Ending {
    /// That of the empty text.
    pub(crate) fn new() -> Ending
        ensures { IsEnding [] result }
    {
        Ending {
            last: '\0',
            half: false,
            conjunct: false,
        }
    }

    /// That of a text with one more character.
    pub(crate) fn pass(self, next: char) -> Ending
        ensures { result ≡ ending_with self next }
    {
        let half = is_regional(next) && !self.half;
        Ending {
            last: next,
            half,
            conjunct: leaves_open(next, self.conjunct),
        }
    }

    /// That of a text with another one after it.
    pub(crate) fn pass_all(self, text: &str) -> Ending
        ensures { result ≡ fold ending_with self (chars text.now) }
    {
        text.chars().fold(self, |ending, next| ending.pass(next))
    }

    /// Whether a cluster ends after the text, where no character that joins could go on with it.
    pub(crate) fn is_closed(self) -> bool
        ensures { result ≡ ends_cluster self }
    {
        closes(self.last) || self.ends_flag() || self.ends_mark()
    }

    /// Whether it ends in whole flags.
    fn ends_flag(self) -> bool
        ensures { result ≡ is_indicator_on self.last && not self.half }
    {
        is_indicator(self.last) && !self.half
    }

    /// Whether it ends in a mark that leaves no conjunct open.
    fn ends_mark(self) -> bool
        ensures { result ≡ is_mark_on self.last && not self.conjunct }
    {
        is_mark(self.last) && !self.conjunct
    }
}
