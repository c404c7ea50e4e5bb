//! A section's title: text of one line, of a limited length.

ghost use Rattle.std.specs.Prelude.{◌≡◌, ◌≢◌, ◌↔◌, ◌<◌, ◌≤◌, [], length, true, IfOk};
ghost use Rattle.std.specs.Str.{chars as scalars_in, encode_utf8_all};
ghost use Rattle.fugue_ids.specs.Titles.{has_line_end as has_line_end_in, IsTitleText};

use crate::{LONGEST_TITLE, NoMemory, has_line_end};
use std::alloc::{AllocError, Global};
use std::marker::Model;

/// A section's title: UTF-8 of 1 to 480 bytes without LF and CR. It is seen as the list of its scalars.
#[derive(Debug, Drop)]
pub struct Title {
    text: String,
}

impl Model for Title {
    ghost use Rattle.std.specs.Prelude.{List, ℕ, string_bytes};
    ghost use Rattle.std.specs.Str.{chars};
    ghost use Rattle.fugue_ids.specs.Titles.{IsTitleText};

    ghost Value = { List ℕ };

    ghost view = { λ t. chars (string_bytes t.text) };

    ghost invariant = { λ t. IsTitleText (string_bytes t.text) };
}

/// Why a text is no title, in the order in which the causes are looked for.
#[derive(Clone, Copy, Debug, PartialEq, Eq)]
pub enum TitleFault {
    Empty,
    /// It has more than 480 bytes.
    TooLong,
    /// An LF or a CR stands in it.
    LineEnd,
    NoMemory,
}

impl From<AllocError> for TitleFault {
    ghost use Rattle.std.specs.Prelude.{◌≡◌};
    ghost use Rattle.fugue_ids.specs.declared.title.TitleFault.TheVariants.{NoMemory as no_memory};

    ghost from_gives = { λ _ e. e ≡ no_memory };

    fn from(_e: AllocError) -> TitleFault {
        TitleFault::NoMemory
    }
}

impl Title {
    /// The text as a title: one line of 1 to 480 bytes.
    pub fn read(alloc: Global, text: &str) -> Result<Title, TitleFault>
        ensures ok { IfOk result (λ title. encode_utf8_all title ≡ text.now) }
        ensures empty { (result ≡ Err TitleFault.Empty) ↔ (text.now ≡ []) }
        ensures too_long { (result ≡ Err TitleFault.TooLong) ↔ (LONGEST_TITLE < length text.now) }
        ensures line_end { (result ≡ Err TitleFault.LineEnd)
            ↔ ((text.now ≢ []) × (length text.now ≤ LONGEST_TITLE) × (has_line_end_in text.now ≡ true)) }
    {
        if text.is_empty() {
            return Err(TitleFault::Empty);
        }
        if text.len() > LONGEST_TITLE {
            return Err(TitleFault::TooLong);
        }
        if has_line_end(text.as_bytes()) {
            return Err(TitleFault::LineEnd);
        }
        Ok(Title {
            text: String::from_str(alloc, text)?,
        })
    }

    /// The text of the title.
    pub fn as_str(&self) -> &str
        ensures text { result.now ≡ encode_utf8_all self.now }
        ensures scalars { scalars_in result.now ≡ self.now }
        ensures is_title { IsTitleText result.now }
    {
        self.text.as_str()
    }

    /// An equal title.
    pub fn clone_in(&self, alloc: Global) -> Result<Title, NoMemory>
        ensures { IfOk result (λ copy. copy ≡ self.now) }
    {
        Ok(Title {
            text: String::from_str(alloc, self.text.as_str())?,
        })
    }
}

impl PartialEq for Title {
    ghost use Rattle.std.specs.Prelude.{nat_eq};
    ghost use Rattle.std.specs.Cmp.{partial_equiv_from_equiv};
    ghost use Rattle.std.proofs.lemmas.Cmp.{nat_list_eq_equiv};
    ghost use lib.Pointwise.{pointwise};

    ghost eq = { pointwise nat_eq };

    ghost laws = { partial_equiv_from_equiv nat_list_eq_equiv };

    fn eq(&self, other: &Title) -> bool {
        self.text.as_str() == other.text.as_str()
    }
}

impl Eq for Title {
    ghost use Rattle.std.proofs.lemmas.Cmp.{nat_list_eq_equiv};

    ghost laws = { nat_list_eq_equiv };
}
