//! `Draft`: a draft read into its parts, as slices of its bytes, or the first line that is not valid.
ghost use Rattle.std.specs.Prelude.{◌≡◌, ◌↔◌, ℕ, Ok, Err, IfOk, map};
ghost use Rattle.draft_plan.specs.Drafts.{parts as parts_in};
ghost use Rattle.draft_plan.specs.Readings.{seen_part};

use crate::reading::{bad_line, read_parts};
use fugue_ids::NoMemory;
use section_plan::Part;
use std::alloc::Global;
use std::marker::Model;

/// What a draft says, as slices of it. It is seen as the list of its parts.
#[derive(Drop)]
pub struct Draft<'a> {
    parts: Vec<Part<'a>>,
}

impl<'a> Model for Draft<'a> {
    ghost use Rattle.std.specs.Prelude.{List, map};
    ghost use Rattle.draft_plan.specs.Drafts.{Part as DraftPart};
    ghost use Rattle.draft_plan.specs.Readings.{seen_part};

    ghost Value = { List DraftPart };

    ghost view = { λ d. map seen_part d.parts.items };
}

/// Why a draft was not read.
#[derive(Clone, Copy, Debug, PartialEq, Eq)]
pub enum DraftFault {
    /// The first line, from 1, that is not UTF-8, that is a heading whose title is no title, or that is the first one
    /// and no heading.
    BadDraft(usize),
    NoMemory,
}

impl From<NoMemory> for DraftFault {
    ghost use Rattle.std.specs.Prelude.{◌≡◌};
    ghost use Rattle.draft_plan.specs.declared.draft.DraftFault.TheVariants.{NoMemory as no_memory};

    ghost from_gives = { λ _ e. e ≡ no_memory };

    fn from(_e: NoMemory) -> DraftFault {
        DraftFault::NoMemory
    }
}

impl<'a> Draft<'a> {
    /// Reads the bytes of a draft. Nothing of it is copied.
    pub fn read(alloc: Global, bytes: &'a [u8]) -> Result<Draft<'a>, DraftFault>
        ensures ok { IfOk result (λ draft. parts_in bytes.now ≡ Ok draft) }
        ensures bad { (line : ℕ) → (result ≡ Err (DraftFault.BadDraft line)) ↔ (parts_in bytes.now ≡ Err line) }
    {
        if let Some(line) = bad_line(bytes) {
            return Err(DraftFault::BadDraft(line));
        }
        Ok(Draft {
            parts: read_parts(alloc, bytes)?,
        })
    }

    /// The parts, in order.
    pub fn parts(&self) -> &[Part<'a>]
        ensures { map seen_part result.now ≡ self.now }
    {
        self.parts.as_slice()
    }
}
