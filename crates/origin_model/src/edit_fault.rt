//! Why a local edit is refused.

use fugue_ids::NoMemory;

/// Why an edit or a note was not made, in the order in which the causes are looked for. All but an allocation failure
/// change nothing; a note that was not made changes nothing at all.
#[derive(Clone, Copy, Debug, PartialEq, Eq)]
pub enum EditFault {
    /// There are not so many shown sections.
    NoSection,
    /// The position is after the end of what is shown.
    OutOfRange,
    /// What is new needs counters past the greatest number: the greatest counter so far.
    IdsSpent(u32),
    /// More would be accepted or wait than may: how many do now.
    TooMany(u32),
    /// The first operations of an edit may stand. Of a note nothing does.
    NoMemory,
}

impl From<NoMemory> for EditFault {
    ghost use Rattle.std.specs.Prelude.{◌≡◌};
    ghost use Rattle.origin_model.specs.declared.edit_fault.EditFault.TheVariants.{NoMemory as no_memory};

    ghost from_gives = { λ _ e. e ≡ no_memory };

    fn from(_e: NoMemory) -> EditFault {
        EditFault::NoMemory
    }
}
