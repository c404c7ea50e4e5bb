//! One record of a file: reads its word, delivers the operations of its frames, reads the next commit byte.
ghost use Rattle.std.specs.Prelude.{◌≡◌, ◌≢◌, ◌⊎◌, ◌↔◌, ◌+◌, ◌<◌, ◌≤◌, ◌^◌, ℕ, length, drop, vec_len, vec_capacity, IfSome, IfOk, OnOk, None};
ghost use Rattle.origin_model.specs.declared.files.TheConstants.{LONGEST_BATCH};
ghost use Rattle.origin_model.specs.declared.grammar.Grammar.{Grammar as AnyGrammar};
ghost use Rattle.origin_model.specs.files.Image.{IsNoBatch, tag_of};
ghost use Rattle.replica_file.specs.Ends.{longest_slot};
ghost use Rattle.replica_file.specs.Loading.{CanTake, IsSameButHeld};
ghost use Rattle.replica_file.specs.Looks.{LooksOnly, ReadsNoFurther};
ghost use Rattle.replica_file.specs.Slots.{HasNoWord, IsGate, IsWord, LacksInSlot, TakesSlot};

use crate::batch::WORD;
use crate::frames::take_frames;
use crate::gate::{CLOSED, Gate, OPEN};
use crate::loading::Loading;
use crate::moments::make_room;
use crate::reading::read_from;
use crate::stop::Stop;
use origin_model::{Grammar, LONGEST_BATCH, TAG_UNIT};
use outer_ports::Disk;
use std::alloc::Global;

/// Delivers the operations of the open slot whose gate stands at this offset, and reads the next gate. Then `moments`
/// has room for one more.
pub(crate) fn take_slot<H: Disk>(
    alloc: Global,
    disk: &mut H,
    at: u64,
    loading: &mut Loading,
    moments: &mut Vec<u32>,
) -> Result<Gate, Stop>
    requires small { at + 268435470 < 2 ^ 64 }
    requires ready { CanTake loading.old.replica }
    ensures took { IfOk result (λ next. IfSome (H.seen disk.old).past (λ h. TakesSlot h.last.seen at next
        loading.old.finds_place loading.old.replica loading.new.finds_place loading.new.replica)) }
    ensures bad { result ≡ Err Stop.Bad → IfSome (H.seen disk.old).past (λ h.
        (slot : ℕ) → IsNoBatch slot (drop (at + 1) h.last.seen)) }
    ensures memory { result ≡ Err Stop.NoMemory → IfSome (H.seen disk.old).past (λ h.
        LacksInSlot h.last.seen at loading.old.finds_place loading.old.replica) }
    ensures reaches { IfOk result (λ next. next.at ≤ at + longest_slot) }
    ensures ready { OnOk result (CanTake loading.new.replica) }
    ensures same { OnOk result (IsSameButHeld loading.old.replica loading.new.replica) }
    ensures looks { LooksOnly (H.seen disk.old) (H.seen disk.new) (result ≡ Err Stop.Disk) }
    ensures onward { IfOk result (λ next. at < next.at) }
    ensures reach { IfOk result (λ next. ReadsNoFurther (next.at + 1) (H.seen disk.old) (H.seen disk.new)) }
    ensures room { OnOk result (vec_len moments.new < vec_capacity moments.new) }
    ensures moments { OnOk result (moments.new.items ≡ moments.old.items) }
{
    let word = read_word(disk, at + 1)?;
    // If operations are accepted, a moment is recorded: its room is made before the first one is read.
    make_room(moments)?;
    take_frames(alloc, disk, at + 5, word, loading)?;
    read_gate(disk, at + 5 + word.len)
}

/// The word of a slot: the grammar of the frames of its batch, and how many bytes they have.
#[derive(Clone, Copy)]
pub(crate) struct Word {
    pub(crate) grammar: Grammar,
    pub(crate) len: u64,
}

/// Reads the word of a slot.
fn read_word<H: Disk>(disk: &mut H, at: u64) -> Result<Word, Stop>
    requires { at + 4 < 2 ^ 64 }
    ensures specified { IfOk result (λ word. IfSome (H.seen disk.old).past (λ h. IsWord h.last.seen at word)) }
    ensures short { IfOk result (λ word. word.len ≤ LONGEST_BATCH) }
    ensures bad { result ≡ Err Stop.Bad → IfSome (H.seen disk.old).past (λ h. HasNoWord h.last.seen at) }
    ensures no_memory { result ≢ Err Stop.NoMemory }
    ensures looks { LooksOnly (H.seen disk.old) (H.seen disk.new) (result ≡ Err Stop.Disk) }
    ensures reach { OnOk result (ReadsNoFurther (at + 4) (H.seen disk.old) (H.seen disk.new)) }
{
    let mut bytes = [0; WORD];
    if read_from(disk, at, &mut bytes)? < WORD {
        return Err(Stop::Bad);
    }
    let word = u32::from_be_bytes(bytes);
    let len = word % TAG_UNIT;
    match grammar_of(word / TAG_UNIT) {
        Some(grammar) if len <= LONGEST_BATCH => Ok(Word {
            grammar,
            len: u64::from(len),
        }),
        _ => Err(Stop::Bad),
    }
}

/// The grammar of the tag.
fn grammar_of(tag: u32) -> Option<Grammar>
    ensures some { IfSome result (λ grammar. tag ≡ tag_of grammar) }
    ensures none { result ≡ None → (grammar : AnyGrammar) → tag ≢ tag_of grammar }
{
    match tag {
        0 => Some(Grammar::Version1),
        1 => Some(Grammar::Version2),
        _ => None,
    }
}

/// Reads the gate at this offset.
pub(crate) fn read_gate<H: Disk>(disk: &mut H, at: u64) -> Result<Gate, Stop>
    requires { at + 1 < 2 ^ 64 }
    ensures specified { IfOk result (λ gate. IfSome (H.seen disk.old).past (λ h. IsGate h.last.seen gate)) }
    ensures at { IfOk result (λ gate. gate.at ≡ at) }
    ensures bad { result ≡ Err Stop.Bad → IfSome (H.seen disk.old).past (λ h. length h.last.seen ≤ at) }
    ensures no_memory { result ≢ Err Stop.NoMemory }
    ensures looks { LooksOnly (H.seen disk.old) (H.seen disk.new) (result ≡ Err Stop.Disk) }
    ensures reach { OnOk result (ReadsNoFurther (at + 1) (H.seen disk.old) (H.seen disk.new)) }
{
    let mut gate = [CLOSED; 1];
    if read_from(disk, at, &mut gate)? == 0 {
        return Err(Stop::Bad);
    }
    Ok(Gate {
        at,
        open: gate[0] == OPEN,
    })
}
