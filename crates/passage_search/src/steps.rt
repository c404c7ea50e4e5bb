//! The next place of a passage, where places may overlap.
//!
//! A passage that begins anew within its first half, as `aaaa` or `abab`, can stand at very many places, each a step
//! after the one before. There only the bytes of one step are compared for each place. Places of any other passage are
//! at least half of it apart. So all places are found in a time that is linear in the text and the passage.
ghost use Rattle.std.specs.Prelude.{◌≢◌, ◌+◌, ◌≤◌, [], length};
ghost use Rattle.memchr.specs.Find.{FindsNeedle, OccursAt};
ghost use Rattle.passage_search.specs.Steps.{IsSafeStep};

use memchr::memmem::{Finder, find};

/// How near to each other two places of a passage can be.
#[derive(Clone, Copy)]
pub(crate) struct Step {
    /// No two places are nearer.
    pub bytes: usize,
    /// Whether each byte of the passage is the same as the one so many bytes after it.
    pub repeats: bool,
}

/// The least period of the passage, where that is at most half of its length.
pub(crate) fn step_of(passage: &[u8]) -> Step
    requires { passage.now ≢ [] }
    ensures { IsSafeStep passage.now result }
{
    let half = passage.len().div_ceil(2);
    match find(&passage[1..], &passage[..half]) {
        None => Step {
            bytes: passage.len() - half + 1,
            repeats: false,
        },
        Some(at) => Step {
            bytes: at + 1,
            repeats: passage.starts_with(&passage[at + 1..]),
        },
    }
}

/// The first place at a byte of the text or after it.
pub(crate) fn place_from(finder: &Finder, text: &[u8], from: usize) -> Option<usize>
    requires { from ≤ length text.now }
    ensures { FindsNeedle text.now finder.now from result }
{
    let at = finder.find(&text[from..])?;
    Some(from + at)
}

/// The first place after this one.
pub(crate) fn place_after(finder: &Finder, step: Step, text: &[u8], at: usize) -> Option<usize>
    requires step { IsSafeStep finder.now step }
    requires place { OccursAt text.now finder.now at }
    ensures { FindsNeedle text.now finder.now (at + 1) result }
{
    let passage = finder.needle();
    let last_step = &passage[passage.len() - step.bytes..];
    if step.repeats && text[at + passage.len()..].starts_with(last_step) {
        return Some(at + step.bytes);
    }
    place_from(finder, text, at + step.bytes)
}
