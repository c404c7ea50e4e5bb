//! How a text is cut into parts.
ghost use Rattle.std.specs.Prelude.{◌≡◌, ◌<◌, ◌++◌, true, length, IfOk};
ghost use Rattle.std.specs.Str.{IsUtf8};
ghost use Rattle.cluster_text.specs.Boundaries.{stands_alone};
ghost use Rattle.cluster_text.specs.Cuts.{IsCut, IsWhole};
ghost use Rattle.cluster_text.specs.Parts.{whole};

use crate::boundary::opens;
use crate::ending::Ending;
use crate::part::Part;
use crate::scalars::split_first;
use crate::tree::Tree;
use std::alloc::{AllocError, Global};

/// Up to how many bytes a text is one part.
const LONG: usize = 256;

/// How many bytes a part of a longer text has at least.
const SHORT: usize = 128;

/// Cuts a text that stands alone into parts.
pub(crate) fn cut_up(alloc: Global, text: &str) -> Result<Tree, AllocError>
    requires { stands_alone text.now ≡ true }
    ensures { IfOk result (λ parts. whole parts ≡ text.now) }
{
    let mut parts = Tree::new();
    let mut rest = text;
    'parts: while !rest.is_empty() {
        let (part, behind) = split_part(rest);
        parts.push(alloc, Part::new(alloc, part)?)?;
        rest = behind;
    }
    Ok(parts)
}

/// Splits off the first part.
fn split_part(text: &str) -> (&str, &str)
    requires { stands_alone text.now ≡ true }
    ensures text { text.now ≡ result.0.now ++ result.1.now }
    ensures part { stands_alone result.0.now ≡ true }
    ensures rest { IsWhole result.1.now }
    ensures utf8 { IsUtf8 result.1.now }
    ensures shorter { length result.1.now < length text.now }
{
    if text.len() <= LONG {
        return text.split_at(text.len());
    }
    let rest = pass_part(text);
    text.split_at(text.len() - rest.len())
}

/// What stands after the first part of a long text.
fn pass_part(text: &str) -> &str
    requires { 0 < length text.now }
    ensures { IsCut text.now result.now }
{
    let mut rest = text;
    let mut ending = Ending::new();
    'scalars: loop {
        match split_first(rest) {
            Some((next, behind)) => {
                if text.len() - rest.len() >= SHORT && ending.is_closed() && opens(next) {
                    return rest;
                }
                ending = ending.pass(next);
                rest = behind;
            }
            None => return rest,
        }
    }
}
