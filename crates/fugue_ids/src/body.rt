//! The body of a note: bytes, of which there are at most `LONGEST_BODY`.

ghost use Rattle.std.specs.Prelude.{◌≡◌, ◌↔◌, ◌<◌, ◌≤◌, length, IfOk};

use crate::{LONGEST_BODY, NoMemory};
use std::alloc::Global;
use std::marker::Model;

/// The body of a note: at most 1,024 bytes of any kind. It is seen as the list of its bytes.
#[derive(Debug, Drop)]
pub struct Body {
    // In a box, since most operations are letters: one that takes no room for a body has 64 bytes.
    bytes: Box<Vec<u8>>,
}

impl Model for Body {
    ghost use Rattle.std.specs.Prelude.{List, ℕ, ◌≤◌, length};
    ghost use Rattle.fugue_ids.specs.declared.limits.TheConstants.{LONGEST_BODY};

    ghost Value = { List ℕ };

    ghost view = { λ b. b.bytes.value.items };

    ghost invariant = { λ b. length b.bytes.value.items ≤ LONGEST_BODY };
}

/// Why bytes are no body.
#[derive(Clone, Copy, Debug)]
pub enum BodyFault {
    /// There are more than 1,024 of them.
    TooLong,
    NoMemory,
}

impl From<NoMemory> for BodyFault {
    ghost use Rattle.std.specs.Prelude.{◌≡◌};
    ghost use Rattle.fugue_ids.specs.declared.body.BodyFault.TheVariants.{NoMemory as no_memory};

    ghost from_gives = { λ _ e. e ≡ no_memory };

    fn from(_e: NoMemory) -> BodyFault {
        BodyFault::NoMemory
    }
}

/// The bytes in a box.
fn boxed(alloc: Global, bytes: &[u8]) -> Result<Box<Vec<u8>>, NoMemory>
    ensures { IfOk result (λ copy. copy.value.items ≡ bytes.now) }
{
    let copy = Vec::from_slice(alloc, bytes)?;
    Ok(Box::new(alloc, copy)?)
}

impl Body {
    /// The bytes as a body.
    pub fn read(alloc: Global, bytes: &[u8]) -> Result<Body, BodyFault>
        ensures ok { IfOk result (λ body. body ≡ bytes.now) }
        ensures too_long { (result ≡ Err BodyFault.TooLong) ↔ (LONGEST_BODY < length bytes.now) }
    {
        if bytes.len() > LONGEST_BODY {
            return Err(BodyFault::TooLong);
        }
        Ok(Body {
            bytes: boxed(alloc, bytes)?,
        })
    }

    /// The bytes, in order.
    pub fn as_slice(&self) -> &[u8]
        ensures bytes { result.now ≡ self.now }
        ensures short { length result.now ≤ LONGEST_BODY }
    {
        self.bytes.as_slice()
    }

    /// An equal body.
    pub fn clone_in(&self, alloc: Global) -> Result<Body, NoMemory>
        ensures { IfOk result (λ copy. copy ≡ self.now) }
    {
        Ok(Body {
            bytes: boxed(alloc, self.as_slice())?,
        })
    }
}

impl PartialEq for Body {
    ghost use Rattle.std.specs.Prelude.{nat_eq};
    ghost use Rattle.std.specs.Cmp.{partial_equiv_from_equiv};
    ghost use Rattle.std.proofs.lemmas.Cmp.{nat_list_eq_equiv};
    ghost use lib.Pointwise.{pointwise};

    ghost eq = { pointwise nat_eq };

    ghost laws = { partial_equiv_from_equiv nat_list_eq_equiv };

    fn eq(&self, other: &Body) -> bool {
        self.as_slice() == other.as_slice()
    }
}

impl Eq for Body {
    ghost use Rattle.std.proofs.lemmas.Cmp.{nat_list_eq_equiv};

    ghost laws = { nat_list_eq_equiv };
}
