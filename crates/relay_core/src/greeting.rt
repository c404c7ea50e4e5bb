//! The greeting that opens a session's request, read byte by byte, and the cursor that it carries.
ghost use Rattle.std.specs.Prelude.{◌≡◌, ◌≤◌, ◌<◌, ◌∷◌, ◌++◌, [], List, ℕ, length};
ghost use Rattle.origin_model.specs.relay.Session.{greeting_read as greeted_as};
ghost use Rattle.relay_core.specs.Greetings.{greets};
ghost use Rattle.relay_core.specs.declared.greeting.Greeted.TheVariants.{Partly};

use op_frame::GREETING;
use std::marker::Model;

/// The bytes of the greeting, 48 and a cursor.
const GREETING_LEN: usize = 5;

/// The first bytes of a greeting. It is seen as these bytes.
#[derive(Drop)]
pub(crate) struct Greeting {
    bytes: [u8; GREETING_LEN],
    len: usize,
}

impl Model for Greeting {
    ghost use Rattle.std.specs.Prelude.{◌<◌, List, take, ℕ};

    ghost Value = { List ℕ };

    ghost view = { λ g. take g.len g.bytes };

    ghost invariant = { λ g. g.len < 5 };
}

/// What the first bytes of a text are.
#[derive(Clone, Copy, PartialEq, Eq)]
pub(crate) enum Greeted {
    Partly,
    /// A whole greeting, with its cursor.
    Cursor(u32),
    /// Another byte than 48 came first.
    Bad,
}

impl Greeting {
    pub(crate) fn new() -> Greeting
        ensures { result ≡ [] }
    {
        Greeting {
            bytes: [0; GREETING_LEN],
            len: 0,
        }
    }

    pub(crate) fn copied(&self) -> Greeting
        ensures { result ≡ self.now }
    {
        Greeting {
            bytes: self.bytes,
            len: self.len,
        }
    }

    /// One byte more, where the greeting is not whole then.
    pub(crate) fn push(&mut self, byte: u8) -> Greeted
        ensures is { (log : List (List ℕ))
            → greeted_as log (self.old ++ byte ∷ []) ≡ greets log (self.old ++ byte ∷ []) result }
        ensures bytes { result ≡ Partly → self.new ≡ self.old ++ byte ∷ [] }
    {
        self.bytes[self.len] = byte;
        let end = self.len + 1;
        let greeted = judge(&self.bytes[..end]);
        if greeted == Greeted::Partly {
            self.len = end;
        }
        greeted
    }
}

fn judge(bytes: &[u8]) -> Greeted
    requires { length bytes.now ≤ 5 }
    ensures is { (log : List (List ℕ)) → greeted_as log bytes.now ≡ greets log bytes.now result }
    ensures short { result ≡ Partly → length bytes.now < 5 }
{
    match bytes {
        [GREETING, a, b, c, d] => Greeted::Cursor(u32::from_be_bytes([*a, *b, *c, *d])),
        [] | [GREETING, ..] => Greeted::Partly,
        _ => Greeted::Bad,
    }
}
