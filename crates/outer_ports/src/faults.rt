//! The count of I/O errors of an object, and how a system call's result is counted.

ghost use Rattle.std.specs.Prelude.{◌≡◌, ◌↔◌, ◌≤◌, IsErr, IfOk, ◌⊎◌, ◌<◌, length};
ghost use Rattle.outer_ports.specs.Counts.{CountsFaults};
ghost use Rattle.outer_ports.specs.Calls.{risen};

use fugue_ids::Failed;
use std::io::{self, ErrorKind};
use std::marker::Model;

/// How often the system failed: nothing but an error that it gave raises the count.
#[derive(Drop)]
pub(crate) struct Faults {
    count: u64,
}

impl Model for Faults {
    ghost use Rattle.std.specs.Prelude.{ℕ};

    ghost Value = { ℕ };

    ghost view = { λ f. f.count };
}

impl Faults {
    pub(crate) fn none() -> Faults
        ensures { result ≡ 0 }
    {
        Faults { count: 0 }
    }

    /// What a call answers where the system gave this answer.
    pub(crate) fn pass<T>(&mut self, given: io::Result<T>) -> Result<T, Failed>
        ensures fails { IsErr result ↔ IsErr given }
        ensures gives { IfOk result (λ value. given ≡ Ok value) }
        ensures counts { CountsFaults self.old self.new result }
        ensures later { self.old ≤ self.new }
    {
        match given {
            Ok(value) => Ok(value),
            Err(_) => {
                raise(&mut self.count);
                Err(Failed)
            }
        }
    }
}

/// A count at its last value stays there.
pub fn raise(count: &mut u64)
    ensures risen { count.new ≡ risen count.old }
    ensures later { count.old ≤ count.new }
{
    *count = count.saturating_add(1);
}

/// A stream that takes nothing of a piece that is not empty has failed.
pub(crate) fn taken(given: io::Result<usize>, piece: &[u8]) -> io::Result<usize>
    ensures fails { IsErr result ↔ (IsErr given ⊎ ((given ≡ Ok 0) × (0 < length piece.now))) }
    ensures gives { IfOk result (λ count. given ≡ Ok count) }
{
    match given {
        Ok(0) if !piece.is_empty() => Err(io::Error::from(ErrorKind::WriteZero)),
        given => given,
    }
}
