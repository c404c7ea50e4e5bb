//! A count of values that came, and the last of them.

ghost use Rattle.std.specs.Prelude.{◌≡◌};
ghost use Rattle.outer_ports.specs.Latest.{never, once_more};

use crate::faults::raise;

/// How often something was done, and the last time.
#[derive(Clone, Copy, Debug, PartialEq, Eq)]
pub struct Latest<T: Copy> {
    /// A count at its last value stays there.
    pub count: u64,
    pub last: Option<T>,
}

impl<T: Copy> Latest<T> {
    /// It was not done yet.
    pub fn none() -> Latest<T>
        ensures { result ≡ never }
    {
        Latest {
            count: 0,
            last: None,
        }
    }

    /// It was done once more.
    pub fn add(&mut self, last: T)
        ensures { self.new ≡ once_more last self.old }
    {
        raise(&mut self.count);
        self.last = Some(last);
    }
}
