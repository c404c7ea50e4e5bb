//! What a test asserts, as functions: each is proved once, where a macro is proved anew at each place that uses it.

ghost use Rattle.std.specs.Prelude.{◌≡◌, IsTrue, true};

use std::fmt::Debug;
use std::process::Abort;

/// Stops the test where the value found is not the one wanted, and prints both.
pub fn equal<T: Debug + PartialEq + Drop>(rt: &impl Abort, found: T, wanted: T)
    ensures { T.eq found wanted ≡ true }
{
    assert_eq!(*rt; found, wanted);
}

/// As `equal`, in the row of a table, which is printed too.
pub fn equal_at<R: Debug, T: Debug + PartialEq + Drop>(
    rt: &impl Abort,
    row: &R,
    found: T,
    wanted: T,
)
    ensures { T.eq found wanted ≡ true }
{
    assert_eq!(*rt; found, wanted, "{row:?}");
}

/// Stops the test where the condition does not hold in the row of a table, which is printed.
pub fn holds_at<R: Debug>(rt: &impl Abort, row: &R, is_so: bool)
    ensures { IsTrue is_so }
{
    assert!(*rt; is_so, "{row:?}");
}
