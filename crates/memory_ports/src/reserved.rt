//! Room that is reserved, and what goes into it.

ghost use Rattle.std.specs.Prelude.{◌≡◌, ◌≤◌, ◌<◌, ◌+◌, [], ◌∷◌, ◌++◌, length, vec_len, vec_capacity};
ghost use Rattle.std.specs.Prelude.{◌-◌, min, OnOk, OnErr};

use std::alloc::AllocError;

/// Takes memory for so many further items in each of two.
pub(crate) fn reserve_both<T: Drop, U: Drop>(
    one: &mut Vec<T>,
    other: &mut Vec<U>,
    count: usize,
) -> Result<(), AllocError>
    ensures items { (one.new.items ≡ one.old.items) × (other.new.items ≡ other.old.items) }
    ensures capacity { (vec_capacity one.old ≤ vec_capacity one.new)
        × (vec_capacity other.old ≤ vec_capacity other.new) }
    ensures ok { OnOk result ((vec_len one.new + count ≤ vec_capacity one.new)
        × (vec_len other.new + count ≤ vec_capacity other.new)) }
    ensures wanting { OnErr result
        (min (vec_capacity one.old - vec_len one.old) (vec_capacity other.old - vec_len other.old) < count) }
{
    one.reserve(count)?;
    other.reserve(count)?;
    Ok(())
}

/// Appends, and takes no memory.
pub(crate) fn append(old: &mut Vec<u8>, bytes: &[u8])
    requires room { vec_len old.old + length bytes.now ≤ vec_capacity old.old }
    ensures items { old.new.items ≡ old.old.items ++ bytes.now }
    ensures capacity { vec_capacity old.old ≤ vec_capacity old.new }
{
    match old.extend_from_slice(bytes) {
        Ok(()) => {}
        Err(_) => unreachable!(),
    }
}

/// Adds one, and takes no memory.
pub(crate) fn add<T: Drop>(old: &mut Vec<T>, item: T)
    requires room { vec_len old.old < vec_capacity old.old }
    ensures items { old.new.items ≡ old.old.items ++ item ∷ [] }
    ensures capacity { vec_capacity old.old ≤ vec_capacity old.new }
{
    match old.push(item) {
        Ok(()) => {}
        Err(_) => unreachable!(),
    }
}
