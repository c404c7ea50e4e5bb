//! Where two lists of bytes first differ.

ghost use Rattle.std.specs.Prelude.{◌≡◌};
ghost use Rattle.draft_plan.specs.Differences.{first_difference as first_difference_in};

/// The first place, from 0, where the bytes differ, or where the shorter ones end. `None` where they are the same.
pub fn first_difference(old: &[u8], new: &[u8]) -> Option<usize>
    ensures { result ≡ first_difference_in old.now new.now }
{
    let mut at = 0;
    'bytes: while at < old.len() && at < new.len() {
        if old[at] != new[at] {
            return Some(at);
        }
        at += 1;
    }
    if old.len() == new.len() {
        return None;
    }
    Some(at)
}
