//! Whether two texts are alike, by what they have in common at their ends.

ghost use Rattle.std.specs.Prelude.{◌≡◌, nat_eq, reverse};
ghost use Rattle.std.specs.List.{common_prefix_len, list_any};
ghost use Rattle.std.specs.Char.Unicode.Alphabetic.{is_alphabetic as is_letter};
ghost use Rattle.section_plan.specs.Likeness.{alike, shares_third as shares_third_in};

/// How many scalars two texts have in common at their front.
fn common_front(old: &[char], new: &[char]) -> usize
    ensures { result ≡ common_prefix_len nat_eq old.now new.now }
{
    let mut front = 0;
    'front: while front < old.len() && front < new.len() {
        if old[front] != new[front] {
            return front;
        }
        front += 1;
    }
    front
}

/// How many they have in common at their end.
fn common_end(old: &[char], new: &[char]) -> usize
    ensures { result ≡ common_prefix_len nat_eq (reverse old.now) (reverse new.now) }
{
    let mut end = 0;
    'end: while end < old.len() && end < new.len() {
        if old[old.len() - 1 - end] != new[new.len() - 1 - end] {
            return end;
        }
        end += 1;
    }
    end
}

fn has_letter(text: &[char]) -> bool
    ensures { result ≡ list_any is_letter text.now }
{
    text.iter().any(|scalar| scalar.is_alphabetic())
}

/// Whether so many scalars are a third of a length at least.
fn shares_third(common: usize, length: usize) -> bool
    ensures { result ≡ shares_third_in common length }
{
    common.saturating_mul(3) >= length
}

/// Whether the longer text has a letter, and a third of its length at least is common at the front or at the end.
pub(crate) fn are_alike(old: &[char], new: &[char]) -> bool
    ensures { result ≡ alike old.now new.now }
{
    let longer = if old.len() < new.len() { new } else { old };
    let length = longer.len();
    has_letter(longer)
        && (shares_third(common_front(old, new), length)
            || shares_third(common_end(old, new), length))
}
