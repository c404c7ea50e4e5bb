//! Texts by their scalars.
ghost use Rattle.std.specs.Prelude.{◌≡◌, ◌<◌, ◌++◌, [], length, take, drop, encode_utf8, encode_utf8_all, IfSome, IsNone};
ghost use Rattle.std.specs.Str.{chars, IsUtf8};
ghost use Rattle.cluster_text.specs.Cuts.{SplitsAt};

/// How many scalars a text has.
pub(crate) fn count_scalars(text: &str) -> usize
    ensures count { result ≡ length (chars text.now) }
    ensures text { IsUtf8 text.now }
{
    text.chars().count()
}

/// Splits off the first scalar.
pub(crate) fn split_first(text: &str) -> Option<(char, &str)>
    ensures some { IfSome result (λ (scalar, rest). text.now ≡ encode_utf8 scalar ++ rest.now) }
    ensures utf8 { IfSome result (λ (_, rest). IsUtf8 rest.now) }
    ensures none { IsNone result → text.now ≡ [] }
{
    let mut scalars = text.chars();
    let first = scalars.next()?;
    Some((first, scalars.as_str()))
}

/// Splits a text after its first n scalars.
pub(crate) fn split_at_scalar(text: &str, n: usize) -> (&str, &str)
    ensures front { result.0.now ≡ encode_utf8_all (take n (chars text.now)) }
    ensures rest { result.1.now ≡ encode_utf8_all (drop n (chars text.now)) }
{
    let rest = pass_scalars(text, n);
    text.split_at(text.len() - rest.len())
}

/// What stands after the first n scalars.
fn pass_scalars(text: &str, n: usize) -> &str
    ensures { SplitsAt text.now result.now n }
{
    let mut scalars = text.chars();
    'passed: for _ in 0..n {
        match scalars.next() {
            Some(_) => {}
            None => return scalars.as_str(),
        }
    }
    scalars.as_str()
}
