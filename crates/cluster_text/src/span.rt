//! Where clusters of a text begin, and how many scalars they have, counted from the front.

ghost use Rattle.std.specs.Prelude.{◌≡◌, ◌↔◌, ◌<◌, ◌≤◌, ◌+◌, ◌^◌, length, drop, IfSome, IsNone};
ghost use Rattle.std.specs.List.{concat};
ghost use Rattle.std.specs.Str.{chars, IsUtf8};
ghost use Rattle.unicode_segmentation.specs.Iter.{graphemes_left};
ghost use Rattle.cluster_text.specs.Clusters.{clusters as clusters_of, span, Passed};

use unicode_segmentation::{Graphemes, UnicodeSegmentation};

/// Where the cluster `at` begins, and how many scalars the `n` clusters from there on have. Returns None where the text
/// has fewer than `at + n` clusters.
pub fn cluster_span(text: &str, at: u32, n: u32) -> Option<(usize, usize)>
    ensures span { IfSome result (λ found. found ≡ span (clusters_of text.now) at n) }
    ensures none { IsNone result ↔ (length (clusters_of text.now) < at + n) }
    ensures within { IfSome result (λ found. found.0 + found.1 ≤ length (chars text.now)) }
{
    let mut clusters = text.graphemes(true);
    let start = pass(&mut clusters, at)?;
    let len = pass(&mut clusters, n)?;
    Some((start, len))
}

/// Passes the next `n` clusters, and returns how many scalars they have.
fn pass(clusters: &mut Graphemes<'_>, n: u32) -> Option<usize>
    requires { length (chars (concat (graphemes_left clusters.old))) < 2 ^ 63 }
    ensures passed { IfSome result (Passed (graphemes_left clusters.old) (graphemes_left clusters.new) n) }
    ensures none { IsNone result ↔ (length (graphemes_left clusters.old) < n) }
{
    let mut scalars = 0;
    'passed: for _ in 0..n {
        scalars += count(clusters.next()?);
    }
    Some(scalars)
}

fn count(cluster: &str) -> usize
    ensures count { result ≡ length (chars cluster.now) }
    ensures text { IsUtf8 cluster.now }
{
    cluster.chars().count()
}
