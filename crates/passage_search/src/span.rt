//! Which clusters of a text a range of bytes touches.

ghost use Rattle.std.specs.Prelude.{◌≡◌, if◌then◌else◌};
ghost use Rattle.cluster_text.specs.Clusters.{clusters as clusters_of};
ghost use Rattle.passage_search.specs.Spans.{clusters_spanned};

use unicode_segmentation::UnicodeSegmentation;

/// Some clusters of a text, one after the other: how many stand before them, and how many they are.
#[derive(Clone, Copy)]
pub struct Span {
    pub first: usize,
    pub count: usize,
}

/// The extended grapheme clusters (Unicode Standard Annex #29) that have bytes of the passage from one byte to another.
pub fn span_of(text: &str, from: usize, to: usize) -> Span
    ensures { result ≡ clusters_spanned (clusters_of text.now) from to }
{
    let [mut at, mut ended, mut begun] = [0, 0, 0];
    let mut clusters = text.graphemes(true);
    'clusters: while let Some(cluster) = clusters.next() {
        begun += one_if(at < to);
        at += cluster.len();
        ended += one_if(at <= from);
    }
    Span {
        first: ended,
        count: begun.saturating_sub(ended),
    }
}

fn one_if(test: bool) -> usize
    ensures { result ≡ (if test then 1 else 0) }
{
    if test { 1 } else { 0 }
}
