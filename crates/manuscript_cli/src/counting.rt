//! The number of extended grapheme clusters of a text.
ghost use Rattle.std.specs.Prelude.{◌≡◌, length};
ghost use Rattle.cluster_text.specs.Clusters.{clusters};

use unicode_segmentation::UnicodeSegmentation;

/// How many clusters the text has.
pub(crate) fn cluster_count(text: &str) -> usize
    ensures { result ≡ length (clusters text.now) }
{
    text.graphemes(true).count()
}
