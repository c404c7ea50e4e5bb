//! A part of a text that ends at boundaries of clusters, with its counts.

ghost use Rattle.std.specs.Prelude.{◌≡◌, true, length, string_bytes, IfOk};
ghost use Rattle.std.specs.Str.{chars};
ghost use Rattle.cluster_text.specs.Boundaries.{stands_alone};
ghost use Rattle.cluster_text.specs.Clusters.{clusters as clusters_of};

use crate::boundary::is_plain;
use crate::scalars::count_scalars;
use std::alloc::{AllocError, Global};
use unicode_segmentation::UnicodeSegmentation;

/// A part of a text that no cluster joins with what stands around it, and its counts.
#[derive(Drop)]
pub struct Part {
    pub(crate) text: String,
    pub(crate) scalars: usize,
    pub(crate) clusters: usize,
    ghost alone: { stands_alone (string_bytes text) ≡ true },
    ghost scalars_are: { scalars ≡ length (chars (string_bytes text)) },
    ghost clusters_are: { clusters ≡ length (clusters_of (string_bytes text)) },
}

impl Part {
    pub(crate) fn new(alloc: Global, text: &str) -> Result<Part, AllocError>
        requires { stands_alone text.now ≡ true }
        ensures { IfOk result (λ part. string_bytes part.text ≡ text.now) }
    {
        Ok(Part {
            text: String::from_str(alloc, text)?,
            scalars: count_scalars(text),
            clusters: count_clusters(text),
        })
    }
}

fn count_clusters(text: &str) -> usize
    ensures { result ≡ length (clusters_of text.now) }
{
    if is_plain(text) {
        return text.len();
    }
    text.graphemes(true).count()
}
