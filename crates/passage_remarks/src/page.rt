//! The text of a section with the boundaries of its clusters.
ghost use Rattle.std.specs.Prelude.{◌≡◌, ◌≤◌, ◌+◌, ◌-◌, ◌<◌, ◌^◌, ℕ, List, IfOk, count_by, drop, length, nat_le, nat_lt, string_bytes, take};
ghost use Rattle.std.specs.List.{concat};
ghost use Rattle.std.specs.List.Sorted.{IsNonDecreasingBy};
ghost use Rattle.std.specs.Str.{IsUtf8, chars};
ghost use Rattle.unicode_segmentation.specs.Iter.{graphemes_left};
ghost use Rattle.cluster_text.specs.Clusters.{clusters};
ghost use Rattle.passage_remarks.specs.Boundaries.{kept_boundaries};
ghost use Rattle.passage_remarks.specs.declared.page.Boundary.{Boundary as AnyBoundary};
ghost use Rattle.passage_remarks.specs.Clusters.{passage_cluster_count as count_in, cluster_text, first_cluster as first_in};

use fugue_ids::NoMemory;
use std::alloc::Global;
use std::marker::Model;
use unicode_segmentation::UnicodeSegmentation;

/// A boundary of clusters: how many scalars and how many bytes of the text stand before it.
#[derive(Clone, Copy)]
pub(crate) struct Boundary {
    pub scalars: usize,
    pub bytes: usize,
}

/// The text of a section, in which clusters are found by scalars. It is seen as the text.
#[derive(Drop)]
pub(crate) struct Page {
    text: String,
    boundaries: Vec<Boundary>,
}

impl Model for Page {
    ghost use Rattle.std.specs.Prelude.{◌≡◌, List, ℕ, string_bytes};
    ghost use Rattle.cluster_text.specs.Clusters.{clusters};
    ghost use Rattle.passage_remarks.specs.Boundaries.{kept_boundaries};

    ghost Value = { List ℕ };

    ghost view = { λ page. string_bytes page.text };

    ghost invariant = { λ page. page.boundaries.items ≡ kept_boundaries 0 0 (clusters (string_bytes page.text)) };
}

/// How many scalars a cluster has.
fn scalar_count(cluster: &str) -> usize
    ensures count { result ≡ length (chars cluster.now) }
    ensures text { IsUtf8 cluster.now }
{
    cluster.chars().count()
}

/// The boundaries of the clusters of a text.
fn boundaries_of(alloc: Global, text: &str) -> Result<Vec<Boundary>, NoMemory>
    ensures { IfOk result (λ boundaries. boundaries.items ≡ kept_boundaries 0 0 (clusters text.now)) }
{
    let mut boundaries = Vec::new(alloc);
    let [mut scalars, mut bytes] = [0, 0];
    let mut graphemes = text.graphemes(true);
    'clusters: while let Some(cluster) = graphemes.next() {
        boundaries.push(Boundary { scalars, bytes })?;
        scalars += scalar_count(cluster);
        bytes += cluster.len();
    }
    boundaries.push(Boundary { scalars, bytes })?;
    Ok(boundaries)
}

/// How many of the boundaries stand at the scalar or before it.
fn count_up_to(boundaries: &[Boundary], at: usize) -> usize
    requires { IsNonDecreasingBy (λ (b : AnyBoundary). b.scalars) boundaries.now }
    ensures { result ≡ count_by (λ (b : AnyBoundary). nat_le b.scalars at) boundaries.now }
{
    boundaries.partition_point(|boundary| boundary.scalars <= at)
}

/// How many of the boundaries stand before the scalar.
fn count_before(boundaries: &[Boundary], at: usize) -> usize
    requires { IsNonDecreasingBy (λ (b : AnyBoundary). b.scalars) boundaries.now }
    ensures { result ≡ count_by (λ (b : AnyBoundary). nat_lt b.scalars at) boundaries.now }
{
    boundaries.partition_point(|boundary| boundary.scalars < at)
}

/// The boundaries after the first one.
fn after_first(boundaries: &[Boundary]) -> &[Boundary]
    ensures { result.now ≡ drop 1 boundaries.now }
{
    match boundaries {
        [_, behind @ ..] => behind,
        [] => &[],
    }
}

/// The bytes from `start` to `end`.
fn part(bytes: &[u8], start: usize, end: usize) -> &[u8]
    requires order { start ≤ end }
    requires within { end ≤ length bytes.now }
    ensures { result.now ≡ take (end - start) (drop start bytes.now) }
{
    &bytes[start..end]
}

impl Page {
    pub(crate) fn new(alloc: Global, text: String) -> Result<Page, NoMemory>
        ensures { IfOk result (λ page. page ≡ string_bytes text) }
    {
        let boundaries = boundaries_of(alloc, text.as_str())?;
        Ok(Page { text, boundaries })
    }

    /// How many clusters end at the scalar or before it.
    pub(crate) fn first_cluster(&self, from: usize) -> usize
        ensures { result ≡ first_in (clusters self.now) from }
    {
        count_up_to(after_first(self.boundaries.as_slice()), from)
    }

    /// How many clusters have scalars of the passage.
    pub(crate) fn cluster_count(&self, from: usize, to: usize) -> usize
        ensures { result ≡ count_in (clusters self.now) from to }
    {
        if from >= to {
            return 0;
        }
        let count = self.boundaries.len() - 1;
        let behind = count_before(&self.boundaries[..count], to);
        behind.saturating_sub(self.first_cluster(from))
    }

    /// How many bytes the first so many clusters have.
    fn bytes_before(&self, count: usize) -> usize
        requires { count ≤ length (clusters self.now) }
        ensures bytes { result ≡ length (concat (take count (clusters self.now))) }
        ensures few { length (clusters self.now) < 2 ^ 63 }
    {
        self.boundaries[count].bytes
    }

    /// The text of so many clusters, from the cluster `first` on.
    pub(crate) fn cluster_text(&self, first: usize, count: usize) -> &[u8]
        requires { first + count ≤ length (clusters self.now) }
        ensures { result.now ≡ cluster_text (clusters self.now) first count }
    {
        let start = self.bytes_before(first);
        let end = self.bytes_before(first + count);
        part(self.text.as_str().as_bytes(), start, end)
    }
}
