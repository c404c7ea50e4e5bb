//! Places in clusters, by the counts of parts.
ghost use Rattle.std.specs.Prelude.{◌≡◌, ◌↔◌, ◌<◌, ◌≤◌, ◌^◌, length, string_bytes, take, IfSome, IsNone};
ghost use Rattle.cluster_text.specs.Clusters.{clusters as clusters_of, scalars as scalars_of};
ghost use Rattle.cluster_text.specs.Parts.{scalar_count, whole};

use crate::part::Part;
use crate::scalars::count_scalars;
use crate::tree::Tree;
use unicode_segmentation::UnicodeSegmentation;

impl Tree {
    /// How many scalars stand before the cluster `at`. Returns None where there is none. Only the part in which it
    /// stands is read.
    pub(crate) fn find_place(&self, at: usize) -> Option<usize>
        requires { scalar_count self.now < 2 ^ 64 }
        ensures some { IfSome result (λ found. found ≡ scalars_of (take at (clusters_of (whole self.now)))) }
        ensures none { IsNone result ↔ (length (clusters_of (whole self.now)) ≤ at) }
    {
        let Some(node) = self.top() else {
            return None;
        };
        let before = node.left.clusters();
        if at < before {
            return node.left.find_place(at);
        }
        let passed = node.left.scalars();
        let within = at - before;
        if within < node.part.clusters {
            let here = scalars_before(&node.part, within);
            return Some(passed + here);
        }
        match node.right.find_place(within - node.part.clusters) {
            Some(behind) => Some(passed + node.part.scalars + behind),
            None => None,
        }
    }
}

/// How many scalars the first n clusters of a part have. Where it has as many scalars as clusters, each has one.
fn scalars_before(part: &Part, n: usize) -> usize
    requires { n ≤ length (clusters_of (string_bytes part.now.text)) }
    ensures { result ≡ scalars_of (take n (clusters_of (string_bytes part.now.text))) }
{
    if part.clusters == part.scalars {
        return n;
    }
    count_front(part.text.as_str(), n)
}

/// How many scalars the first n clusters have.
fn count_front(text: &str, n: usize) -> usize
    requires { n ≤ length (clusters_of text.now) }
    ensures { result ≡ scalars_of (take n (clusters_of text.now)) }
{
    let mut clusters = text.graphemes(true);
    let mut scalars = 0;
    'passed: for _ in 0..n {
        match clusters.next() {
            Some(cluster) => scalars += count_scalars(cluster),
            None => return scalars,
        }
    }
    scalars
}
