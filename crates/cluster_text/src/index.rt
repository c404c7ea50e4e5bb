//! A text in which clusters are found by their numbers, and scalars are replaced.

ghost use Rattle.std.specs.Prelude.{◌≡◌, ◌↔◌, ◌<◌, ◌≤◌, ◌+◌, length, encode_utf8_all, string_bytes, IfOk, IfSome, IsNone, OnErr, OnOk};
ghost use Rattle.std.specs.List.{splice as spliced};
ghost use Rattle.std.specs.Str.{chars, IsUtf8};
ghost use Rattle.cluster_text.specs.Clusters.{clusters as clusters_of, span as span_of};
ghost use Rattle.cluster_text.specs.Parts.{between_nuls};

use crate::cutting::cut_up;
use crate::replacing::replace;
use crate::scalars::count_scalars;
use crate::tree::Tree;
use std::alloc::{AllocError, Global};
use std::marker::Model;

/// A text in which clusters are found by their numbers, and of which scalars give way to others. Each call reads the
/// parts of the text that it touches, and the sums of as many as the tree is high.
#[derive(Drop)]
pub struct ClusterIndex {
    alloc: Global,
    parts: Tree,
    scalars: usize,
}

impl Model for ClusterIndex {
    ghost use Rattle.std.specs.Prelude.{List, ℕ};

    ghost Value = { List ℕ };

    ghost use Rattle.cluster_text.specs.Parts.{inside, IsIndex, whole};

    ghost view = { λ index. inside (whole index.parts) };

    ghost invariant = { λ index. IsIndex index.parts index.scalars };
}

impl ClusterIndex {
    pub fn new(alloc: Global, text: &str) -> Result<ClusterIndex, AllocError>
        ensures { IfOk result (λ index. index ≡ text.now) }
    {
        let text = enclose(alloc, text)?;
        Ok(ClusterIndex {
            alloc,
            parts: cut_up(alloc, text.as_str())?,
            scalars: count_scalars(text.as_str()),
        })
    }

    /// How many scalars the text has.
    pub fn len(&self) -> usize
        ensures { result ≡ length (chars self.now) }
    {
        self.scalars - 2
    }

    /// Where the cluster `at` begins, and how many scalars the `n` clusters from there on have. Returns None where the
    /// text has fewer than `at + n` clusters.
    pub fn span(&self, at: u32, n: u32) -> Option<(usize, usize)>
        ensures span { IfSome result (λ found. found ≡ span_of (clusters_of self.now) at n) }
        ensures none { IsNone result ↔ (length (clusters_of self.now) < at + n) }
        ensures within { IfSome result (λ found. found.0 + found.1 ≤ length (chars self.now)) }
        ensures utf8 { IsUtf8 self.now }
    {
        let _most = self.scalars;
        let at = at as usize + 1;
        let start = self.parts.find_place(at)?;
        let end = self.parts.find_place(at + n as usize)?;
        Some((start - 1, end - start))
    }

    /// The `n` scalars from `at` on give way to a text. After an allocation failure all is as before.
    pub fn splice(&mut self, at: usize, n: usize, new: &str) -> Result<(), AllocError>
        requires { at + n ≤ length (chars self.old) }
        ensures ok { OnOk result (self.new ≡ encode_utf8_all (spliced (chars self.old) at (at + n) (chars new.now))) }
        ensures err { OnErr result (self.new ≡ self.old) }
    {
        let left = self.scalars - n;
        let Some(scalars) = left.checked_add(count_scalars(new)) else {
            return Err(AllocError);
        };
        replace(&mut self.parts, self.alloc, at + 1, at + 1 + n, new)?;
        self.scalars = scalars;
        Ok(())
    }
}

/// A text between two NULs, which join no cluster.
fn enclose(alloc: Global, text: &str) -> Result<String, AllocError>
    ensures { IfOk result (λ new. string_bytes new ≡ between_nuls text.now) }
{
    let mut new = String::with_capacity(alloc, text.len() + 2)?;
    new.push('\0')?;
    new.push_str(text)?;
    new.push('\0')?;
    Ok(new)
}
