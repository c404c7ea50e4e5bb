//! The buffers with the scalars of all runs: the first is shared, the others begin as copies.
ghost use Rattle.std.specs.Prelude.{◌≡◌, ◌<◌, ◌≤◌, ◌+◌, ◌^◌, [], ◌∷◌, ◌++◌, drop, length, map, take};
ghost use Rattle.std.specs.Prelude.{slice_index_or, slice_set, OnErr, OnOk, IfOk};

use fugue_ids::NoMemory;
use std::alloc::Global;
use std::marker::Model;

/// Stretches of letters, each in the order of arrival. A letter is never moved or changed, so runs share a stretch by
/// ranges of it.
///
/// Each run begins in the first stretch, so that a run of one letter costs no more than that letter. One that is typed
/// on after the letters of another is copied into a stretch of its own, once.
#[derive(Drop)]
pub struct Letters {
    first: Vec<char>,
    others: Vec<Vec<char>>,
    alloc: Global,
}

impl Model for Letters {
    ghost use Rattle.std.specs.Prelude.{◌∷◌, List, ℕ, map};

    ghost Value = { List (List ℕ) };

    ghost view = { λ l. l.first.items ∷ map (λ v. v.items) l.others.items };
}

impl Letters {
    pub(crate) fn new(alloc: Global) -> Letters
        ensures { result ≡ [] ∷ [] }
    {
        Letters {
            first: Vec::new(alloc),
            others: Vec::new(alloc),
            alloc,
        }
    }

    /// The letters of a stretch.
    pub(crate) fn stretch(&self, stretch: u32) -> &[char]
        ensures { result.now ≡ slice_index_or self.now stretch [] }
    {
        if stretch == 0 {
            return self.first.as_slice();
        }
        match self.others.get(stretch as usize - 1) {
            Some(letters) => letters.as_slice(),
            None => &[],
        }
    }

    /// Letters after those of the first stretch. Returns where they begin there.
    pub(crate) fn begin(&mut self, text: &[char]) -> Result<u32, NoMemory>
        requires { length (slice_index_or self.old 0 []) < 2 ^ 32 }
        ensures ok { IfOk result (λ start. (start ≡ length (slice_index_or self.old 0 []))
            × (self.new ≡ slice_set self.old 0 (slice_index_or self.old 0 [] ++ text.now))) }
        ensures err { OnErr result (self.new ≡ self.old) }
    {
        let start = self.first.len() as u32;
        self.first.extend_from_slice(text)?;
        Ok(start)
    }

    /// A new stretch of a part of another one and more letters.
    pub(crate) fn copy(
        &mut self,
        stretch: u32,
        start: u32,
        len: u32,
        text: &[char],
    ) -> Result<u32, NoMemory>
        requires within { start + len ≤ length (slice_index_or self.old stretch []) }
        requires few { length self.old < 2 ^ 32 }
        ensures ok { IfOk result (λ n. (n ≡ length self.old)
            × (self.new ≡ self.old ++ (take len (drop start (slice_index_or self.old stretch [])) ++ text.now) ∷ [])) }
        ensures err { OnErr result (self.new ≡ self.old) }
    {
        let start = start as usize;
        let end = start + len as usize;
        let letters = followed(self.alloc, &self.stretch(stretch)[start..end], text)?;
        let stretch = self.others.len() as u32 + 1;
        self.others.push(letters)?;
        Ok(stretch)
    }

    /// More letters in a stretch.
    pub(crate) fn extend(&mut self, stretch: u32, text: &[char]) -> Result<(), NoMemory>
        requires { stretch < length self.old }
        ensures ok { OnOk result (self.new
            ≡ slice_set self.old stretch (slice_index_or self.old stretch [] ++ text.now)) }
        ensures err { OnErr result (self.new ≡ self.old) }
    {
        if stretch == 0 {
            self.first.extend_from_slice(text)?;
            return Ok(());
        }
        extend_letters(&mut self.others, stretch as usize - 1, text)
    }

    /// Takes the letters of the first stretch back that stand there or after.
    pub(crate) fn take_back(&mut self, start: u32)
        ensures { self.new ≡ slice_set self.old 0 (take start (slice_index_or self.old 0 [])) }
    {
        self.first.truncate(start as usize);
    }
}

/// The letters, and more.
fn followed(alloc: Global, front: &[char], text: &[char]) -> Result<Vec<char>, NoMemory>
    ensures { IfOk result (λ v. v.items ≡ front.now ++ text.now) }
{
    let mut letters = Vec::new(alloc);
    letters.extend_from_slice(front)?;
    letters.extend_from_slice(text)?;
    Ok(letters)
}

fn extend_letters(
    stretches: &mut [Vec<char>],
    stretch: usize,
    text: &[char],
) -> Result<(), NoMemory>
    requires { stretch < length stretches.old }
    ensures ok { OnOk result (map (λ v. v.items) stretches.new
        ≡ slice_set (map (λ v. v.items) stretches.old) stretch
        (slice_index_or (map (λ v. v.items) stretches.old) stretch [] ++ text.now)) }
    ensures err { OnErr result (map (λ v. v.items) stretches.new ≡ map (λ v. v.items) stretches.old) }
{
    let letters = &mut stretches[stretch];
    letters.extend_from_slice(text)?;
    Ok(())
}
