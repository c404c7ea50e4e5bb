//! Pairs of sections and parts.

ghost use Rattle.std.specs.Prelude.{◌≡◌, ◌<◌, ℕ, IfOk, None, Some, length};
ghost use Rattle.section_plan.specs.Matching.{AddsPair, KeepsPairs, IsMatching, part_of as part_in, section_of as section_in};

use fugue_ids::NoMemory;
use std::alloc::Global;

/// Pairs of a section, by its place, and a part of a draft. None is in two of them.
#[derive(Drop)]
pub struct Pairs {
    /// The section of each part.
    of_part: Vec<Option<usize>>,
    /// The part of each section.
    of_section: Vec<Option<usize>>,
}

impl Pairs {
    /// None of so many sections and parts.
    pub(crate) fn none(alloc: Global, sections: usize, parts: usize) -> Result<Pairs, NoMemory>
        ensures matching { IfOk result (λ pairs. IsMatching sections parts pairs) }
        ensures empty { IfOk result (λ pairs. (j : ℕ) → section_in pairs j ≡ None) }
    {
        Ok(Pairs {
            of_part: vec![in alloc; None; parts]?,
            of_section: vec![in alloc; None; sections]?,
        })
    }

    /// The section of a part.
    pub fn section_of(&self, part: usize) -> Option<usize>
        ensures { result ≡ section_in self.now part }
    {
        match self.of_part.get(part) {
            Some(section) => *section,
            None => None,
        }
    }

    /// The part of a section.
    pub fn part_of(&self, section: usize) -> Option<usize>
        ensures { result ≡ part_in self.now section }
    {
        match self.of_section.get(section) {
            Some(part) => *part,
            None => None,
        }
    }

    /// Pairs a section and a part, where both are free.
    pub(crate) fn pair_free(&mut self, section: usize, part: usize)
        ensures { KeepsPairs self.old self.new }
    {
        if section >= self.of_section.len() || part >= self.of_part.len() {
            return;
        }
        if self.of_section[section].is_none() && self.of_part[part].is_none() {
            self.add(section, part);
        }
    }

    /// Pairs a section and a part that are free.
    pub(crate) fn add(&mut self, section: usize, part: usize)
        requires section { section < length self.old.of_section.items }
        requires part { part < length self.old.of_part.items }
        requires free_section { part_in self.old section ≡ None }
        requires free_part { section_in self.old part ≡ None }
        ensures matching { KeepsPairs self.old self.new }
        ensures there { section_in self.new part ≡ Some section }
        ensures adds { AddsPair self.old self.new section part }
    {
        self.of_section[section] = Some(part);
        self.of_part[part] = Some(section);
    }
}
