//! Where a passage occurs in a text: how often, and the first time.

ghost use Rattle.std.specs.Prelude.{◌≡◌, ◌≢◌, ◌<◌, ◌+◌, ◌^◌, []};
ghost use Rattle.passage_search.specs.Places.{ArePlaces};

use crate::steps::{place_after, place_from, step_of};
use memchr::memmem::Finder;

/// The places at which a passage stands in a text: how many they are, overlapping ones counted, and the first of them.
#[derive(Clone, Copy)]
pub struct Places {
    pub count: usize,
    pub first: usize,
}

impl Places {
    /// The same, and one more after them.
    fn and_one(self, at: usize) -> Places
        requires { self.count + 1 < 2 ^ 64 }
        ensures count { result.count ≡ self.count + 1 }
        ensures fresh { self.count ≡ 0 → result.first ≡ at }
        ensures kept { 0 < self.count → result.first ≡ self.first }
    {
        Places {
            count: self.count + 1,
            first: if self.count == 0 { at } else { self.first },
        }
    }
}

/// Where the passage stands in the text, both in bytes.
pub fn places_of(text: &[u8], passage: &[u8]) -> Places
    requires { passage.now ≢ [] }
    ensures { ArePlaces text.now passage.now result }
{
    let finder = &Finder::new(passage);
    let step = step_of(passage);
    let mut places = Places { count: 0, first: 0 };
    let mut next = place_from(finder, text, 0);
    'places: while let Some(at) = next {
        places = places.and_one(at);
        next = place_after(finder, step, text, at);
    }
    places
}
