//! The places of elements.
ghost use Rattle.std.specs.Prelude.{◌≡◌, ◌<◌, ◌≤◌, ◌+◌, ◌-◌, ◌^◌, None, Some, OnErr, OnOk, ℕ, refl};
ghost use Rattle.fugue_ids.specs.Keyed.{IsReplaced};
ghost use Rattle.fugue_ids.specs.Runs.{id_after};
ghost use Rattle.section_catalogue.specs.Changes.{AnswersUpTo, IsFilled};
ghost use Rattle.section_catalogue.specs.Contents.{entry_at, places_of};

use fugue_ids::{ElementId, NoMemory};
use origin_model::Place;
use stretch_map::{Follows, StretchMap};

/// The place of an element. The elements that follow one mostly have the same.
#[derive(Clone, Copy)]
pub(crate) struct Home {
    pub place: Place,
}

impl Follows for Home {
    ghost nth = { λ first home k. home };

    ghost reaches = { λ first home k. Unit {0} };

    fn nth(&self, first: ElementId, steps: u32) -> Home {
        let _ = (first, steps);
        *self
    }

    fn leads_to(&self, first: ElementId, steps: u32, value: &Home) -> bool {
        let _ = (first, steps);
        self.place == value.place
    }

    ghost at_start = { λ first home. refl };

    ghost starts = { λ first home. tt };

    ghost joins = { λ first home j h k. tt };

    ghost adds = { λ first home j k. refl };

    ghost goes_on = { λ first home j k h. tt };
}

/// The place of a new element.
pub(crate) fn note_home(
    homes: &mut StretchMap<Home>,
    id: ElementId,
    place: Place,
) -> Result<(), NoMemory>
    requires { entry_at (places_of homes.old.values) id ≡ None }
    ensures ok { OnOk result (IsReplaced (entry_at (places_of homes.old.values))
        (entry_at (places_of homes.new.values)) id (Some place)) }
    ensures newest { OnOk result (homes.new.newest ≡ Some id) }
    ensures err { OnErr result (homes.new ≡ homes.old) }
{
    homes.insert(id, Home { place })
}

/// The place of new elements, whose identifiers follow each other.
pub(crate) fn note_homes(
    homes: &mut StretchMap<Home>,
    first: ElementId,
    count: u32,
    place: Place,
) -> Result<(), NoMemory>
    requires some { 0 < count }
    requires counters { first.counter + count ≤ 2 ^ 32 }
    requires unplaced { AnswersUpTo (entry_at (places_of homes.old.values)) first count None }
    ensures ok { OnOk result (IsFilled (entry_at (places_of homes.old.values))
        (entry_at (places_of homes.new.values)) first count (Some place)) }
    ensures newest { OnOk result (homes.new.newest ≡ Some (id_after first (count - 1))) }
    ensures err { OnErr result (homes.new ≡ homes.old) }
{
    homes.insert_run(first, count, Home { place })
}

/// The places of the elements that came last go, the newest first. This wants no memory.
pub(crate) fn forget_homes(homes: &mut StretchMap<Home>, first: ElementId, count: u32)
    requires counters { first.counter + count ≤ 2 ^ 32 }
    requires newest { homes.old.newest ≡ Some (id_after first (count - 1)) }
    ensures { IsFilled (entry_at (places_of homes.old.values)) (entry_at (places_of homes.new.values)) first count None }
{
    let mut left = count;
    'forgotten: while left > 0 {
        left -= 1;
        let _gone = homes.remove(ElementId {
            replica: first.replica,
            counter: first.counter + left,
        });
    }
}

/// The place of the element that came last goes. This wants no memory.
pub(crate) fn forget_home(homes: &mut StretchMap<Home>, id: ElementId)
    requires { homes.old.newest ≡ Some id }
    ensures { IsReplaced (entry_at (places_of homes.old.values)) (entry_at (places_of homes.new.values)) id None }
{
    let _gone = homes.remove(id);
}

/// The place of the element.
pub(crate) fn home_of(homes: &StretchMap<Home>, id: ElementId) -> Option<Place>
    ensures { result ≡ entry_at (places_of homes.now.values) id }
{
    match homes.get(id) {
        Some(home) => Some(home.place),
        None => None,
    }
}
