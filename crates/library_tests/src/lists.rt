//! A map of stretches, a tree of sides, the list of a section, and an empty manuscript, by value.

ghost use Rattle.std.specs.Prelude.{◌≡◌, ◌<◌, IsTrue, true};
ghost use Rattle.origin_model.specs.sides.Node.{has_origin};

use crate::assertions::{equal, equal_at, holds_at};
use crate::ids::id;
use fugue_ids::{ElementId, NoMemory};
use outer_ports::MemSink;
use run_store::RunStore;
use section_catalogue::Manuscript;
use section_list::SectionList;
use sided_tree::{Gap, Side, SidedTree};
use std::ops::Range;
use std::test::Fail;
use stretch_map::{Follows, Position, Same, StretchMap, Typed};

/// Whether the identifier had no value, and has this one now.
fn put<V: Follows>(map: &mut StretchMap<V>, key: ElementId, value: V) -> bool {
    map.get(key).is_none() && map.insert(key, value).is_ok()
}

#[test]
fn values_are_read_and_taken_out(rt: HostRuntime) {
    let mut positions = StretchMap::new(rt.alloc());
    let mut sections = StretchMap::new(rt.alloc());
    let mut origins = StretchMap::new(rt.alloc());
    let right = Some(id(7, 0));
    let section = Same { of: id(3, 0) };
    let mut left = None;
    for counter in 0..9 {
        let own = id(1, counter);
        // Positions rise by one but for the last one, sections are those of two authors in turn, and text is typed.
        let at = (counter ^ 8) as usize;
        let is_put = put(&mut positions, own, Position { at })
            && put(&mut sections, own, section)
            && put(&mut sections, id(2, 7 + counter), section)
            && put(&mut origins, own, Typed { left, right });
        holds_at(&rt, &counter, is_put);
        left = Some(own);
    }
    equal(
        &rt,
        put(&mut positions, id(1, 3), Position { at: 0 }),
        false,
    );
    equal(&rt, sections.newest(), Some(id(2, 15)));
    equal(
        &rt,
        (sections.greatest(1), sections.greatest(3)),
        (Some(8), None),
    );
    for counter in [4, 8, 0] {
        let (own, at) = (id(1, counter), (counter ^ 8) as usize);
        let left = if counter == 0 {
            None
        } else {
            Some(id(1, counter - 1))
        };
        equal_at(
            &rt,
            &counter,
            positions.remove(own),
            Ok(Some(Position { at })),
        );
        equal_at(&rt, &counter, sections.remove(own), Ok(Some(section)));
        equal_at(
            &rt,
            &counter,
            origins.remove(own),
            Ok(Some(Typed { left, right })),
        );
    }
    equal(&rt, positions.remove(id(1, 4)), Ok(None));
    for counter in 0..10 {
        let own = id(1, counter);
        let is_there = !matches!(counter, 0 | 4 | 8 | 9);
        let position = Position {
            at: (counter ^ 8) as usize,
        };
        let left = Some(id(1, counter.saturating_sub(1)));
        let wanted = is_there.then_some(Typed { left, right });
        equal_at(&rt, &counter, origins.get(own), wanted);
        equal_at(
            &rt,
            &counter,
            positions.get(own),
            is_there.then_some(position),
        );
        equal_at(
            &rt,
            &counter,
            sections.get(own),
            is_there.then_some(section),
        );
    }
    drop(origins);
    drop(sections);
    drop(positions);
}

/// Whether none of so many identifiers had a value, and each has this one now.
fn put_run(map: &mut StretchMap<Same>, first: ElementId, count: u32, value: Same) -> bool {
    count > 0
        && count < 100
        && first.counter < 100
        && map.is_free(first, count)
        && map.insert_run(first, count, value).is_ok()
}

/// Runs of identifiers: the replica, the first counter, and how many. Some go on with others, some overlap them, and
/// some lie around one.
const RUNS: [(u32, u32, u32); 16] = [
    (2, 10, 5),
    (2, 15, 3),
    (1, 4, 1),
    (2, 8, 2),
    (2, 8, 1),
    (2, 0, 30),
    (2, 17, 2),
    (2, 30, 4),
    (1, 0, 4),
    (1, 0, 5),
    (3, 7, 9),
    (3, 0, 7),
    (3, 15, 1),
    (3, 16, 1),
    (2, 20, 10),
    (2, 18, 2),
];

/// What the identifier has in a list.
fn listed(list: &[(ElementId, Same)], own: ElementId) -> Option<Same> {
    for entry in list {
        if entry.0 == own {
            return Some(entry.1);
        }
    }
    None
}

/// The identifiers of a replica with these counters have the value of the turn.
fn list_run(
    list: &mut Vec<(ElementId, Same)>,
    replica: u32,
    counters: Range<u32>,
    turn: u32,
) -> Result<(), NoMemory>
    requires { 0 < replica }
{
    for counter in counters {
        let value = Same { of: id(9, turn) };
        list.push((id(replica, counter), value))?;
    }
    Ok(())
}

/// A run goes in where all of its identifiers are free, beside a list of what each identifier has.
#[test]
fn a_run_goes_in_where_all_of_it_is_free(rt: HostRuntime) -> Result<(), Fail> {
    let mut map = StretchMap::new(rt.alloc());
    let mut list = Vec::new(rt.alloc());
    let mut turn = 0u32;
    for (number, counter, count) in RUNS {
        turn = turn.saturating_add(1);
        let replica = number.max(1);
        let end = counter.saturating_add(count);
        let section = Same { of: id(9, turn) };
        let mut is_free = true;
        for one in counter..end {
            is_free = is_free && listed(&list, id(replica, one)).is_none();
        }
        let is_put = put_run(&mut map, id(replica, counter), count, section);
        equal_at(&rt, &turn, is_put, is_free);
        if is_free {
            list_run(&mut list, replica, counter..end, turn)?;
        }
    }
    for number in 0..4u32 {
        for counter in 0..40 {
            let own = id(number.saturating_add(1), counter);
            equal_at(&rt, &(number, counter), map.get(own), listed(&list, own));
        }
    }
    drop(list);
    drop(map);
    Ok(())
}

/// The second element hangs on the side of its origins, and is taken back.
#[test]
#[tactic(auto, using(sided_tree::proofs::OneLemmas::none_listed, sided_tree::proofs::OneLemmas::one_listed))]
fn a_tree_of_two_elements_has_sides(rt: HostRuntime) {
    let (first, next) = (id(1, 0), id(1, 1));
    let mut order = RunStore::new(rt.alloc());
    let mut tree = SidedTree::new(rt.alloc());
    equal(&rt, tree.find_gap(first, None, None, &order), Gap::Alone);
    tree.attach(first, None, None, &order).expect(&rt, "memory");
    order
        .insert(Gap::Alone, first, None, None, 'a')
        .expect(&rt, "memory");
    assert!(rt; tree.holds(first) && !tree.holds(next));
    let sides = [tree.side(None, Some(first)), tree.side(Some(first), None)];
    equal(&rt, sides, [Side::Left, Side::Right]);
    let gaps = [
        tree.find_gap(next, None, Some(first), &order),
        tree.find_gap(next, Some(first), None, &order),
        tree.find_gap(next, None, None, &order),
    ];
    let wanted = [Gap::Before(first), Gap::After(first), Gap::After(first)];
    equal(&rt, gaps, wanted);
    tree.attach(next, Some(first), None, &order)
        .expect(&rt, "memory");
    equal(&rt, tree.side(Some(first), Some(next)), Side::Left);
    tree.detach(next);
    assert!(rt; tree.holds(first) && !tree.holds(next));
    tree.attach(next, None, Some(first), &order)
        .expect(&rt, "memory");
    equal(&rt, tree.side(Some(first), Some(next)), Side::Right);
    drop(tree);
    drop(order);
}

fn is_held(list: &SectionList, origin: &Option<ElementId>) -> bool
    ensures { IsTrue result → has_origin list.now.nodes origin.now ≡ true }
{
    match origin {
        None => true,
        Some(id) => list.holds(*id),
    }
}

#[test]
fn letters_stand_by_their_origins_and_are_found_among_all_and_among_the_visible(rt: HostRuntime) {
    let [a, b, d] = [id(1, 1), id(1, 0), id(2, 0)];
    let mut list = SectionList::new(rt.alloc());
    for (own, left, right, ch) in [
        (b, None, None, 'B'),
        (a, None, Some(b), 'A'),
        (d, None, Some(b), 'D'),
        (id(3, 0), Some(a), Some(b), 'X'),
        (id(2, 1), Some(a), Some(d), 'Y'),
    ] {
        assert!(rt; list.len() < 100 && !list.holds(own));
        assert!(rt; is_held(&list, &left) && is_held(&list, &right));
        list.insert(own, left, right, ch).expect(&rt, "memory");
    }
    for text in ["AXYDB", "AXYB", "AXYB"] {
        let mut output = MemSink::new(rt.alloc(), 16, Vec::new(rt.alloc()));
        holds_at(&rt, &text, list.write_text(&mut output).is_ok());
        equal(&rt, output.written(), text.as_bytes());
        assert!(rt; list.holds(d));
        list.hide(d).expect(&rt, "memory");
    }
    equal(&rt, (list.is_hidden(d), list.is_hidden(b)), (true, false));
    equal(&rt, (list.visible_count(), list.len()), (4, 5));
    equal(
        &rt,
        (list.nth_visible(3), list.nth_visible(4)),
        (Some(b), None),
    );
    equal(
        &rt,
        (list.after(None), list.after(Some(d))),
        (Some(a), Some(b)),
    );
    equal(&rt, list.after(Some(b)), None);
    drop(list);
}

#[test]
fn a_new_manuscript_shows_nothing(rt: HostRuntime) {
    let manuscript = Manuscript::new(rt.alloc());
    equal(
        &rt,
        (manuscript.section_count(), manuscript.catalogue().len()),
        (0, 0),
    );
    equal(
        &rt,
        (manuscript.section_at(0), manuscript.place_of(id(1, 0))),
        (None, None),
    );
    let mut output = MemSink::new(rt.alloc(), 16, Vec::new(rt.alloc()));
    equal(&rt, manuscript.write_all(&mut output).is_ok(), true);
    equal(&rt, output.written().len(), 0);
    drop(manuscript);
}
