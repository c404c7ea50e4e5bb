//! A store of cells in runs beside a plain list of cells, and worked rows.

mod compared;
mod plain;

use crate::assertions::{equal, holds_at};
use crate::dice::Dice;
use crate::ids::id;
use compared::compare;
use fugue_ids::{ElementId, Gap, NoMemory};
use plain::{gap_position, hide, id_at, insert, is_continuing, new_key, position};
use run_store::{Cell, RunStore};
use std::alloc::Global;
use std::process::Abort;
use std::test::Fail;

/// Letters of one author, typed one after the other.
fn type_letters(store: &mut RunStore, letters: u32) -> Result<(), NoMemory> {
    let mut last = None;
    for counter in 0..letters {
        let id = id(1, counter);
        let gap = match last {
            Some(last) => Gap::After(last),
            None => Gap::Alone,
        };
        insert(store, gap, id, last, None, 'a')?;
        last = Some(id);
    }
    Ok(())
}

#[test]
fn what_is_typed_is_one_run_until_it_is_parted(rt: HostRuntime) {
    let (hidden, next) = (id(1, 2), id(1, 3));
    let mut store = RunStore::new(rt.alloc());
    equal(&rt, type_letters(&mut store, 5), Ok(()));
    equal(&rt, store.runs(), 1);
    for _ in 0..2 {
        equal(&rt, hide(&mut store, hidden), Ok(()));
        equal(
            &rt,
            (store.runs(), store.len(), store.visible_count()),
            (3, 5, 4),
        );
        equal(
            &rt,
            (store.is_hidden(hidden), store.is_hidden(next)),
            (true, false),
        );
        equal(&rt, store.origins(next), Some((Some(hidden), None)));
    }
    let [a, b, x] = [id(1, 0), id(1, 1), id(2, 0)];
    let put = insert(&mut store, Gap::After(a), x, Some(a), Some(b), 'X');
    equal(&rt, put, Ok(()));
    let first = [
        store.after(None),
        store.after(Some(a)),
        store.after(Some(x)),
    ];
    equal(&rt, first, [Some(a), Some(x), Some(b)]);
    equal(&rt, store.origins(b), Some((Some(a), None)));
    equal(&rt, store.runs(), 5);
    drop(store);
}

/// Fifty letters are deleted from the first on, from the last on, or from the middle on: the deleted ones share a run.
#[test]
fn letters_deleted_beside_each_other_share_a_run(rt: HostRuntime) {
    for (first, runs) in [(0u32, 2), (49, 2), (25, 3)] {
        let mut store = RunStore::new(rt.alloc());
        equal(&rt, type_letters(&mut store, 50), Ok(()));
        for turn in 0..50u32 {
            // Before and after the middle in turn.
            let counter = match first {
                25 if turn % 2 == 1 => 24u32.saturating_sub(turn / 2),
                25 => 25 + turn / 2,
                _ => turn.abs_diff(first),
            };
            equal(&rt, hide(&mut store, id(1, counter)), Ok(()));
            holds_at(&rt, &(first, turn), store.runs() <= runs);
        }
        equal(&rt, store.visible_count(), 0);
        drop(store);
    }
}

/// One cell more in both, which is shown.
fn join(
    rt: &impl Abort,
    store: &mut RunStore,
    cells: &mut Vec<Cell>,
    gap: Gap,
    id: ElementId,
    [left, right]: [Option<ElementId>; 2],
    ch: char,
) -> Result<(), Fail> {
    let cell = Cell {
        id,
        left,
        right,
        ch,
        hidden: false,
        key: new_key(cells, &left, &right),
    };
    let at = gap_position(cells, &gap).min(cells.len());
    let continuing = match cells[..at].last() {
        Some(before) => is_continuing(before, &cell),
        None => false,
    };
    let runs = store.runs();
    insert(store, gap, id, left, right, ch)?;
    let now = store.runs();
    holds_at(rt, &id, now >= runs && now <= runs.saturating_add(2));
    holds_at(rt, &id, !continuing || now == runs);
    cells.insert(at, cell)?;
    Ok(())
}

const LETTERS: [char; 4] = ['a', 'é', '€', '𝄞'];

/// One cell more: the next letter after some cell, or one with any origins in any gap.
fn put_any(
    rt: &impl Abort,
    dice: &mut Dice,
    store: &mut RunStore,
    cells: &mut Vec<Cell>,
) -> Result<(), Fail> {
    let letter = LETTERS.get(dice.roll(4)).copied().unwrap_or('z');
    let at = dice.roll(cells.len());
    let (gap, replica, counter, origins) = match cells.get(at) {
        Some(before) if dice.roll(3) > 0 => (
            Gap::After(before.id),
            before.id.replica,
            before.id.counter.saturating_add(1),
            [Some(before.id), before.right],
        ),
        beside => {
            let gap = match beside {
                None => Gap::Alone,
                Some(beside) if dice.roll(2) == 0 => Gap::Before(beside.id),
                Some(beside) => Gap::After(beside.id),
            };
            // A place past the last cell is the start or the end.
            let places = cells.len().saturating_add(cells.len() / 3);
            let origins = [
                id_at(cells, dice.roll(places)),
                id_at(cells, dice.roll(places)),
            ];
            (
                gap,
                dice.number(3).saturating_add(1),
                dice.number(50),
                origins,
            )
        }
    };
    match ElementId::new(replica, counter) {
        Some(id) if position(cells, Some(id)).is_none() => {
            join(rt, store, cells, gap, id, origins, letter)
        }
        _ => Ok(()),
    }
}

/// Hides a cell in both, twice.
fn hide_at(
    rt: &impl Abort,
    store: &mut RunStore,
    cells: &mut [Cell],
    at: usize,
) -> Result<(), Fail> {
    let Some(cell) = cells.get_mut(at) else {
        return Ok(());
    };
    let runs = store.runs();
    hide(store, cell.id)?;
    let now = store.runs();
    holds_at(rt, &at, now >= runs && now <= runs.saturating_add(2));
    hide(store, cell.id)?;
    equal(rt, store.runs(), now);
    cell.hidden = true;
    Ok(())
}

/// Changes a store and the cells beside it by turns, and compares them.
fn run_seed(rt: &impl Abort, alloc: Global, store: &mut RunStore, seed: u64) -> Result<(), Fail> {
    let mut dice = Dice { state: seed };
    let mut cells = Vec::new(alloc);
    for turn in 0..40 {
        if dice.roll(4) == 0 {
            let at = dice.roll(cells.len());
            hide_at(rt, store, &mut cells, at)?;
        } else {
            put_any(rt, &mut dice, store, &mut cells)?;
        }
        if turn % 8 == 7 {
            compare(rt, alloc, store, &cells)?;
        }
    }
    Ok(())
}

const WIPED: usize = 23;

/// Types letters and hides them all, each so many after the one before it, and at the end from the start on.
fn wipe(
    rt: &impl Abort,
    alloc: Global,
    store: &mut RunStore,
    first: usize,
    step: usize,
) -> Result<(), Fail> {
    let mut cells = Vec::new(alloc);
    let mut left = None;
    for counter in 0..WIPED as u32 {
        let gap = match left {
            Some(last) => Gap::After(last),
            None => Gap::Alone,
        };
        let own = id(1, counter);
        join(rt, store, &mut cells, gap, own, [left, None], 'w')?;
        left = Some(own);
    }
    for turn in 0..WIPED {
        let at = first.saturating_add(turn.saturating_mul(step)) % WIPED;
        hide_at(rt, store, &mut cells, at)?;
        if turn % 6 == 4 {
            compare(rt, alloc, store, &cells)?;
        }
    }
    Ok(())
}

#[test]
fn a_store_stands_for_its_cells(rt: HostRuntime) -> Result<(), Fail> {
    for seed in 1..=25 {
        let mut store = RunStore::new(rt.alloc());
        let done = run_seed(&rt, rt.alloc(), &mut store, seed);
        drop(store);
        done?;
    }
    for (first, step) in [(0, 1), (22, 22), (2, 2), (5, 5), (7, 7)] {
        let mut store = RunStore::new(rt.alloc());
        let done = wipe(&rt, rt.alloc(), &mut store, first, step);
        drop(store);
        done?;
    }
    Ok(())
}
