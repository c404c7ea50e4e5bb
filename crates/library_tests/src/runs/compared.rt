//! A store compared with its cells in a vector.

use super::plain::{id_at, is_listed, position};
use crate::assertions::{equal, holds_at};
use fugue_ids::{ElementId, Key, OrderOf};
use outer_ports::MemSink;
use run_store::{Cell, RunStore};
use std::alloc::Global;
use std::process::Abort;
use std::test::Fail;

/// Whether a cell stands at the place or before it.
fn stands_to(cells: &[Cell], id: ElementId, place: usize) -> bool {
    position(cells, Some(id)).is_some_and(|at| at <= place)
}

/// Each cell is found, with its neighbours. Of the cells that stand up to it, it is the last one whose key is at most its
/// own.
fn compare_cells(rt: &impl Abort, store: &RunStore, cells: &[Cell]) {
    let mut last = None;
    for (i, cell) in cells.iter().enumerate() {
        let id = Some(cell.id);
        holds_at(rt, &i, store.holds(cell.id));
        holds_at(rt, &i, is_listed(store, &id));
        equal(rt, store.is_hidden(cell.id), cell.hidden);
        equal(rt, store.origins(cell.id), Some((cell.left, cell.right)));
        equal(rt, store.key(cell.id), cell.key);
        equal(rt, store.after(id), id_at(cells, i.saturating_add(1)));
        equal(rt, store.behind(id), id_at(cells, i.saturating_add(1)));
        equal(rt, store.before(id), last);
        let found = store.last_passing(None, None, cell.key, |other| stands_to(cells, other, i));
        equal(rt, found, id);
        equal(
            rt,
            store.last_passing(None, None, cell.key, |_| false),
            None,
        );
        last = id;
    }
    equal(rt, store.len(), cells.len());
    equal(rt, store.after(None), id_at(cells, 0));
    equal(rt, store.behind(None), id_at(cells, 0));
    equal(rt, store.before(None), last);
}

fn first_among(cells: &[Cell], most: Key) -> Option<ElementId> {
    for cell in cells {
        if cell.key <= most {
            return Some(cell.id);
        }
    }
    None
}

fn last_among(cells: &[Cell], most: Key) -> Option<ElementId> {
    let mut last = None;
    for cell in cells {
        if cell.key <= most {
            last = Some(cell.id);
        }
    }
    last
}

/// Each cell beside another: which of the two stands first, and the searches for the other's key from it on and from it
/// back.
fn compare_beside(rt: &impl Abort, store: &RunStore, cells: &[Cell], j: usize, other: &Cell) {
    let most = other.key;
    equal(rt, store.first_low(None, most), first_among(cells, most));
    equal(rt, store.last_low(None, most), last_among(cells, most));
    for (i, cell) in cells.iter().enumerate() {
        let id = Some(cell.id);
        let (front, rest) = cells.split_at(i);
        let behind = rest.get(1..).unwrap_or(&[]);
        holds_at(rt, &i, is_listed(store, &id));
        holds_at(rt, &j, is_listed(store, &Some(other.id)));
        equal(rt, store.earlier(cell.id, other.id), i < j);
        equal(rt, store.first_low(id, most), first_among(behind, most));
        equal(rt, store.last_low(id, most), last_among(front, most));
    }
}

/// The store stands for the cells, by every call. Those that are not hidden come in order.
pub fn compare(
    rt: &impl Abort,
    alloc: Global,
    store: &RunStore,
    cells: &[Cell],
) -> Result<(), Fail> {
    compare_cells(rt, store, cells);
    let mut text = String::new(alloc);
    let mut walk = store.shown();
    let mut seen = 0usize;
    for (j, cell) in cells.iter().enumerate() {
        compare_beside(rt, store, cells, j, cell);
        if !cell.hidden {
            let found = (
                store.nth_visible(seen),
                store.shown_from(seen).step(),
                walk.step(),
            );
            equal(rt, found, (Some(cell.id), Some(cell.id), Some(cell.id)));
            seen = seen.saturating_add(1);
            text.push(cell.ch)?;
        }
    }
    equal(rt, (store.nth_visible(seen), walk.step()), (None, None));
    equal(rt, store.visible_count(), seen);
    let mut output = MemSink::new(alloc, 16, Vec::new(alloc));
    store.write_text(&mut output)?;
    equal(rt, output.written(), text.as_bytes());
    Ok(())
}
