//! The cells of a store in a vector.
ghost use Rattle.std.specs.Prelude.{IsTrue};
ghost use Rattle.fugue_ids.specs.Keys.{ids as ids_in};
ghost use Rattle.fugue_ids.specs.Listed.{HoldsOrigin};
ghost use Rattle.origin_model.specs.sides.Slot.{IsBeside};
ghost use Rattle.run_store.specs.Cells.{cell_ids, keyed_cells};
ghost use Rattle.run_store.specs.Stored.{IsAloneWhereEmpty};

use fugue_ids::{ElementId, Gap, Key, NoMemory};
use run_store::{Cell, RunStore};

/// Where a cell stands that there is.
pub fn position(cells: &[Cell], id: Option<ElementId>) -> Option<usize> {
    for (i, cell) in cells.iter().enumerate() {
        if Some(cell.id) == id {
            return Some(i);
        }
    }
    None
}

pub fn id_at(cells: &[Cell], i: usize) -> Option<ElementId> {
    match cells.get(i) {
        Some(cell) => Some(cell.id),
        None => None,
    }
}

/// The key of a new cell with these origins.
pub fn new_key(cells: &[Cell], left: &Option<ElementId>, right: &Option<ElementId>) -> Key {
    let before = cells.iter().find(|cell| Some(cell.id) == *left);
    let behind = cells.iter().find(|cell| Some(cell.id) == *right);
    let depth = match before {
        Some(cell) => cell.key.depth.saturating_add(1),
        None => 1,
    };
    let forest = match (before, behind) {
        (Some(cell), _) if cell.right == *right => 0,
        (_, Some(cell)) if cell.left == *left => cell.key.forest.saturating_add(1),
        _ => 0,
    };
    Key { depth, forest }
}

/// How many cells stand before the gap.
pub fn gap_position(cells: &[Cell], gap: &Gap) -> usize {
    match gap {
        Gap::Alone => 0,
        Gap::Before(id) => position(cells, Some(*id)).unwrap_or(0),
        Gap::After(id) => position(cells, Some(*id)).map_or(0, |i| i.saturating_add(1)),
    }
}

/// Whether the cell continues the run of the one that it is put after.
pub fn is_continuing(before: &Cell, cell: &Cell) -> bool {
    cell.left == Some(before.id)
        && cell.right == before.right
        && cell.id.replica == before.id.replica
        && Some(cell.id.counter) == before.id.counter.checked_add(1)
        && !before.hidden
}

/// Whether a cell may go into the gap.
fn is_beside(store: &RunStore, gap: &Gap) -> bool
    ensures beside { IsTrue result → IsBeside gap.now (cell_ids store.now.cells) }
    ensures alone { IsTrue result → IsAloneWhereEmpty gap.now store.now.cells }
{
    match gap {
        Gap::Alone => store.len() == 0,
        Gap::Before(id) | Gap::After(id) => store.holds(*id),
    }
}

/// Whether the origin stands in the order, or is the start or the end.
pub fn is_listed(store: &RunStore, origin: &Option<ElementId>) -> bool
    ensures { IsTrue result → HoldsOrigin (ids_in (keyed_cells store.now.cells)) origin.now }
{
    match origin {
        None => true,
        Some(id) => store.holds(*id),
    }
}

pub fn insert(
    store: &mut RunStore,
    gap: Gap,
    id: ElementId,
    left: Option<ElementId>,
    right: Option<ElementId>,
    ch: char,
) -> Result<(), NoMemory> {
    if store.len() >= 1_000 || store.holds(id) || !is_beside(store, &gap) {
        return Err(NoMemory);
    }
    store.insert(gap, id, left, right, ch)
}

pub fn hide(store: &mut RunStore, id: ElementId) -> Result<(), NoMemory> {
    if !store.holds(id) {
        return Err(NoMemory);
    }
    store.hide(id)
}
