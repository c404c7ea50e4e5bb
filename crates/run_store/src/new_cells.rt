//! What a new element's origins determine: its search key, and whether it continues the run before it.
ghost use Rattle.std.specs.Prelude.{◌≡◌, ◌<◌, ◌≤◌, IfSome, Some, length, option_map, suc};
ghost use Rattle.fugue_ids.specs.Identifiers.{id_eq};
ghost use Rattle.fugue_ids.specs.Runs.{next_id};
ghost use Rattle.run_store.specs.Cells.{cell_of_origin};
ghost use Rattle.run_store.specs.Growth.{IsHead};
ghost use Rattle.run_store.specs.Heads.{run_head_of, cell_with_letter};
ghost use Rattle.run_store.specs.NewCells.{depth_under, forest_beside as forest_by, is_continued as continues};
ghost use Rattle.run_store.specs.NewCells.{new_head as head_of, shares_right};
ghost use Rattle.run_store.specs.Runs.{cells_in};

use crate::cell::Head;
use crate::run::Runs;
use fugue_ids::{ElementId, Key, MOST_OPERATIONS};

/// Whether an identifier is the next one of the same replica.
fn is_next(last: &ElementId, id: &ElementId) -> bool
    ensures { result ≡ id_eq id.now (next_id last.now) }
{
    id.replica == last.replica && id.counter > last.counter && id.counter - last.counter == 1
}

/// Whether a new cell directly after this one continues its run.
pub(crate) fn is_continued(last: &Head, new: &Head) -> bool
    ensures { result ≡ continues (Some (cell_with_letter last.now 0)) new.now.id new.now.left new.now.right }
{
    if new.left != Some(last.id) {
        return false;
    }
    if !is_next(&last.id, &new.id) {
        return false;
    }
    new.right == last.right && !last.hidden
}

impl Runs {
    /// What the cell of a left origin says of itself.
    fn left_origin(&self, origin: &Option<ElementId>) -> Option<Head>
        ensures is { result ≡ option_map run_head_of (cell_of_origin (cells_in self.now) origin.now) }
        ensures depths { IfSome result (λ h. h.key.depth ≤ length (cells_in self.now)) }
        ensures forests { IfSome result (λ h. h.key.forest ≤ length (cells_in self.now)) }
    {
        match origin {
            Some(id) => self.head(*id),
            None => None,
        }
    }

    /// The same of a right origin, which mostly stands directly after the left one: that is at hand.
    fn right_origin(&self, origin: &Option<ElementId>) -> Option<Head>
        ensures is { result ≡ option_map run_head_of (cell_of_origin (cells_in self.now) origin.now) }
        ensures depths { IfSome result (λ h. h.key.depth ≤ length (cells_in self.now)) }
        ensures forests { IfSome result (λ h. h.key.forest ≤ length (cells_in self.now)) }
    {
        match origin {
            Some(id) => self.head_beside(*id),
            None => None,
        }
    }

    /// One more than the forest of the right origin, where that has the same left origin.
    fn forest_beside(&self, left: &Option<ElementId>, right: &Option<ElementId>) -> u32
        requires { length (cells_in self.now) < MOST_OPERATIONS }
        ensures is { result ≡ forest_by (cells_in self.now) left.now right.now }
        ensures small { result ≤ suc (length (cells_in self.now)) }
    {
        match self.right_origin(right) {
            Some(beside) => {
                if beside.left == *left {
                    beside.key.forest + 1
                } else {
                    0
                }
            }
            None => 0,
        }
    }

    /// The depth of the left origin, and whether that has the right origin itself.
    fn parent(&self, left: &Option<ElementId>, right: &Option<ElementId>) -> (u32, bool)
        ensures depth { result.0 ≡ depth_under (cells_in self.now) left.now }
        ensures small { result.0 ≤ length (cells_in self.now) }
        ensures shares { result.1 ≡ shares_right (cells_in self.now) left.now right.now }
    {
        match self.left_origin(left) {
            Some(parent) => (parent.key.depth, parent.right == *right),
            None => (0, false),
        }
    }

    /// What a new cell with these origins says of itself.
    pub(crate) fn new_head(
        &self,
        id: ElementId,
        left: Option<ElementId>,
        right: Option<ElementId>,
    ) -> Head
        requires { length (cells_in self.now) < MOST_OPERATIONS }
        ensures is { result ≡ head_of (cells_in self.now) id left right }
        ensures head { IsHead (cells_in self.now) result }
    {
        let (depth, shares) = self.parent(&left, &right);
        let forest = if shares {
            0
        } else {
            self.forest_beside(&left, &right)
        };
        Head {
            id,
            left,
            right,
            hidden: false,
            key: Key {
                depth: depth + 1,
                forest,
            },
        }
    }
}
