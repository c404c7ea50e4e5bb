//! The order in which the sections of a draft's parts stand, and the steps that lead to the order of the parts.

ghost use Rattle.std.specs.Prelude.{◌≡◌, ◌+◌, ◌<◌, IfOk, IfSome, OnOk, length, slice_index};
ghost use Rattle.section_plan.specs.Orders.{ArePlaced, IsOrder, IsStepOf, Places, order_after_move};

use fugue_ids::NoMemory;

/// A section goes from one place to another.
#[derive(Clone, Copy, Debug, PartialEq, Eq)]
pub struct Step {
    pub from: usize,
    pub to: usize,
}

/// Where a part stands, if it does from a place on.
fn place_from(order: &[usize], part: usize, near: usize) -> Option<usize>
    ensures { IfSome result (λ place. (place < length order.now) × (slice_index order.now place ≡ part)) }
{
    let mut place = near;
    'places: while place < order.len() {
        if order[place] == part {
            return Some(place);
        }
        place += 1;
    }
    None
}

/// Where a part stands: it is looked for from a place on, and then from the front on.
fn place_of(order: &[usize], part: usize, near: usize) -> usize
    requires order { IsOrder order.now }
    requires within { part < length order.now }
    ensures within { result < length order.now }
    ensures stands { slice_index order.now result ≡ part }
{
    if let Some(place) = place_from(order, part, near) {
        return place;
    }
    'places: for (place, other) in order.iter().enumerate() {
        if *other == part {
            return place;
        }
    }
    0
}

/// Where a part stands, and where it would stand after the part before it, or in front of all.
fn step_of(order: &[usize], part: usize, near: usize) -> Step
    requires order { IsOrder order.now }
    requires within { part < length order.now }
    ensures { IsStepOf order.now part result.from result.to }
{
    if part == 0 {
        return Step {
            from: place_of(order, part, near),
            to: 0,
        };
    }
    let before = place_of(order, part - 1, near);
    let from = place_of(order, part, before);
    if before < from {
        Step {
            from,
            to: before + 1,
        }
    } else {
        Step { from, to: before }
    }
}

/// Takes a member to another place.
fn reorder(order: &mut Vec<usize>, step: Step, part: usize) -> Result<(), NoMemory>
    requires { IsStepOf order.old.items part step.from step.to }
    ensures { OnOk result (order.new.items ≡ order_after_move order.old.items step.from step.to part) }
{
    let _part = order.remove(step.from);
    order.insert(step.to, part)?;
    Ok(())
}

/// Places the section of the next part: after that of the part before it, unless it stays. Answers the step that it
/// takes. Sections are looked for from `near` on. It becomes the place of the one that was looked for, so those that
/// stand in order take no time.
pub fn place_next(
    order: &mut Vec<usize>,
    stays: &[bool],
    part: usize,
    near: &mut usize,
) -> Result<Option<Step>, NoMemory>
    requires order { IsOrder order.old.items }
    requires placed { ArePlaced order.old.items stays.now part }
    requires within { part < length order.old.items }
    requires stays { part < length stays.now }
    ensures places { IfOk result (λ step. Places order.old.items order.new.items stays.now part step) }
    ensures order { OnOk result (IsOrder order.new.items) }
    ensures placed { OnOk result (ArePlaced order.new.items stays.now (part + 1)) }
    ensures length { OnOk result (length order.new.items ≡ length order.old.items) }
{
    if stays[part] {
        return Ok(None);
    }
    let step = step_of(order.as_slice(), part, *near);
    *near = step.to;
    if step.from == step.to {
        return Ok(None);
    }
    reorder(order, step, part)?;
    Ok(Some(step))
}
