//! The manuscript in bytes.
ghost use Rattle.std.specs.Prelude.{◌≡◌, reverse, IfOk, not, filter};
ghost use Rattle.std.specs.Str.{encode_utf8_all};
ghost use Rattle.fugue_ids.specs.Outs.{WritesBytes};
ghost use Rattle.origin_model.specs.declared.operations.Place.TheVariants.{Catalogue as catalogue, Section as within};
ghost use Rattle.origin_model.specs.operations.History.{holder};
ghost use Rattle.origin_model.specs.order.Printed.{title_of, text as text_on, printed_section, manuscript};
ghost use Rattle.origin_model.specs.order.Printed.{is_hidden as hidden_on, deletes as deletes_on};
ghost use Rattle.origin_model.specs.order.Listed.{ListsAll, part, scalar_bytes_of, elements_at, shows};

use crate::Place;
use crate::operations::lookup::find_holder;
use crate::order::listing::{Listed, is_at};
use fugue_ids::{ElementId, Failed, Op, OpKey, Out, write_heading, write_scalar, write_whole};
use std::alloc::{AllocError, Global};

/// Writes the scalar of an element, and nothing for a section.
fn write_scalar_of<O: Out>(out: &mut O, ops: &[Op], id: ElementId) -> Result<(), Failed>
    ensures { WritesBytes (O.seen out.old) (O.seen out.new) result (scalar_bytes_of (reverse ops.now) id) }
{
    match find_holder(ops, id) {
        Some(Op::Text { ch, .. }) => write_scalar(out, *ch),
        _ => Ok(()),
    }
}

fn write_element<O: Out>(out: &mut O, ops: &[Op], e: &Listed, place: &Place) -> Result<(), Failed>
    ensures { WritesBytes (O.seen out.old) (O.seen out.new) result
        (part (scalar_bytes_of (reverse ops.now)) (reverse ops.now) place.now e.now) }
{
    if is_shown_at(ops, e, place) {
        write_scalar_of(out, ops, e.id)
    } else {
        Ok(())
    }
}

fn write_text<O: Out>(
    out: &mut O,
    ops: &[Op],
    listed: &[Listed],
    section: ElementId,
) -> Result<(), Failed>
    requires { ListsAll (reverse ops.now) listed.now }
    ensures { WritesBytes (O.seen out.old) (O.seen out.new) result
        (encode_utf8_all (text_on (reverse ops.now) section)) }
{
    let place = Place::Section(section);
    'elements: for e in listed {
        write_element(out, ops, e, &place)?;
    }
    Ok(())
}

fn title_in(ops: &[Op], section: ElementId) -> &str
    ensures { result.now ≡ encode_utf8_all (title_of (holder (reverse ops.now) section)) }
{
    match find_holder(ops, section) {
        Some(Op::Section { title, .. }) => title.as_str(),
        _ => "",
    }
}

/// Writes the section where it is shown.
fn write_section<O: Out>(
    out: &mut O,
    ops: &[Op],
    listed: &[Listed],
    e: &Listed,
) -> Result<(), Failed>
    requires { ListsAll (reverse ops.now) listed.now }
    ensures { WritesBytes (O.seen out.old) (O.seen out.new) result
        (part (printed_section (reverse ops.now)) (reverse ops.now) catalogue e.now) }
{
    if !is_shown_at(ops, e, &Place::Catalogue) {
        return Ok(());
    }
    write_heading(out, title_in(ops, e.id))?;
    write_text(out, ops, listed, e.id)?;
    write_whole(out, b"\n")
}

pub fn write_manuscript<O: Out>(out: &mut O, ops: &[Op], listed: &[Listed]) -> Result<(), Failed>
    requires { ListsAll (reverse ops.now) listed.now }
    ensures { WritesBytes (O.seen out.old) (O.seen out.new) result (manuscript (reverse ops.now)) }
{
    'sections: for e in listed {
        write_section(out, ops, listed, e)?;
    }
    Ok(())
}

fn deletes(op: &Op, id: ElementId) -> bool
    ensures { result ≡ deletes_on id op.now }
{
    op.key() == OpKey::Target(id)
}

fn is_hidden(ops: &[Op], id: ElementId) -> bool
    ensures { result ≡ hidden_on (reverse ops.now) id }
{
    let mut i = ops.len();
    'scan: while i > 0 {
        i -= 1;
        if deletes(&ops[i], id) {
            return true;
        }
    }
    false
}

/// Whether the element is shown at the place.
pub fn is_shown_at(ops: &[Op], e: &Listed, place: &Place) -> bool
    ensures { result ≡ shows (reverse ops.now) place.now e.now }
{
    is_at(e, place) && !is_hidden(ops, e.id)
}

/// The shown elements of the place, in order.
pub fn shown_in(
    alloc: Global,
    ops: &[Op],
    listed: &[Listed],
    place: &Place,
) -> Result<Vec<ElementId>, AllocError>
    ensures { IfOk result (λ found. found.items
        ≡ filter (λ x. not (hidden_on (reverse ops.now) x)) (elements_at place.now listed.now)) }
{
    let mut found = Vec::new(alloc);
    'scan: for e in listed {
        if is_shown_at(ops, e, place) {
            found.push(e.id)?;
        }
    }
    Ok(found)
}
