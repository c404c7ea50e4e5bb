//! The heads of sections, with what became of their titles and positions.
ghost use Rattle.std.specs.Prelude.{◌≡◌, ◌++◌, ◌∷◌, [], codes, true};
ghost use Rattle.fugue_ids.specs.Gathers.{GathersText};
ghost use Rattle.catalogue_notes.specs.Lift.{is_section};
ghost use Rattle.change_marks.specs.Changes.{head, head_is_marked as marked_head, heading_bytes};
ghost use Rattle.change_marks.specs.Changes.{is_moved as moved_in, is_retitled as retitled_in, moved_mark, head_of_new, titles};

use catalogue_notes::Headings;
use fugue_ids::{ElementId, Failed, Gather, Out};
use itoa::Buffer;

/// Whether the section has another heading than it had.
fn is_retitled(then: &Headings, now: &Headings, section: ElementId) -> bool
    requires then { is_section then.now section ≡ true }
    requires now { is_section now.now section ≡ true }
    ensures { result ≡ retitled_in then.now now.now section }
{
    then.heading(section).as_bytes() != now.heading(section).as_bytes()
}

/// Whether the section stands at another position.
fn is_moved(then: &Headings, now: &Headings, section: ElementId) -> bool
    ensures { result ≡ moved_in then.now now.now section }
{
    then.position(section) != now.position(section)
}

/// Whether the head of a section has a mark.
pub(crate) fn head_is_marked(then: &Headings, now: &Headings, section: ElementId) -> bool
    requires { is_section now.now section ≡ true }
    ensures { result ≡ marked_head then.now now.now section }
{
    if !then.has(section) {
        return true;
    }
    is_retitled(then, now, section) || is_moved(then, now, section)
}

/// What stands after the heading of a section that was moved.
fn moved<'a>(then: &'a Headings<'a>, now: &'a Headings<'a>, section: ElementId) -> &'a [u8]
    ensures { result.now ≡ moved_mark then.now now.now section }
{
    if is_moved(then, now, section) {
        b" {>>moved<<}"
    } else {
        b""
    }
}

/// Puts the head line of a section that is new.
fn put_new_head<O: Out>(
    gather: &mut Gather,
    output: &mut O,
    now: &Headings,
    section: ElementId,
) -> Result<(), Failed>
    requires { is_section now.now section ≡ true }
    ensures { GathersText (O.seen output.old) (O.seen output.new) gather.old gather.new result
        (codes "# " ++ head_of_new now.now section ++ 10 ∷ []) }
{
    let heading = now.heading(section).as_bytes();
    let mut number = Buffer::new();
    let replica = number.format(section.replica).as_bytes();
    gather.put_pieces(output, &[b"# {++", heading, b"++}{>>", replica, b"<<}\n"])
}

/// Puts the head line of a section that was there.
fn put_old_head<'a, O: Out>(
    gather: &mut Gather,
    output: &mut O,
    then: &'a Headings<'a>,
    now: &'a Headings<'a>,
    section: ElementId,
) -> Result<(), Failed>
    requires then { is_section then.now section ≡ true }
    requires now { is_section now.now section ≡ true }
    ensures { GathersText (O.seen output.old) (O.seen output.new) gather.old gather.new result
        (codes "# " ++ (titles then.now now.now section ++ moved_mark then.now now.now section) ++ 10 ∷ []) }
{
    let heading = now.heading(section).as_bytes();
    let moved = moved(then, now, section);
    if is_retitled(then, now, section) {
        let old = then.heading(section).as_bytes();
        gather.put_pieces(
            output,
            &[b"# {--", old, b"--}{++", heading, b"++}", moved, b"\n"],
        )
    } else {
        gather.put_pieces(output, &[b"# ", heading, moved, b"\n"])
    }
}

/// Puts the head line of a section.
pub(crate) fn put_head<'a, O: Out>(
    gather: &mut Gather,
    output: &mut O,
    then: &'a Headings<'a>,
    now: &'a Headings<'a>,
    section: ElementId,
) -> Result<(), Failed>
    requires { is_section now.now section ≡ true }
    ensures { GathersText (O.seen output.old) (O.seen output.new) gather.old gather.new result
        (codes "# " ++ head then.now now.now section ++ 10 ∷ []) }
{
    if then.has(section) {
        put_old_head(gather, output, then, now, section)
    } else {
        put_new_head(gather, output, now, section)
    }
}

/// Puts the head line of a section that was dropped.
pub(crate) fn put_dropped_head<O: Out>(
    gather: &mut Gather,
    output: &mut O,
    then: &Headings,
    section: ElementId,
) -> Result<(), Failed>
    requires { is_section then.now section ≡ true }
    ensures { GathersText (O.seen output.old) (O.seen output.new) gather.old gather.new result
        (codes "# " ++ (codes "{--" ++ heading_bytes then.now section ++ codes "--}") ++ 10 ∷ []) }
{
    let heading = then.heading(section).as_bytes();
    gather.put_pieces(output, &[b"# {--", heading, b"--}\n"])
}
