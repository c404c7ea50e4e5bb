//! The letters of a section in passages of one replica each, and a line for each passage.
ghost use Rattle.std.specs.Prelude.{◌≡◌, ◌<◌, ◌+◌, ◌^◌, OnOk, Some, flat_map};
ghost use Rattle.fugue_ids.specs.Gathers.{GathersText};
ghost use Rattle.run_store.specs.Cells.{cell_ids, cells_shown};
ghost use Rattle.change_marks.specs.Authors.{author_line, passage_line};
ghost use Rattle.change_marks.specs.Steps.{count_in, continues_passage as goes_on_in, line_before, passage_after, passage_end};
ghost use Rattle.change_marks.specs.Stretches.{by_replica};

use fugue_ids::{ElementId, Failed, Gather, Out};
use itoa::Buffer;
use section_list::SectionList;

/// Letters of one replica that follow one another.
#[derive(Clone, Copy)]
pub(crate) struct Passage {
    pub replica: u32,
    pub count: usize,
}

/// Whether the letter is of the open passage.
fn goes_on(begun: Option<Passage>, id: ElementId) -> bool
    ensures { result ≡ goes_on_in begun id }
{
    match begun {
        Some(passage) => passage.replica == id.replica,
        None => false,
    }
}

/// The passage that is open after the letter.
fn behind(begun: Option<Passage>, id: ElementId) -> Passage
    requires { count_in begun + 1 < 2 ^ 64 }
    ensures { result ≡ passage_after begun id }
{
    let replica = id.replica;
    match begun {
        Some(passage) if passage.replica == replica => Passage {
            replica,
            count: passage.count + 1,
        },
        _ => Passage { replica, count: 1 },
    }
}

/// Puts the line of the open passage.
fn put_end<O: Out>(
    gather: &mut Gather,
    output: &mut O,
    begun: Option<Passage>,
) -> Result<(), Failed>
    ensures { GathersText (O.seen output.old) (O.seen output.new) gather.old gather.new result (passage_end begun) }
{
    match begun {
        Some(passage) => {
            let [mut replica, mut count] = [Buffer::new(), Buffer::new()];
            let replica = replica.format(passage.replica).as_bytes();
            let count = count.format(passage.count).as_bytes();
            gather.put_pieces(output, &[b"  ", replica, b" ", count, b"\n"])
        }
        None => gather.put(output, b""),
    }
}

/// Puts the line of the open passage, unless the letter is of it.
fn put_line_before<O: Out>(
    gather: &mut Gather,
    output: &mut O,
    begun: Option<Passage>,
    id: ElementId,
) -> Result<(), Failed>
    ensures { GathersText (O.seen output.old) (O.seen output.new) gather.old gather.new result (line_before begun id) }
{
    if goes_on(begun, id) {
        gather.put(output, b"")
    } else {
        put_end(gather, output, begun)
    }
}

/// Counts a letter.
fn put_letter<O: Out>(
    gather: &mut Gather,
    output: &mut O,
    begun: &mut Option<Passage>,
    id: ElementId,
) -> Result<(), Failed>
    requires { count_in begun.old + 1 < 2 ^ 64 }
    ensures text { GathersText (O.seen output.old) (O.seen output.new) gather.old gather.new result
        (line_before begun.old id) }
    ensures begun { OnOk result (begun.new ≡ Some (passage_after begun.old id)) }
{
    put_line_before(gather, output, *begun, id)?;
    *begun = Some(behind(*begun, id));
    Ok(())
}

/// Puts a line for each passage of a section.
pub(crate) fn put_passages<O: Out>(
    gather: &mut Gather,
    output: &mut O,
    list: &SectionList,
) -> Result<(), Failed>
    ensures { GathersText (O.seen output.old) (O.seen output.new) gather.old gather.new result
        (flat_map author_line (by_replica (cell_ids (cells_shown list.now.cells)))) }
{
    let most = list.visible_count();
    prove!(most <= usize::MAX);
    let mut begun = None;
    let mut shown = list.shown();
    'letters: while let Some(id) = shown.step() {
        put_letter(gather, output, &mut begun, id)?;
    }
    put_end(gather, output, begun)
}
