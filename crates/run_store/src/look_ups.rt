//! Look-ups of a store, none of which allocates: counts, origins, order, visible indices, and the text.
ghost use Rattle.std.specs.Prelude.{◌≡◌, ◌≢◌, ◌↔◌, ◌≤◌, AllPairs, Contains, IfNone, IfSome, IsNone, IsTrue, None, drop, length};
ghost use Rattle.std.specs.Prelude.{◌⊎◌, false, nat_lt, slice_get};
ghost use Rattle.std.specs.Str.{encode_utf8_all};
ghost use Rattle.fugue_ids.specs.Gathers.{GathersText};
ghost use Rattle.fugue_ids.specs.Listed.{index_of};
ghost use Rattle.fugue_ids.specs.Outs.{WritesBytes};
ghost use Rattle.origin_model.specs.edits.Landing.{following};
ghost use Rattle.run_store.specs.Cells.{cell_ids, is_hidden_cell as hidden_in, origins_in_cell, cell_text, cells_shown, shown_before};
ghost use Rattle.run_store.specs.Shown.{IsInHand};

use crate::find::Spot;
use crate::shown::Shown;
use crate::store::RunStore;
use fugue_ids::{ElementId, Failed, Gather, MOST_OPERATIONS, OrderOf, Out, Sink};

impl RunStore {
    /// How many cells there are, hidden ones too.
    pub fn len(&self) -> usize
        ensures len { result ≡ length self.now.cells }
        ensures distinct { AllPairs (λ x y. x ≢ y) (cell_ids self.now.cells) }
        ensures few { length self.now.cells ≤ MOST_OPERATIONS }
    {
        self.runs.sound();
        self.runs.len()
    }

    /// How many runs keep the cells.
    pub fn runs(&self) -> usize
        ensures { result ≡ self.now.runs }
    {
        self.runs.run_count()
    }

    /// How many cells are not hidden.
    pub fn visible_count(&self) -> usize
        ensures { result ≡ length (cells_shown self.now.cells) }
    {
        self.runs.visible_count()
    }

    /// Whether the cell is held, hidden or not.
    pub fn holds(&self, id: ElementId) -> bool
        ensures { IsTrue result ↔ Contains (cell_ids self.now.cells) id }
    {
        self.runs.sound();
        match self.runs.find(id) {
            Some(_) => true,
            None => false,
        }
    }

    /// Whether the cell is held and hidden.
    pub fn is_hidden(&self, id: ElementId) -> bool
        ensures { result ≡ hidden_in self.now.cells id }
    {
        self.runs.sound();
        match self.runs.head(id) {
            Some(head) => head.hidden,
            None => false,
        }
    }

    /// The left origin and the right one. Returns None for a cell that is not held.
    pub fn origins(&self, id: ElementId) -> Option<(Option<ElementId>, Option<ElementId>)>
        ensures { result ≡ origins_in_cell self.now.cells id }
    {
        match self.runs.head(id) {
            Some(head) => Some((head.left, head.right)),
            None => None,
        }
    }

    /// The cell with i visible ones before it that is visible itself.
    pub fn nth_visible(&self, i: usize) -> Option<ElementId>
        ensures { result ≡ slice_get (cell_ids (cells_shown self.now.cells)) i }
    {
        self.runs.nth_visible(i)
    }

    /// How many visible cells stand before this one, which may be hidden itself. Returns None for a cell that is not
    /// held.
    pub fn visible_before(&self, id: ElementId) -> Option<usize>
        ensures some { IfSome result (λ n. n ≡ shown_before self.now.cells id) }
        ensures none { IsNone result ↔ (Contains (cell_ids self.now.cells) id → ⊥) }
    {
        self.runs.visible_before(id)
    }

    /// Whether the cell of a stands before that of b, hidden or not. Of a cell that is not held the answer is no.
    pub fn is_before(&self, a: ElementId, b: ElementId) -> bool
        ensures both { Contains (cell_ids self.now.cells) a → Contains (cell_ids self.now.cells) b
            → result ≡ nat_lt (index_of (cell_ids self.now.cells) a) (index_of (cell_ids self.now.cells) b) }
        ensures none { ((Contains (cell_ids self.now.cells) a → ⊥) ⊎ (Contains (cell_ids self.now.cells) b → ⊥))
            → result ≡ false }
    {
        self.runs.is_before(a, b)
    }

    /// Where that cell is.
    pub(crate) fn visible_spot(&self, i: usize) -> Option<Spot>
        ensures some { IfSome result (λ s. IsInHand (cell_ids (cells_shown self.now.cells)) i s.run s.offset) }
        ensures none { IfNone result (slice_get (cell_ids (cells_shown self.now.cells)) i ≡ None) }
    {
        self.runs.visible_spot(i)
    }

    /// The cell after this one, hidden or not; the first one for None. None comes back for one that is not held or
    /// stands last.
    pub fn after(&self, id: Option<ElementId>) -> Option<ElementId>
        ensures { result ≡ following (cell_ids self.now.cells) id }
    {
        self.behind(id)
    }

    /// A walk along the visible cells, in order.
    pub fn shown(&self) -> Shown<'_>
        ensures { result ≡ cell_ids (cells_shown self.now.cells) }
    {
        self.shown_from(0)
    }

    /// The same walk from the visible cell after this many others on.
    pub fn shown_from(&self, at: usize) -> Shown<'_>
        ensures { result ≡ drop at (cell_ids (cells_shown self.now.cells)) }
    {
        Shown::new(self, at)
    }

    /// Writes the scalars of the visible cells, in order.
    pub fn write_text<O: Sink>(&self, output: &mut O) -> Result<(), Failed>
        ensures { WritesBytes (O.seen output.old) (O.seen output.new) result
            (encode_utf8_all (cell_text self.now.cells)) }
    {
        let mut gather = Gather::new();
        self.put_text(&mut gather, output)?;
        gather.flush(output)
    }

    /// Puts the text after what waits to go out.
    pub fn put_text<O: Out>(&self, gather: &mut Gather, output: &mut O) -> Result<(), Failed>
        ensures { GathersText (O.seen output.old) (O.seen output.new) gather.old gather.new result
            (encode_utf8_all (cell_text self.now.cells)) }
    {
        self.runs.put_text(gather, output)
    }
}
