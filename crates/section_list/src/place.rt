//! One sequence: insertion where the origins say, deletion, look-ups by visible index, and its text.
ghost use Rattle.std.specs.Prelude.{◌≡◌, ◌↔◌, ◌⊎◌, ◌<◌, ◌≤◌, ◌+◌, ◌^◌, ◌∷◌, [], false, true, drop, length, nat_lt, slice_get, IfSome};
ghost use Rattle.std.specs.Prelude.{IfErr, IsNone, OnErr, OnOk};
ghost use Rattle.std.specs.List.{Contains};
ghost use Rattle.std.specs.Str.{encode_utf8_all};
ghost use Rattle.fugue_ids.specs.Gathers.{GathersText};
ghost use Rattle.fugue_ids.specs.Listed.{index_of};
ghost use Rattle.fugue_ids.specs.Outs.{WritesBytes};
ghost use Rattle.fugue_ids.specs.declared.key.Gap.TheVariants.{Alone};
ghost use Rattle.origin_model.specs.edits.Landing.{following};
ghost use Rattle.origin_model.specs.sides.Node.{IsNew, has_node, has_origin, node_order};
ghost use Rattle.origin_model.specs.sides.Slot.{IsBeside, at_gap};
ghost use Rattle.run_store.specs.Cells.{cell_ids, cell_text, cells_shown, is_hidden_cell, shown_before};
ghost use Rattle.section_list.specs.SectionList.{AreAllNodes, AreNoNodes, IsInOrder, empty_listing, with_element, with_elements};
ghost use Rattle.section_list.specs.SectionList.{with_hidden, with_run_hidden};

use fugue_ids::{ElementId, Failed, Gap, Gather, MOST_OPERATIONS, NoMemory, Out, Sink};
use origin_model::Node;
use run_store::{RunStore, Shown, StoppedAfter};
use sided_tree::{Ages, NodeLookup, NodeRun, find_gap};
use std::alloc::Global;
use std::marker::Model;

/// One place: its elements in the order of their origins, with their scalars and hidden marks. The store has the origins
/// too.
#[derive(Drop)]
pub struct SectionList {
    ages: Ages,
    store: RunStore,
}

impl Model for SectionList {
    ghost use Rattle.section_list.specs.SectionList.{IsInOrder, Listing};

    ghost Value = { Listing };

    ghost view = { λ s. record { nodes = s.ages.nodes; cells = s.store.cells } };

    ghost invariant = { λ s. IsInOrder (record { nodes = s.ages.nodes; cells = s.store.cells }) };
}

impl NodeLookup for SectionList {
    ghost nodes = { λ list. list.nodes };

    fn find(&self, id: ElementId) -> Option<Node> {
        match self.store.origins(id) {
            Some((left, right)) => Some(Node { id, left, right }),
            None => None,
        }
    }
}

impl SectionList {
    /// A place without elements. It takes no memory.
    pub fn new(alloc: Global) -> SectionList
        ensures nothing { result ≡ empty_listing }
        ensures in_order { IsInOrder result }
    {
        SectionList {
            ages: Ages::new(),
            store: RunStore::new(alloc),
        }
    }

    /// How many elements there are, hidden ones too.
    pub fn len(&self) -> usize
        ensures len { result ≡ length self.now.cells }
        ensures in_order { IsInOrder self.now }
    {
        self.store.len()
    }

    /// How many elements are visible.
    pub fn visible_count(&self) -> usize
        ensures { result ≡ length (cells_shown self.now.cells) }
    {
        self.store.visible_count()
    }

    /// Whether an element, hidden or not, has the identifier.
    pub fn holds(&self, id: ElementId) -> bool
        ensures { result ≡ has_node self.now.nodes id }
    {
        self.store.holds(id)
    }

    /// Whether the element is held and hidden.
    pub fn is_hidden(&self, id: ElementId) -> bool
        ensures { result ≡ is_hidden_cell self.now.cells id }
    {
        self.store.is_hidden(id)
    }

    /// The element with i visible ones before it that is visible itself.
    pub fn nth_visible(&self, i: usize) -> Option<ElementId>
        ensures { result ≡ slice_get (cell_ids (cells_shown self.now.cells)) i }
    {
        self.store.nth_visible(i)
    }

    /// How many visible elements stand before this one, which may be hidden itself. Returns None for one that is not
    /// held.
    pub fn visible_before(&self, id: ElementId) -> Option<usize>
        ensures some { IfSome result (λ n. n ≡ shown_before self.now.cells id) }
        ensures none { IsNone result ↔ (Contains (cell_ids self.now.cells) id → ⊥) }
    {
        self.store.visible_before(id)
    }

    /// Whether a stands before b, hidden or not. Of an element that is not held the answer is no.
    pub fn is_before(&self, a: ElementId, b: ElementId) -> bool
        ensures both { Contains (cell_ids self.now.cells) a → Contains (cell_ids self.now.cells) b
            → result ≡ nat_lt (index_of (cell_ids self.now.cells) a)
            (index_of (cell_ids self.now.cells) b) }
        ensures none { ((Contains (cell_ids self.now.cells) a → ⊥)
            ⊎ (Contains (cell_ids self.now.cells) b → ⊥)) → result ≡ false }
    {
        self.store.is_before(a, b)
    }

    /// A walk along the visible elements, in order.
    pub fn shown(&self) -> Shown<'_>
        ensures { result ≡ cell_ids (cells_shown self.now.cells) }
    {
        self.store.shown()
    }

    /// A walk along those that have `at` visible ones before them: none of these is passed.
    pub fn shown_from(&self, at: usize) -> Shown<'_>
        ensures { result ≡ drop at (cell_ids (cells_shown self.now.cells)) }
    {
        self.store.shown_from(at)
    }

    /// The element after this one, hidden or not; the first one for None. None comes back for one that is not held or
    /// stands last.
    pub fn after(&self, id: Option<ElementId>) -> Option<ElementId>
        ensures { result ≡ following (cell_ids self.now.cells) id }
    {
        self.store.after(id)
    }

    /// One element more, which is not hidden. After an allocation failure all is as before.
    pub fn insert(
        &mut self,
        id: ElementId,
        left: Option<ElementId>,
        right: Option<ElementId>,
        ch: char,
    ) -> Result<(), NoMemory>
        requires fresh { has_node self.old.nodes id ≡ false }
        requires left { has_origin self.old.nodes left ≡ true }
        requires right { has_origin self.old.nodes right ≡ true }
        requires room { length self.old.cells < MOST_OPERATIONS }
        ensures ok { OnOk result (self.new
            ≡ with_element (record { id = id; left = left; right = right }) ch self.old) }
        ensures err { OnErr result (self.new ≡ self.old) }
        ensures in_order { IsInOrder self.new }
    {
        let counter = id.counter;
        prove!(counter <= u32::MAX);
        self.insert_run(&Node { id, left, right }, &[ch])
    }

    /// An element for each letter, which are not hidden: the first, and then each typed after the one before it. After
    /// an allocation failure all is as before.
    pub fn insert_run(&mut self, first: &Node, text: &[char]) -> Result<(), NoMemory>
        requires some { 0 < length text.now }
        requires counters { first.now.id.counter + length text.now ≤ 2 ^ 32 }
        requires fresh { AreNoNodes self.old.nodes first.now.id (length text.now) }
        requires left { has_origin self.old.nodes first.now.left ≡ true }
        requires right { has_origin self.old.nodes first.now.right ≡ true }
        requires room { length self.old.cells + length text.now ≤ MOST_OPERATIONS }
        ensures ok { OnOk result (self.new ≡ with_elements first.now text.now self.old) }
        ensures err { OnErr result (self.new ≡ self.old) }
        ensures in_order { IsInOrder self.new }
    {
        self.look_at(first.left);
        let gap = self.gap_of(first);
        self.store
            .insert_run(gap, first.id, first.left, first.right, text)?;
        let count = text.len();
        let first = *first;
        self.ages = self.ages.with_run(&NodeRun { first, count });
        Ok(())
    }

    /// The element is asked for soon.
    fn look_at(&mut self, id: Option<ElementId>)
        ensures { self.new ≡ self.old }
    {
        if let Some(id) = id {
            self.store.look_at(id);
        }
    }

    /// The gap into which a new node goes.
    fn gap_of(&self, node: &Node) -> Gap
        requires { IsNew self.now.nodes node.now }
        ensures place { node_order (node.now ∷ self.now.nodes)
            ≡ at_gap result node.now.id (cell_ids self.now.cells) }
        ensures beside { IsBeside result (cell_ids self.now.cells) }
        ensures alone { (result ≡ Alone) ↔ (self.now.nodes ≡ []) }
    {
        find_gap(self, &self.store, node)
    }

    /// Hides the element. A hidden one stays as it is.
    pub fn hide(&mut self, id: ElementId) -> Result<(), NoMemory>
        requires { has_node self.old.nodes id ≡ true }
        ensures ok { OnOk result (self.new ≡ with_hidden id self.old) }
        ensures err { OnErr result (self.new ≡ self.old) }
        ensures again { is_hidden_cell self.old.cells id ≡ true → self.new ≡ self.old }
        ensures in_order { IsInOrder self.new }
    {
        self.store.hide(id)
    }

    /// Hides the elements of so many identifiers from this one on, what the store has in one run at once. Hidden ones
    /// stay as they are. An allocation failure leaves fewer hidden, and tells how many.
    pub fn hide_run(&mut self, first: ElementId, count: u32) -> Result<(), StoppedAfter>
        requires counters { first.counter + count ≤ 2 ^ 32 }
        requires held { AreAllNodes self.old.nodes first count }
        ensures ok { OnOk result (self.new ≡ with_run_hidden first count self.old) }
        ensures err { IfErr result (λ e. self.new ≡ with_run_hidden first e.done self.old) }
        ensures fewer { IfErr result (λ e. e.done < count) }
        ensures in_order { IsInOrder self.new }
    {
        self.store.hide_run(first, count)
    }

    /// Writes the text: the scalars of the visible elements, in order. They go out by whole arrays, and it takes no
    /// memory.
    pub fn write_text<O: Sink>(&self, output: &mut O) -> Result<(), Failed>
        ensures { WritesBytes (O.seen output.old) (O.seen output.new) result
            (encode_utf8_all (cell_text self.now.cells)) }
    {
        self.store.write_text(output)
    }

    /// Puts the text after what waits to go out.
    pub fn put_text<O: Out>(&self, gather: &mut Gather, output: &mut O) -> Result<(), Failed>
        ensures { GathersText (O.seen output.old) (O.seen output.new) gather.old gather.new result
            (encode_utf8_all (cell_text self.now.cells)) }
    {
        self.store.put_text(gather, output)
    }
}
