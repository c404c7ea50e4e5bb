//! `OrderOf`: the order of a list of elements, with the neighbours, positions and tree keys that FugueMax looks up.

ghost use Rattle.std.specs.Prelude.{◌≡◌, ◌≢◌, All, AllPairs, Bool, Contains, List, nat_lt};
ghost use Rattle.fugue_ids.specs.Identifiers.{Identifier};
ghost use Rattle.fugue_ids.specs.Keys.{HasKey, IsFit, Keyed, between, first_id, first_low as first_low_in, front_of};
ghost use Rattle.fugue_ids.specs.Keys.{ids, last_id, last_low as last_low_in, low_ids, rest_of};
ghost use Rattle.fugue_ids.specs.Listed.{index_of, HoldsOrigin};
ghost use Rattle.fugue_ids.specs.Passing.{Falls, IsTest, last_passing as last_passing_of};

use crate::{ElementId, Key};

/// An order of distinct identifiers, each with a key that is fixed when it comes. Where there is one to ask for, `key`
/// tells that they are distinct.
///
/// The searches are those that find a gap of a sided tree. A balanced tree that keeps the least key of each subtree
/// answers each in logarithmic time.
///
/// Keys are numbers of 32 bits. Two of the calls tell that they fit, so that a caller may search for the greatest key
/// of a depth.
pub trait OrderOf {
    /// The identifiers with their keys, in order.
    ghost listed: { Self → List Keyed };

    /// Whether a stands before b.
    fn earlier(&self, a: ElementId, b: ElementId) -> bool
        requires first { Contains (ids (listed self.now)) a }
        requires second { Contains (ids (listed self.now)) b }
        ensures { result ≡ nat_lt (index_of (ids (listed self.now)) a) (index_of (ids (listed self.now)) b) };

    /// The key of an element.
    fn key(&self, id: ElementId) -> Key
        requires held { Contains (ids (listed self.now)) id }
        ensures key { HasKey (listed self.now) id result }
        ensures distinct { AllPairs (λ x y. x ≢ y) (ids (listed self.now)) }
        ensures fit { All IsFit (listed self.now) };

    /// The element directly after this one; the first one after the beginning. None comes back for one that is not
    /// listed or stands last.
    fn behind(&self, id: Option<ElementId>) -> Option<ElementId>
        ensures { result ≡ first_id (rest_of id (listed self.now)) };

    /// The element directly before this one; the last one before the end.
    fn before(&self, id: Option<ElementId>) -> Option<ElementId>
        requires held { HoldsOrigin (ids (listed self.now)) id }
        ensures { result ≡ last_id (front_of id (listed self.now)) };

    /// The first element after this one, or after the beginning, whose key is at most `most`.
    fn first_low(&self, id: Option<ElementId>, most: Key) -> Option<ElementId>
        requires held { HoldsOrigin (ids (listed self.now)) id }
        ensures { result ≡ first_low_in most (rest_of id (listed self.now)) };

    /// The last element before this one, or before the end, whose key is at most `most`.
    fn last_low(&self, id: Option<ElementId>, most: Key) -> Option<ElementId>
        requires held { HoldsOrigin (ids (listed self.now)) id }
        ensures { result ≡ last_low_in most (front_of id (listed self.now)) };

    /// The last element between the two whose key is at most `most` and that passes the test. Of the elements of those
    /// keys the ones that pass have to stand first: the search halves them.
    fn last_passing<P: Fn(ElementId) -> bool>(
        &self,
        from: Option<ElementId>,
        to: Option<ElementId>,
        most: Key,
        test: P,
    ) -> Option<ElementId>
        requires from { HoldsOrigin (low_ids most (listed self.now)) from }
        requires to { HoldsOrigin (low_ids most (rest_of from (listed self.now))) to }
        requires callable { P.IsAlwaysCallable test }
        ensures last { (g : Identifier → Bool) → IsTest (P.post test) g
            → Falls g (low_ids most (between from to (listed self.now)))
            → result ≡ last_passing_of g (low_ids most (between from to (listed self.now))) }
        ensures fit { All IsFit (listed self.now) };
}
