//! Laws of the definitions: each function takes and answers nothing, and its clauses are the law.

ghost use Rattle.origin_model.specs.taking.Closure.{ClosureOfSet, ClosureIsClosed, ClosureBySet, SameSetConverges};
ghost use Rattle.origin_model.specs.taking.Closure.{ClosureOfUnion, ClosureOfMerge, KeptSuffice, SettlingEnds};
ghost use Rattle.origin_model.specs.taking.Closure.{StaysSettled, PartsAsOne, SavedSuffice, SelfNamedNeverAccepted};
ghost use Rattle.origin_model.specs.frames.Joins.{StreamsJoin};
ghost use Rattle.origin_model.specs.taking.Repeats.{AcceptedIsInClosure, ClosureIsGreatest, ClosureIsMonotone};
ghost use Rattle.origin_model.specs.taking.Repeats.{QuietPassIsLast, RepeatsChangeNothing, ReplicaIsRebuilt};
ghost use Rattle.origin_model.specs.edits.Landing.{LandsBehind, LandsBehindLeaf, LandsBehindNewest, LandsBehindOrigin};
ghost use Rattle.origin_model.specs.edits.RunLaws.{RunLands, RunsGoInWhole, TypedIsRun};
ghost use Rattle.origin_model.specs.order.Laws.{OrderTotal, LaterOpsKeepOrder, PartsKeepOrder, OrderBySet};
ghost use Rattle.origin_model.specs.sides.KeyLaws.{BlockEndByKeys, BlockStartByKeys, GapByKeys, KeyBound, KeysStay};
ghost use Rattle.origin_model.specs.sides.KeyLaws.{NewKey, RunKey, SiblingsByKeys};
ghost use Rattle.origin_model.specs.sides.Walk.{WalkIsOrder, WalkIsWhole};

/// The elements of a place are in a total order, which `order` lists.
pub fn order_total()
    ensures { OrderTotal }
{}

/// Later operations leave the order of the older elements, and so do any operations that a lawful part lacks.
pub fn later_ops_keep_order()
    ensures later { LaterOpsKeepOrder }
    ensures parts { PartsKeepOrder }
{}

/// An element whose right origin stands directly after its left origin lands between them, whoever made it.
///
/// The start and the end count as the two ends of the order. The law speaks of every lawful history, and not only of
/// those that edits make. An element that is the first to have its left origin lands directly after it wherever its
/// right origin stands, so what was typed in a row stands as one piece.
pub fn lands_behind()
    ensures between { LandsBehind }
    ensures by_origin { LandsBehindOrigin }
    ensures leaf { LandsBehindLeaf }
    ensures newest { LandsBehindNewest }
    ensures run { RunLands }
{}

/// A run is accepted in one piece where nothing of it is there, its first Text is Ready, nothing that waits has or names
/// one of its identifiers, and there is room. What an edit types is such a run.
pub fn runs_go_in_whole()
    ensures whole { RunsGoInWhole }
    ensures typed { TypedIsRun }
{}

/// The order of a place is the walk of the tree of sides: left children, the node, right children.
///
/// The definitions tell the order by chains of origins, and the walk is told by the tree alone, so this is one order
/// told twice.
pub fn walk_is_order()
    ensures order { WalkIsOrder }
    ensures whole { WalkIsWhole }
{}

/// The key of an element is fixed when it comes, and known from those of its origins.
pub fn keys_are_fixed()
    ensures new { NewKey }
    ensures stay { KeysStay }
    ensures run { RunKey }
    ensures bound { KeyBound }
{}

/// The tree of sides is read off the order by keys, where they fit their numbers: the ends of a block, the children of
/// a slot, and so the gap of a new element.
pub fn gap_by_keys()
    ensures end { BlockEndByKeys }
    ensures start { BlockStartByKeys }
    ensures siblings { SiblingsByKeys }
    ensures gap { GapByKeys }
{}

/// The order is fixed by the set of the operations.
pub fn order_by_set()
    ensures { OrderBySet }
{}

/// In whatever order, grouping and repetition operations are taken in, what is accepted is the closure of their set.
///
/// The law speaks of lists in which no two different operations have one identifier, taken in without the answers Full
/// and TooMany.
pub fn closure_of_set()
    ensures closure { ClosureOfSet }
    ensures closed { ClosureIsClosed }
    ensures closure_by_set { ClosureBySet }
    ensures same_set { SameSetConverges }
    ensures union { ClosureOfUnion }
    ensures merge { ClosureOfMerge }
{}

/// Two whole streams, one after the other, are one: its operations are those of the first and then those of the second.
///
/// The second one may be cut short or end in bytes that are no frame. The joined stream then ends so too, as many bytes
/// further on as the first one has.
pub fn streams_join()
    ensures { StreamsJoin }
{}

/// The closure of a list is the greatest lawful part of it, so it grows with the list, and whatever the limits, nothing
/// else is accepted.
///
/// A list may be taken in again and again. The first time that no answer is TooMany and nothing is accepted, all of the
/// closure had been accepted before, however few operations may wait.
pub fn closure_is_greatest()
    ensures greatest { ClosureIsGreatest }
    ensures monotone { ClosureIsMonotone }
    ensures accepted { AcceptedIsInClosure }
    ensures last { QuietPassIsLast }
{}

/// What a replica holds may be taken in again: by itself it changes nothing, and from nothing it leads to the same.
pub fn replicas_are_rebuilt()
    ensures again { RepeatsChangeNothing }
    ensures rebuilt { ReplicaIsRebuilt }
{}

/// The kept operations of a list stand for all of it.
pub fn kept_suffice()
    ensures kept { KeptSuffice }
    ensures settles { SettlingEnds }
    ensures settled { StaysSettled }
    ensures parts { PartsAsOne }
    ensures saved { SavedSuffice }
{}

/// An operation that names its own identifier is never accepted, whatever came before it.
pub fn self_named_never_accepted()
    ensures { SelfNamedNeverAccepted }
{}
