//! Each function takes and answers nothing, and its clauses are the law.

ghost use Rattle.only_order.specs.Chains.{ByChains};
ghost use Rattle.only_order.specs.Reading.{OnlyManuscript};
ghost use Rattle.only_order.specs.TextOrder.{OneOrder, OnlyList, OnlyOrder};

/// In every lawful history the order of a sequence is a text order: it meets the four sentences.
///
/// The sentences speak of origins alone. Said by chains of origins, as the theorems on passages are, they are the same.
pub fn one_order()
    ensures meets { OneOrder }
    ensures by_chains { ByChains }
{}

/// It is the only one. Each relation that meets the four sentences agrees with it on all elements, and a list whose order
/// meets them is the list of the sequence. So whoever knows the origins and the sentences knows every byte that is printed.
///
/// Weidner and Kleppmann show this of FugueMax ("The Art of the Fugue", 2023) for the trees of honest replicas: the order is
/// the only one that is maximally non-interleaving.
pub fn only_order()
    ensures agrees { OnlyOrder }
    ensures list { OnlyList }
    ensures printed { OnlyManuscript }
{}
