//! Each function takes and answers nothing, and its clauses are the law.

ghost use Rattle.origin_model.specs.edits.Passages.{BeforeRight, ByIdentifier, NeverMixed, Together};
ghost use Rattle.list_spec.specs.Agreement.{AllAgree, HasEverything};
ghost use Rattle.list_spec.specs.Calls.{CallsAreEdits, CallsAreNotings};
ghost use Rattle.list_spec.specs.StrongList.{EditsLand, NotingsShowNothing, StrongList};

/// Over every list of edits, notings and deliveries there is one order of all elements ever inserted, and every replica
/// shows its elements in it at every moment; an edit that is not refused lands where it was asked, and a noting shows
/// nothing. This is the strong list specification.
///
/// The replicas begin with nothing and have distinct numbers. It is not promised that anything is ever delivered.
pub fn strong_list()
    ensures one_order { StrongList }
    ensures lands { EditsLand }
    ensures quiet { NotingsShowNothing }
    ensures calls { CallsAreEdits }
    ensures notings { CallsAreNotings }
{}

/// A replica that made or was delivered each operation that was ever made, and met no limit, has accepted them all; any
/// two such replicas have the same order, and show and print the same. This is strong eventual consistency.
///
/// The replicas begin with nothing and have distinct numbers. It is not promised that anything is ever delivered.
pub fn all_agree()
    ensures everything { HasEverything }
    ensures agree { AllAgree }
{}

/// An element and all elements whose chains of left origins pass it stand without a gap, the element first, in every
/// lawful history, whoever made it.
pub fn together()
    ensures { Together }
{}

/// The other elements with an element's left origin whose chains of right origins pass it, and all whose chains of left
/// origins pass one of those, stand without a gap directly before it.
pub fn before_right()
    ensures { BeforeRight }
{}

/// Elements with the same left and the same right origin stand by identifier.
pub fn by_identifier()
    ensures { ByIdentifier }
{}

/// Two passages that were begun at one place are never mixed: all of one stands before all of the other, whether each
/// was written forwards or backwards.
pub fn never_mixed()
    ensures { NeverMixed }
{}
