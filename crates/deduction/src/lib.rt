// Best-first saturation over any deduction system: theorems only, each on a function that does nothing.
// They hold for items I, rules R and grades G of any types, and for settled and waiting entries, S and W,
// however these are stored. Code that saturates cites the lemmas in proofs/.

#![tactic(auto)]

ghost use Rattle.deduction.specs.Theorems.{NextIsBest, SettledIsFinal, FinishedIsAll, FinishedIsBest};
ghost use Rattle.deduction.specs.Theorems.{UnsettledIsBounded, ListIsBounded, ListIsKnown};
ghost use Rattle.deduction.specs.Theorems.{StartHolds, SettlingKeeps};
ghost use Rattle.deduction.specs.Theorems.{SameLength, KnownOutnumber, OutnumberNoRoom, OutnumberExactly, OverfullOutnumber, FilledExactly};
ghost use Rattle.deduction.specs.Theorems.{NoneLeadsBack, FollowingEnds, AxiomGrade, GradesFollow, MoreRules};

// The next to settle has the best grade over all its derivations.
pub fn next_is_best<I, R, G, S, W>()
    ensures { NextIsBest I R G S W }
{}

// Settled grades are final at any moment.
pub fn settled_is_final<I, R, G, S, W>()
    ensures { SettledIsFinal I R G S W }
{}

// When nothing waits, exactly the derivable items are settled, each with its best grade.
pub fn finished_is_complete<I, R, G, S, W>()
    ensures all { FinishedIsAll I R G S W }
    ensures best { FinishedIsBest I R G S W }
{}

// While something waits, nothing unsettled is better than the best that waits, and no list of items with an unsettled one among them.
pub fn unsettled_is_bounded<I, R, G, S, W>()
    ensures item { UnsettledIsBounded I R G S W }
    ensures list { ListIsBounded I R G S W }
    ensures either { ListIsKnown I R G S W }
{}

// The invariant holds at the start.
pub fn start_holds<I, R, G, S, W>()
    ensures { StartHolds I R G S W }
{}

// A settling keeps the invariant, whatever the entries are afterwards.
pub fn settling_keeps<I, R, G, S, W, T, V>()
    ensures { SettlingKeeps I R G S W T V }
{}

// What a refusal for want of places rests on, and what it excludes.
pub fn counting_stands<I, R, G, S, W>()
    ensures same { SameLength I }
    ensures known { KnownOutnumber I R G S W }
    ensures list { OutnumberNoRoom I R }
    ensures listed { OutnumberExactly I R }
    ensures overfull { OverfullOutnumber I R }
    ensures filled { FilledExactly I R }
{}

// Reasons of smaller rank never lead back, and following them ends.
pub fn reasons_end<X>()
    ensures back { NoneLeadsBack X }
    ensures ends { FollowingEnds X }
{}

// A derivation by an axiom has the grade that the axiom gives, and grades follow along a map that keeps joins.
pub fn derivation_grades<I, R, G, H>()
    ensures lone { AxiomGrade I R G }
    ensures follow { GradesFollow I R G H }
{}

// More rules derive more, at the same grades.
pub fn more_rules_derive_more<I, R, Q, G>()
    ensures { MoreRules I R Q G }
{}
