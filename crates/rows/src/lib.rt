// The theory between rows and runs: theorems only, each on a function that does nothing.
// They hold in every book, and for every grade. Code that saturates, or that follows paths, cites the lemmas in proofs/.

#![tactic(auto)]

ghost use Rattle.rows.specs.Theorems.{Sound, Complete, Unfolds, MovesGrade, WaysAreRuns, TableBest, TableSome, PartBounds};
ghost use Rattle.rows.specs.Theorems.{ReasonsShow, ReasonsTurn, SameRows};

use grade::grade::Grade;
use grade::theorems::lawful;

// An accepting path of derived rows is a run into the watch, with exactly the derivations' moves.
pub fn paths_are_runs()
    ensures { Sound }
{}

// Every run from an opened phase into the watch is an accepting path of derived rows, with the same moves.
pub fn runs_are_paths()
    ensures { Complete }
{}

// An accepting path shows a run that can be made, move by move.
pub fn paths_unfold()
    ensures { Unfolds }
{}

// The moves of an accepting path have exactly the grade of its derivations, so ways have the grades of runs.
pub fn grades_agree<G: Grade>()
    ensures moves { MovesGrade G.Grade.own }
    ensures ways { WaysAreRuns G.Grade.own }
{
    lawful::<G>();
}

// A table of the saturated rows tells the truth about runs of every length.
pub fn table_tells_runs<G: Grade, E>()
    ensures best { TableBest G.Grade.own E }
    ensures some { TableSome G.Grade.own E }
{
    lawful::<G>();
}

// While rows wait, the settled ones and those that wait bound every run.
pub fn part_bounds_runs<G: Grade, S, W>()
    ensures { PartBounds G.Grade.own S W }
{
    lawful::<G>();
}

// Rows that name what they were made from show a run, move by move, of exactly the grade that theirs join to.
pub fn reasons_show_runs<G: Grade, K>()
    ensures show { ReasonsShow G.Grade.own K }
    ensures turn { ReasonsTurn K }
{
    lawful::<G>();
}

// Rows, their grades and what tables say depend only on which lines stand.
pub fn lines_make_rows<G: Grade, E>()
    ensures { SameRows G.Grade.own E }
{}
