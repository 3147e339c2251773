// What is proved of grades beyond their laws. Each function says one theorem in its contract.
ghost use Rattle.grade.specs.Lawful.{Lawful};
ghost use Rattle.grade.specs.Runs.{GoesToJoin};
ghost use Rattle.grade.specs.Facts.{MinutesStop, RankingTurnsRound, RankingIsNoGrade};

use crate::grade::Grade;

// Every grade keeps all the laws over its own relation, those of an order too.
pub fn lawful<G: Grade>()
    ensures { Lawful G.Grade.own }
{
    G::agrees();
}

// The grade of one run and then another is the join of their grades.
#[tactic(auto, using(crate::proofs::Joins::run_grade_append))]
pub fn run_grade_goes_to_join<G: Grade>()
    ensures { GoesToJoin G.Grade.own }
{
    lawful::<G>();
}

// 999,999 minutes joined with 1 and then 9,999 are 1,000,000.
#[tactic(auto, using(crate::specs::ValuesLemmas::same_minutes))]
pub fn minutes_stop()
    ensures { MinutesStop }
{}

// Ranking by class and then minutes is no grade: class 1 with 5 minutes beats class 2 with 1, and
// joining class 2 with 0 minutes to both turns that round.
pub fn ranking_is_no_grade()
    ensures { RankingTurnsRound × RankingIsNoGrade }
{}
