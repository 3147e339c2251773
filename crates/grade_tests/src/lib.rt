// Grades and the queue in use, from outside: at minutes, at class and at plain numbers.

#![tactic(auto)]

ghost use Rattle.std.specs.Prelude.{◌≡◌, ◌<◌, ◌⊎◌, length, MatchBool, MatchOption};
ghost use Rattle.grade.specs.Runs.{run_grade};
ghost use Rattle.grade.specs.Waits.{sooner};
ghost use Rattle.queue.specs.Queues.{Single, Queue};
ghost use Rattle.grade_tests.specs.Rows.{NoneBetter, Regraded};

use grade::grade::Grade;
use grade::order::TotalOrder;
use grade::toll::Toll;
use grade::waiting::Waiting;

// The grade of a run with these tolls.
pub fn run_grade<G: Grade>(tolls: &[Toll]) -> G
    ensures { result ≡ run_grade G.Grade.own tolls.now }
{
    let mut all = G::best_grade();
    for toll in tolls {
        all = all.joined(G::of_toll(*toll));
    }
    all
}

// Takes out the waiting row that goes next: of a queue, no row that waits has a better grade.
pub fn next_row<G: Grade>(waiting: &mut [Waiting<G>], count: usize) -> Option<Waiting<G>>
    ensures { MatchOption result ((count ≡ 0) ⊎ (length waiting.old < count)) (λ next. Queue (sooner G.TotalOrder.before) waiting.old count → NoneBetter G.Grade.noworse waiting.old count next) }
{
    G::agrees();
    queue::take(waiting, count)
}

// Lets a row wait with the grade `new` for `old`; answers whether it waited so, and `new` is no worse.
pub fn better_row<G: Grade>(
    waiting: &mut [Waiting<G>],
    count: usize,
    row: usize,
    old: G,
    new: G,
) -> bool
    ensures { MatchBool result (Single waiting.old count → Regraded waiting.old waiting.new count row old new) (waiting.new ≡ waiting.old) }
{
    match queue::find(waiting, count, &Waiting { grade: old, row }) {
        Some(place) => queue::replace(waiting, count, place, Waiting { grade: new, row }).is_some(),
        None => false,
    }
}

#[cfg(test)]
mod tests;
