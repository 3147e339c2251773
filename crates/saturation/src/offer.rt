// Letting a row wait.
ghost use Rattle.std.specs.Prelude.{◌≡◌, ℕ, ◌<◌, ◌≤◌, true, false, T, ◌⊎◌, length, ◌≢◌, MatchOption};
ghost use Rattle.grade.specs.Waits.{sooner};
ghost use Rattle.queue.specs.Queues.{Holds, Replaced};
ghost use Rattle.rowtable.specs.Tables.{row_of, row_at};
ghost use Rattle.saturation.specs.Work.{key, unranked, Covers, Placed};
ghost use Rattle.saturation.specs.AtHand.{SameSlices, TableOf, LaterOf, WentOf, EndsOf};

use crate::keys::find;
use crate::setting::Setting;
use crate::work::Work;
use grade::grade::Grade;
use grade::order::TotalOrder;
use grade::waiting::Waiting;
use rowtable::row::TableRow;

// Whether the row stays as it is when one with this grade is offered: it is settled, or no worse.
fn keeps<G: Grade>(row: &TableRow<G>, settled: usize, grade: &G) -> bool
    ensures kept { result ≡ true → (row.now.rank < settled) ⊎ (G.TotalOrder.before row.now.grade grade.now ≡ true) }
    ensures gone { result ≡ false → (settled ≤ row.now.rank) × (G.TotalOrder.before row.now.grade grade.now ≡ false) }
{
    row.rank < settled || row.grade.no_worse(grade)
}

// Puts `entry` into the queue for `old`, which is in it.
fn requeue<G: Grade>(waiting: &mut [Waiting<G>], count: usize, old: Waiting<G>, entry: Waiting<G>)
    requires room { count ≤ length waiting.old }
    requires old { Holds waiting.old count old }
    requires better { T (sooner G.TotalOrder.before entry old) }
    ensures { Replaced (sooner G.TotalOrder.before) waiting.old waiting.new count old entry }
{
    if let Some(place) = queue::find(waiting, count, &old) {
        queue::replace(waiting, count, place, entry);
    }
}

impl<G: Grade> Work<'_, G> {
    // The place of the row with the key of `wanted`.
    fn find(&self, wanted: &TableRow<G>) -> Option<usize>
        requires { self.now.found ≤ length self.now.rows.now }
        ensures { MatchOption result
            ((k : ℕ) → k < self.now.found → key (row_at G.Grade.own self.now.rows.now k) ≢ key wanted.now)
            (λ i. (i < self.now.found) × (key (row_at G.Grade.own self.now.rows.now i) ≡ key wanted.now)) }
    {
        find(&self.rows[..self.found], wanted)
    }

    // Puts `row` for the one at place `i`, which has its key, if that one waits with a worse grade. That the row waits and has a place
    // is asked here, and below: rows of the table are of the same type, and settled ones do not wait.
    fn improve(&mut self, setting: &Setting, i: usize, row: TableRow<G>)
        requires table { TableOf G.Grade.own setting.now self.old }
        requires row { (row.rank ≡ unranked) × Placed G.Grade.own setting.now.phases.now row }
        requires later { LaterOf G.Grade.own setting.now self.old row.grade }
        requires same { (i < self.old.found) × (key (row_at G.Grade.own self.old.rows.now i) ≡ key row) }
        ensures slices { SameSlices self.old self.new }
        ensures went { WentOf G.Grade.own setting.now (λ x. x ≡ row) self.old self.new
            (Covers G.Grade.own setting.now.phases.now self.new.rows.now self.new.found (row_of setting.now.phases.now row) row.grade) }
    {
        G::agrees();
        let old = self.rows[i];
        if !keeps(&old, setting.settled, &row.grade) {
            requeue(
                self.waiting,
                self.found - setting.settled,
                Waiting {
                    grade: old.grade,
                    row: i,
                },
                Waiting {
                    grade: row.grade,
                    row: i,
                },
            );
            self.rows[i] = row;
        }
    }

    // Puts `row`, whose key no row has, behind the others, if there is a place.
    fn append(&mut self, setting: &Setting, row: TableRow<G>) -> Option<()>
        requires table { TableOf G.Grade.own setting.now self.old }
        requires row { (row.rank ≡ unranked) × Placed G.Grade.own setting.now.phases.now row }
        requires nowhere { (k : ℕ) → k < self.old.found → key (row_at G.Grade.own self.old.rows.now k) ≢ key row }
        ensures slices { SameSlices self.old self.new }
        ensures ends { EndsOf G.Grade.own setting.now (λ x. x ≡ row) self.old self.new
            (λ rows n. Covers G.Grade.own setting.now.phases.now rows n (row_of setting.now.phases.now row) row.grade) result }
    {
        G::agrees();
        if self.found >= self.rows.len() || self.found >= self.waiting.len() {
            return None;
        }
        queue::put(
            self.waiting,
            self.found - setting.settled,
            Waiting {
                grade: row.grade,
                row: self.found,
            },
        )?;
        self.rows[self.found] = row;
        self.found += 1;
        Some(())
    }

    // Lets `row` wait, unless a row with its key is settled, or waits with a grade no worse. None where there is no place for it.
    pub(crate) fn offer(&mut self, setting: &Setting, row: TableRow<G>) -> Option<()>
        requires table { TableOf G.Grade.own setting.now self.old }
        requires row { (row.rank ≡ unranked) × Placed G.Grade.own setting.now.phases.now row }
        requires later { LaterOf G.Grade.own setting.now self.old row.grade }
        ensures slices { SameSlices self.old self.new }
        ensures ends { EndsOf G.Grade.own setting.now (λ x. x ≡ row) self.old self.new
            (λ rows n. Covers G.Grade.own setting.now.phases.now rows n (row_of setting.now.phases.now row) row.grade) result }
    {
        match self.find(&row) {
            Some(i) => {
                self.improve(setting, i, row);
                Some(())
            }
            None => self.append(setting, row),
        }
    }
}
