// Saturating the rows of a book.
ghost use Rattle.std.specs.Prelude.{◌≡◌, ℕ, min, length, MatchOption, slice_index};
ghost use Rattle.deduction.specs.Counting.{Filled, Outnumber};
ghost use Rattle.deduction.specs.Derivations.{Derivation};
ghost use Rattle.rows.specs.Rows.{row_rules};
ghost use Rattle.model.specs.Phases.{Opened};
ghost use Rattle.book.specs.Lines.{lines};
ghost use Rattle.phases.specs.Table.{used};
ghost use Rattle.rowtable.specs.Tables.{blank_row, row_at};
ghost use Rattle.saturation.specs.Complete.{Complete};
ghost use Rattle.saturation.specs.AtHand.{SameSlices, TableOf};

use crate::setting::Setting;
use crate::work::Work;
use book::tables::Book;
use grade::grade::Grade;
use grade::waiting::Waiting;
use phases::table::Phases;
use rowtable::blank::blank_row;
use rowtable::row::TableRow;

// Makes every place of the row table blank.
fn clear<G: Grade>(rows: &mut [TableRow<G>])
    ensures { (k : ℕ) → row_at G.Grade.own rows.new k ≡ blank_row G.Grade.best }
{
    rows.fill_with(|| blank_row());
}

impl<G: Grade> Work<'_, G> {
    // Fills the blank row table; None where the rows outnumber the places.
    fn fill(&mut self, setting: &Setting) -> Option<()>
        requires table { TableOf G.Grade.own setting.now self.old }
        requires start { (setting.now.settled ≡ 0) × (self.old.found ≡ 0) }
        ensures slices { SameSlices self.old self.new }
        ensures filled { MatchOption result
            (Outnumber (Derivation (row_rules (lines setting.now.book.now))) (min (length self.old.rows.now) (length self.old.waiting.now)))
            (λ _. Complete G.Grade.own setting.now.phases.now (lines setting.now.book.now) (min (length self.old.rows.now) (length self.old.waiting.now)) self.new.rows.now self.new.found) }
    {
        self.begin(setting)?;
        let places = self.rows.len();
        self.proceed(setting, places)?;
        Some(())
    }
}

// Fills the row table with the saturated rows of the book, whose opened phases are these, and answers how many they are; None where
// they outnumber the places, and then the row table is blank.
pub(crate) fn saturate<G: Grade>(
    book: &Book,
    phases: &Phases,
    rows: &mut [TableRow<G>],
    waiting: &mut [Waiting<G>],
) -> Option<usize>
    requires { Filled (Opened (lines book.now)) (λ k. slice_index (used phases.now) k) (length (used phases.now)) }
    ensures { MatchOption result
        (Outnumber (Derivation (row_rules (lines book.now))) (min (length rows.old) (length waiting.old)) × ((k : ℕ) → row_at G.Grade.own rows.new k ≡ blank_row G.Grade.best))
        (λ n. Complete G.Grade.own (used phases.now) (lines book.now) (min (length rows.old) (length waiting.old)) rows.new n) }
{
    grade::theorems::lawful::<G>();
    clear(rows);
    let setting = Setting {
        book,
        phases: phases.in_use(),
        settled: 0,
    };
    let mut work = Work {
        rows: &mut *rows,
        waiting,
        found: 0,
    };
    match work.fill(&setting) {
        Some(()) => Some(work.found),
        None => {
            clear(rows);
            None
        }
    }
}
