// Finding a row in the table by its two states and its wagon.
ghost use Rattle.std.specs.Prelude.{◌≡◌, ℕ, ◌<◌, length, Decides, ◌≢◌, MatchOption};
ghost use Rattle.rowtable.specs.Tables.{row_at};
ghost use Rattle.saturation.specs.Work.{key};

use grade::grade::Grade;
use rowtable::row::TableRow;

// Whether the keys are the same, which is no `==` of rows. States first: that test is seldom guessed wrong.
fn same_key<G: Grade>(a: &TableRow<G>, b: &TableRow<G>) -> bool
    ensures { Decides result (key a.now ≡ key b.now) }
{
    a.from == b.from && a.wagon == b.wagon && a.to == b.to
}

// The place of the first row with the key of `wanted`.
pub(crate) fn find<G: Grade>(rows: &[TableRow<G>], wanted: &TableRow<G>) -> Option<usize>
    ensures { MatchOption result
        ((k : ℕ) → k < length rows.now → key (row_at G.Grade.own rows.now k) ≢ key wanted.now)
        (λ i. (i < length rows.now) × (key (row_at G.Grade.own rows.now i) ≡ key wanted.now)
        × ((k : ℕ) → k < i → key (row_at G.Grade.own rows.now k) ≢ key wanted.now)) }
{
    rows.iter().position(|row| same_key(row, wanted))
}
