// A place of the row table that is not in use.
ghost use Rattle.std.specs.Prelude.{◌≡◌};
ghost use Rattle.rowtable.specs.Tables.{blank_row};

use crate::row::{Reason, TableRow, TableState};
use grade::grade::Grade;

// The blank row: every number is 0, with the best grade.
pub fn blank_row<G: Grade>() -> TableRow<G>
    ensures { result ≡ blank_row G.Grade.best }
{
    TableRow {
        from: TableState::Node(0),
        wagon: 0,
        to: TableState::Node(0),
        grade: G::best_grade(),
        rank: 0,
        reason: Reason::Line,
    }
}
