// The best path over the rows of a table.
ghost use Rattle.std.specs.Prelude.{◌≡◌, ◌<◌, length, IfErr};
ghost use Rattle.phases.specs.Positions.{asked};
ghost use Rattle.book.specs.Lines.{lines};
ghost use Rattle.rows.specs.Ways.{Saturated};
ghost use Rattle.rowtable.specs.Tables.{Held};
ghost use Rattle.rowtable.specs.Saturated.{SaturatedTable};
ghost use Rattle.phases.specs.Table.{used, OpenedBy};
ghost use Rattle.paths.specs.Answers.{BestTold, RunsTold, path_number};
ghost use Rattle.paths.specs.Outcomes.{BestRowsTold, SaturatedTold};

use crate::cell::Cell;
use crate::refusal::PathRefusal;
use crate::sound::SoundRows;
use crate::start::start_state;
use book::tables::Book;
use grade::grade::Grade;
use grade::theorems::lawful;
use phases::position::Position;
use phases::table::Phases;
use rowtable::row::TableRow;

// The best grade of an accepting path that the first `count` rows make from a position, by a book and a table of phases. Where that
// has the book's opened phases and the rows are its saturated ones, this is the best grade of a run into the watch.
// What scratch then holds is free, unless the position is refused. Book, phases, rows and count are each the caller's and may be
// any, so they are no struct with a fact of its own.
pub fn best_way<G: Grade>(
    book: &Book,
    phases: &Phases,
    rows: &[TableRow<G>],
    count: usize,
    position: &Position,
    scratch: &mut [Cell<G>],
) -> Result<G, PathRefusal>
    ensures told { BestTold G.Grade.own (lines book.now) phases.now rows.now count (asked position.now) (length scratch.old) result }
    ensures runs { OpenedBy (lines book.now) phases.now → Saturated G.Grade.own (lines book.now) (Held (used phases.now) rows.now count)
        → RunsTold G.Grade.own (lines book.now) phases.now rows.now count (asked position.now) (length scratch.old) result }
    ensures rows { BestRowsTold G.Grade.own (lines book.now) phases.now rows.now count (asked position.now) (length scratch.old) result }
    ensures saturated { OpenedBy (lines book.now) phases.now → SaturatedTable G.Grade.own (lines book.now) (used phases.now) rows.now count
        → SaturatedTold G.Grade.own (lines book.now) (asked position.now) result }
    ensures kept { IfErr result (λ e. path_number e < 12 → scratch.new ≡ scratch.old) }
{
    lawful::<G>();
    let start = start_state(phases, position, scratch.len())?;
    let table = SoundRows::checked(book, phases, rows, count)?;
    table
        .best_from(start, position.lane, scratch)
        .ok_or(PathRefusal::NoWay)
}
