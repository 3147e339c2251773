// Laying out the best path.
ghost use Rattle.std.specs.Prelude.{◌≡◌, ◌<◌, length, IfErr, OnErr};
ghost use Rattle.book.specs.Lines.{lines};
ghost use Rattle.phases.specs.Positions.{asked};
ghost use Rattle.phases.specs.Table.{used, OpenedBy};
ghost use Rattle.rows.specs.Ways.{Saturated};
ghost use Rattle.rowtable.specs.Tables.{Held};
ghost use Rattle.rowtable.specs.Saturated.{SaturatedTable};
ghost use Rattle.paths.specs.Runs.{Reasoned};
ghost use Rattle.paths.specs.Answers.{LaidTold, RunsTold, RunLaid, path_number};
ghost use Rattle.paths.specs.Outcomes.{RowsLaidTold, SaturatedTold, RestLaid};

use crate::cell::Cell;
use crate::refusal::PathRefusal;
use crate::sound::SoundRows;
use crate::start::start_state;
use book::tables::Book;
use grade::grade::Grade;
use grade::theorems::lawful;
use phases::position::Position;
use phases::table::Phases;
use rowtable::row::TableRow;

// Lays out a path of the best grade: the places of its rows, one for each wagon, as a stack with the first row on top. Over the
// saturated rows of the book it stands for one run into the watch, which unfolding shows move by move.
// What scratch and the rest of the list then hold is free.
pub fn lay_out<G: Grade>(
    book: &Book,
    phases: &Phases,
    rows: &[TableRow<G>],
    count: usize,
    position: &Position,
    scratch: &mut [Cell<G>],
    list: &mut [usize],
) -> Result<G, PathRefusal>
    ensures told { LaidTold G.Grade.own (lines book.now) phases.now rows.now count (asked position.now) (length scratch.old) list.new result }
    ensures runs { OpenedBy (lines book.now) phases.now → Saturated G.Grade.own (lines book.now) (Held (used phases.now) rows.now count)
        → RunsTold G.Grade.own (lines book.now) phases.now rows.now count (asked position.now) (length scratch.old) result }
    ensures stands { OpenedBy (lines book.now) phases.now → Reasoned G.Grade.own (lines book.now) (used phases.now) rows.now count
        → RunLaid G.Grade.own (lines book.now) phases.now rows.now count (asked position.now) (length scratch.old) list.new result }
    ensures cells { IfErr result (λ e. path_number e < 13 → scratch.new ≡ scratch.old) }
    ensures rest { IfErr result (λ e. path_number e < 15 → list.new ≡ list.old) }
    ensures rows { RowsLaidTold G.Grade.own (lines book.now) phases.now rows.now count (asked position.now) (length scratch.old) list.new result }
    ensures saturated { OpenedBy (lines book.now) phases.now → SaturatedTable G.Grade.own (lines book.now) (used phases.now) rows.now count
        → SaturatedTold G.Grade.own (lines book.now) (asked position.now) result }
    ensures unfolds { OpenedBy (lines book.now) phases.now → SaturatedTable G.Grade.own (lines book.now) (used phases.now) rows.now count
        → RestLaid G.Grade.own (lines book.now) rows.now count (asked position.now) list.new result }
    ensures kept { OnErr result (list.new ≡ list.old) }
{
    lawful::<G>();
    let start = start_state(phases, position, scratch.len())?;
    let lane = position.lane;
    if list.len() < lane.len() || list.len() - lane.len() < count {
        return Err(PathRefusal::ListShort);
    }
    let table = SoundRows::checked(book, phases, rows, count)?;
    let grade = table
        .best_from(start, lane, scratch)
        .ok_or(PathRefusal::NoWay)?;
    table.lay(start, lane, scratch, &mut list[..lane.len()]);
    Ok(grade)
}
