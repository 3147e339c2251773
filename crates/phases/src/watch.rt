// Whether the watch holds a position.
ghost use Rattle.std.specs.Prelude.{Decides};
ghost use Rattle.model.specs.Phases.{Opened};
ghost use Rattle.model.specs.Watch.{Watched};
ghost use Rattle.book.specs.Lines.{lines};
ghost use Rattle.phases.specs.Table.{Holds, OpenedBy};
ghost use Rattle.phases.specs.Held.{Fits, Taken, Told};
ghost use Rattle.phases.specs.Positions.{asked};

use crate::nodes::takes;
use crate::position::Position;
use crate::refusal::PositionRefusal;
use crate::table::Phases;
use book::tables::Book;
use moves::lane::are_wagons;

// Whether the mode and each wagon are within their limits, and the lane is not too long.
pub fn fits(position: &Position) -> bool
    ensures { Decides result (Fits position.now.mode position.now.lane.now) }
{
    position.mode <= 15 && position.lane.len() <= 32 && are_wagons(position.lane)
}

// Whether the watch holds the position, by the book and its opened phases. With any other phases, those count as opened that
// are in the table.
pub fn held(book: &Book, phases: &Phases, position: &Position) -> Result<bool, PositionRefusal>
    ensures table { Told (Holds phases.now) (Taken (lines book.now)) (asked position.now) result }
    ensures opened { OpenedBy (lines book.now) phases.now → Told (Opened (lines book.now)) (Watched (lines book.now)) (asked position.now) result }
{
    if !fits(position) {
        return Err(PositionRefusal::TooLarge);
    }
    if !phases.in_use().contains(&position.phase) {
        return Err(PositionRefusal::NotOpened);
    }
    Ok(takes(book, position.mode, position.lane))
}
