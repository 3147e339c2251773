// Where a path starts.
ghost use Rattle.std.specs.Prelude.{MatchResult};
ghost use Rattle.phases.specs.Positions.{asked};
ghost use Rattle.phases.specs.Table.{used};
ghost use Rattle.rowtable.specs.Tables.{Exists};
ghost use Rattle.paths.specs.Answers.{Asked, Unasked};
ghost use Rattle.paths.specs.Outcomes.{Starts};

use crate::refusal::PathRefusal;
use crate::sound::layer_width;
use phases::position::Position;
use phases::table::Phases;
use phases::watch::fits;
use rowtable::row::TableState;

// The state of a position, where it fits, its phase is opened, and so many places are enough.
pub(crate) fn start_state(
    phases: &Phases,
    position: &Position,
    places: usize,
) -> Result<TableState, PathRefusal>
    ensures { MatchResult result
        (λ s. Asked phases.now (asked position.now) places × (Exists (used phases.now) s × Starts phases.now (asked position.now) s))
        (Unasked phases.now (asked position.now) places) }
{
    if !fits(position) {
        return Err(PathRefusal::TooLarge);
    }
    let Some(place) = phases.phase_index(position.phase) else {
        return Err(PathRefusal::NotOpened);
    };
    if places < (position.lane.len() + 1) * layer_width(phases.count) {
        return Err(PathRefusal::ScratchShort);
    }
    // a cast, which the table of 32 phases makes safe
    Ok(TableState::Head(position.mode, place as u8))
}
