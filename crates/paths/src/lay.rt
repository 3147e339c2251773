// A path read off the layers, row by row.
ghost use Rattle.std.specs.Prelude.{◌≡◌, ◌+◌, ◌*◌, ◌≤◌, reverse, length, MatchOption};
ghost use Rattle.book.specs.Lines.{lines};
ghost use Rattle.rowtable.specs.Tables.{Exists};
ghost use Rattle.rowtable.specs.Paths.{RowPath};
ghost use Rattle.paths.specs.Cells.{width, index, cell_at, Step};
ghost use Rattle.paths.specs.Layers.{Layered, BestSaid};

use crate::cell::Cell;
use crate::sound::SoundRows;
use grade::grade::Grade;
use grade::theorems::lawful;
use rowtable::row::TableState;

impl<'a, G: Grade> SoundRows<'a, G> {
    // Puts the rows of a best path from a state by the lane on the list, if there is one: a row for each wagon, the first on top.
    // It calls itself for each wagon: of what a loop writes through a reversed iterator a proof knows nothing.
    pub(crate) fn lay(&self, state: TableState, lane: &[u8], cells: &[Cell<G>], list: &mut [usize])
        requires exists { Exists self.now.phases.now state }
        requires places { length list.old ≡ length lane.now }
        requires layered { Layered G.Grade.own (lines self.now.book.now) self.now.rows.now (length self.now.rows.now) self.now.phases.now lane.now cells.now }
        ensures { MatchOption (cell_at cells.now (index self.now.phases.now state)) (list.new ≡ list.old)
            (λ (s : Step G). RowPath G.Grade.own (lines self.now.book.now) self.now.rows.now (length self.now.rows.now) state lane.now (reverse list.new) s.grade) }
    {
        lawful::<G>();
        let Some((slot, below)) = list.split_last_mut() else {
            return;
        };
        let cell = cells[self.index(state)];
        let Cell::By(_, place) = cell else {
            return;
        };
        *slot = place;
        let (_, behind) = cells.split_at(self.width());
        self.lay(self.rows[place].to, &lane[1..], behind, below);
    }
}
