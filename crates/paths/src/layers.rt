// All layers, from the back of the lane to its front.
ghost use Rattle.std.specs.Prelude.{◌≡◌, ◌+◌, ◌*◌, ◌≤◌, length};
ghost use Rattle.book.specs.Lines.{lines};
ghost use Rattle.rowtable.specs.Tables.{Exists};
ghost use Rattle.paths.specs.Cells.{width, index, cell_at, grade_of};
ghost use Rattle.paths.specs.Layers.{Layered, BestSaid};

use crate::cell::Cell;
use crate::sound::SoundRows;
use grade::grade::Grade;
use grade::theorems::lawful;
use rowtable::row::TableState;

impl<'a, G: Grade> SoundRows<'a, G> {
    // Fills in a layer for each wagon of the lane and one more, the last first. A lane has at most 32 wagons, so that calls
    // within calls are as few.
    fn fill_layers(&self, lane: &[u8], cells: &mut [Cell<G>])
        requires { (length lane.now + 1) * width self.now.phases.now ≤ length cells.old }
        ensures { Layered G.Grade.own (lines self.now.book.now) self.now.rows.now (length self.now.rows.now) self.now.phases.now lane.now cells.new }
    {
        lawful::<G>();
        let (layer, behind) = cells.split_at_mut(self.width());
        match lane.split_first() {
            Some((wagon, rest)) => {
                self.fill_layers(rest, behind);
                self.fill_layer(*wagon, behind, layer);
            }
            None => self.last_layer(layer),
        }
    }

    // The best grade that the rows say of a state and a lane, if they say any. The cells then hold the layers.
    pub(crate) fn best_from(
        &self,
        start: TableState,
        lane: &[u8],
        cells: &mut [Cell<G>],
    ) -> Option<G>
        requires exists { Exists self.now.phases.now start }
        requires room { (length lane.now + 1) * width self.now.phases.now ≤ length cells.old }
        ensures layered { Layered G.Grade.own (lines self.now.book.now) self.now.rows.now (length self.now.rows.now) self.now.phases.now lane.now cells.new }
        ensures is { result ≡ grade_of (cell_at cells.new (index self.now.phases.now start)) }
        ensures told { BestSaid G.Grade.own (lines self.now.book.now) self.now.rows.now (length self.now.rows.now) start lane.now result }
    {
        self.fill_layers(lane, cells);
        cells[self.index(start)].grade()
    }
}
