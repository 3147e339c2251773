// The layer with no wagon left: where a path may end.
ghost use Rattle.std.specs.Prelude.{◌≡◌, ◌<◌, length, Decides};
ghost use Rattle.book.specs.Lines.{lines};
ghost use Rattle.rowtable.specs.declared.row.TableState.{TableState as Place};
ghost use Rattle.rowtable.specs.Tables.{Exists};
ghost use Rattle.rowtable.specs.Paths.{Ending};
ghost use Rattle.paths.specs.Cells.{width, index, known, Says, Layer};
ghost use Rattle.paths.specs.Layers.{Stopping};

use crate::cell::Cell;
use crate::sound::SoundRows;
use grade::grade::Grade;
use grade::theorems::lawful;

impl<'a, G: Grade> SoundRows<'a, G> {
    // Whether a path may end at the state with this number.
    fn stops(&self, number: usize) -> bool
        requires { number < width self.now.phases.now }
        ensures { (s : Place) → Exists self.now.phases.now s → index self.now.phases.now s ≡ number
            → Decides result (Ending (lines self.now.book.now) s) }
    {
        let heads = 16 * self.phases.len();
        if number < heads {
            self.book.bares[number % 16]
        } else {
            self.book.ends[number - heads]
        }
    }

    // The cell of the state with this number.
    fn end_cell(&self, number: usize) -> Cell<G>
        requires { number < width self.now.phases.now }
        ensures { (s : Place) → Exists self.now.phases.now s → index self.now.phases.now s ≡ number
            → Says G.Grade.own (Stopping G.Grade.own (lines self.now.book.now) s) (known result) }
    {
        lawful::<G>();
        if self.stops(number) {
            Cell::Ends(G::best_grade())
        } else {
            Cell::Unknown
        }
    }

    pub(crate) fn last_layer(&self, layer: &mut [Cell<G>])
        requires { length layer.old ≡ width self.now.phases.now }
        ensures { Layer G.Grade.own self.now.phases.now layer.new (Stopping G.Grade.own (lines self.now.book.now)) }
    {
        // a copy, so that its fields are read once and not again after each write to the layer
        let table = SoundRows {
            book: self.book,
            phases: self.phases,
            rows: self.rows,
        };
        for (number, cell) in layer.iter_mut().enumerate() {
            *cell = table.end_cell(number);
        }
    }
}
