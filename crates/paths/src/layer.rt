// One layer of cells: the best grades with one wagon more on top, from those behind it.
ghost use Rattle.std.specs.Prelude.{◌≡◌, ◌≤◌, length};
ghost use Rattle.paths.specs.Cells.{width, Leads, bettered, brought, Layer, Offers};

use crate::cell::Cell;
use crate::sound::SoundRows;
use grade::grade::Grade;
use grade::theorems::lawful;
use rowtable::row::TableRow;

// Offers a grade by the row at a place for a cell, which keeps the better.
fn offer<G: Grade>(cell: &mut Cell<G>, grade: G, place: usize)
    ensures { cell.new ≡ bettered G.Grade.own cell.old place grade }
{
    G::agrees();
    match cell.grade() {
        Some(known) if known.no_worse(&grade) => {}
        _ => *cell = Cell::By(grade, place),
    }
}

impl<'a, G: Grade> SoundRows<'a, G> {
    // Brings in the row at a place, if it goes by the wagon: joined with what is known where it leads.
    fn bring_row(
        &self,
        place: usize,
        row: &TableRow<G>,
        wagon: u8,
        behind: &[Cell<G>],
        layer: &mut [Cell<G>],
    )
        requires leads { Leads self.now.phases.now row.now }
        requires there { width self.now.phases.now ≤ length behind.now }
        requires here { width self.now.phases.now ≤ length layer.old }
        ensures { layer.new ≡ brought G.Grade.own self.now.phases.now behind.now layer.old wagon place row.now }
    {
        if row.wagon != wagon {
            return;
        }
        if let Some(rest) = behind[self.index(row.to)].grade() {
            let grade = row.grade.joined(rest);
            offer(&mut layer[self.index(row.from)], grade, place);
        }
    }

    // The layer with this wagon on top, from the one behind it.
    pub(crate) fn fill_layer(&self, wagon: u8, behind: &[Cell<G>], layer: &mut [Cell<G>])
        requires there { width self.now.phases.now ≤ length behind.now }
        requires here { width self.now.phases.now ≤ length layer.old }
        ensures { Layer G.Grade.own self.now.phases.now layer.new
            (Offers G.Grade.own self.now.phases.now self.now.rows.now (length self.now.rows.now) wagon behind.now) }
    {
        lawful::<G>();
        layer.fill(Cell::Unknown);
        // a copy, so that its fields are read once and not again after each write to the layer
        let table = SoundRows {
            book: self.book,
            phases: self.phases,
            rows: self.rows,
        };
        for (place, row) in table.rows.iter().enumerate() {
            table.bring_row(place, row, wagon, behind, layer);
        }
    }
}
