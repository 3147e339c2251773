// The saturated rows of a book.
ghost use Rattle.std.specs.Prelude.{◌≡◌, MatchResult};
ghost use Rattle.book.specs.Lines.{lines};
ghost use Rattle.phases.specs.Table.{used};
ghost use Rattle.rowtable.specs.Saturated.{SaturatedTable};
ghost use Rattle.saturation.specs.Refusals.{saturation_number, saturation_place, places_of, RowsRefused, RowsSaturated};

use crate::refusal::SaturationRefusal;
use crate::saturate::saturate;
use crate::saturated::Saturation;
use book::tables::Book;
use grade::grade::Grade;
use grade::waiting::Waiting;
use phases::opening::open_phases;
use rowtable::row::TableRow;

// Lists the book's opened phases and fills the row table with its saturated rows, best grade first. The order of the rows is free,
// and so is what the waiting places hold afterwards.
pub fn saturate_book<G: Grade>(
    book: &Book,
    rows: &mut [TableRow<G>],
    waiting: &mut [Waiting<G>],
) -> Result<Saturation, SaturationRefusal>
    ensures told { MatchResult result
        (RowsSaturated G.Grade.own (lines book.now) (places_of rows.old waiting.old) rows.new)
        (λ e. RowsRefused G.Grade.own (lines book.now) rows.old waiting.old rows.new waiting.new (saturation_number e) (saturation_place e)) }
    ensures table { MatchResult result
        (λ done. SaturatedTable G.Grade.own (lines book.now) (used done.phases) rows.new done.rows)
        (λ _. Unit {0}) }
{
    let phases = open_phases(book)?;
    let rows = saturate(book, &phases, rows, waiting).ok_or(SaturationRefusal::TooManyRows)?;
    Ok(Saturation { phases, rows })
}
