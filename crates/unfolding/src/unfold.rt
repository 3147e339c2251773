// The next move of a path that was laid out.
ghost use Rattle.std.specs.Prelude.{◌≡◌, List};
ghost use Rattle.book.specs.Lines.{lines};
ghost use Rattle.model.specs.Moves.{Position, Move};
ghost use Rattle.unfolding.specs.Rest.{stage_of, Rest, Advances};
ghost use Rattle.unfolding.specs.Shows.{Unfolded};

use crate::list::topmost;
use crate::show::show_top;
use crate::stage::{Shown, UnfoldRefusal};
use book::tables::Book;
use grade::grade::Grade;
use moves::stage::Stage;
use rowtable::row::TableRow;

// Shows the next move of the rows on the list, of which there are as many as the lane has wagons, the topmost last; None where no
// move is left. Rows of lines have none and are passed over. The row that shows its move makes way for those that it rests on.
pub fn unfold<G: Grade>(
    book: &Book,
    rows: &[TableRow<G>],
    count: usize,
    list: &mut [usize],
    stage: Stage,
) -> Result<Option<Shown>, UnfoldRefusal>
    ensures told { Unfolded G.Grade.own (lines book.now) rows.now count list.old stage list.new result }
    ensures runs { (x : Position) (ms : List Move) → stage ≡ stage_of x → Rest G.Grade.own (lines book.now) rows.now count list.old x ms
        → Advances G.Grade.own (lines book.now) rows.now count list.new x ms result }
{
    // The count stands beside the rows: any may be handed over, and one too large is refused.
    let (Some(rows), Some(stack)) = (rows.get(..count), list.get(..stage.length)) else {
        return Err(UnfoldRefusal::BrokenRow);
    };
    let Some(top) = topmost(rows, stack) else {
        return Ok(None);
    };
    let Some(shown) = show_top(book, rows, list, top, stage) else {
        return Err(UnfoldRefusal::BrokenRow);
    };
    Ok(Some(shown))
}
