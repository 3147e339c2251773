// What rows name, looked up where it should be.
ghost use Rattle.std.specs.Prelude.{All, length, Decides};
ghost use Rattle.book.specs.Lines.{lines};
ghost use Rattle.unfolding.specs.Runs.{LineRow};
ghost use Rattle.unfolding.specs.Shows.{Under, Below, Led};

use book::tables::Book;
use grade::grade::Grade;
use moves::phase::{after_notice, allowed};
use moves::stage::Stage;
use rowtable::row::{Reason, TableRow};
use text::line::Rule;
use text::phase::contains;

// The order or notice that stands under a number.
pub(crate) fn rule_under(book: &Book, number: u8) -> Option<Rule>
    ensures { Under (lines book.now) number result }
{
    *book.rules.get(usize::from(number))?
}

// Whether the row at a place is there, by a watch line or a link line.
pub(crate) fn is_line<G: Grade>(rows: &[TableRow<G>], place: usize) -> bool
    ensures { Decides result (LineRow G.Grade.own rows.now (length rows.now) place) }
{
    rows.get(place)
        .is_some_and(|row| row.reason == Reason::Line)
}

// Whether the row at a place is there, and of smaller rank.
fn is_below<G: Grade>(rows: &[TableRow<G>], rank: usize, place: usize) -> bool
    ensures { Decides result (Below G.Grade.own rows.now rank place) }
{
    rows.get(place).is_some_and(|row| row.rank < rank)
}

// Whether the rows at all these places are.
pub(crate) fn are_below<G: Grade>(rows: &[TableRow<G>], rank: usize, places: &[usize]) -> bool
    ensures { Decides result (All (Below G.Grade.own rows.now rank) places.now) }
{
    places.iter().all(|place| is_below(rows, rank, *place))
}

// Where the rule leads from a stage, for all that is known of the lane; None where it cannot be carried out there. Modes are cast to
// bytes, since no `From` can hold for the bounds up to 255 alone. `moves` has these checks apart: it tells which of two refusals it is,
// and it asks for the top too.
pub(crate) fn led_to(rule: &Rule, stage: Stage) -> Option<Stage>
    ensures { Led rule.now stage result }
{
    match rule {
        Rule::Order(order) => {
            let fits = u16::from(stage.mode) == order.mode.value
                && contains(stage.phase, order.number);
            fits.then_some(Stage {
                mode: order.to.value as u8,
                ..stage
            })
        }
        Rule::Notice(notice) => {
            let fits = u16::from(stage.mode) == notice.mode.value && allowed(notice, stage.phase);
            fits.then_some(Stage {
                mode: notice.to.value as u8,
                phase: after_notice(stage.phase, notice),
                ..stage
            })
        }
    }
}
