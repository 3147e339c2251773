// What one row shows.
ghost use Rattle.std.specs.Prelude.{◌<◌, length};
ghost use Rattle.book.specs.Lines.{lines};
ghost use Rattle.unfolding.specs.Shows.{TopShown};

use crate::list::{make_way, parts_of};
use crate::lookup::{led_to, rule_under};
use crate::stage::Shown;
use book::tables::Book;
use grade::grade::Grade;
use moves::stage::Stage;
use rowtable::row::{Reason, TableRow};
use text::line::Rule;

// What the row at the top shows by its reason, if what it names can be carried out and the rows that it rests on are there.
pub(crate) fn show_top<G: Grade>(
    book: &Book,
    rows: &[TableRow<G>],
    list: &mut [usize],
    top: usize,
    stage: Stage,
) -> Option<Shown>
    requires { top < length list.old }
    ensures { TopShown G.Grade.own (lines book.now) rows.now list.old top stage list.new result }
{
    let row = rows.get(list[top])?;
    let number = row.reason.number()?;
    let rule = rule_under(book, number)?;
    let after = led_to(&rule, stage)?;
    let length = match (rule, row.reason) {
        (Rule::Order(order), Reason::Order(_, a, b)) => {
            let both = [b, a];
            make_way(rows, row.rank, list, top, parts_of(order.wagons, &both))?
        }
        (Rule::Notice(_), Reason::Notice(_, a)) => make_way(rows, row.rank, list, top, &[a])?,
        _ => return None,
    };
    Some(Shown {
        number,
        after: Stage { length, ..after },
    })
}
