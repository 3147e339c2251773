// The list of rows that are left to unfold, as a stack.
ghost use Rattle.std.specs.Prelude.{◌≡◌, ◌<◌, All, length, reverse, slice_index, MatchOption};
ghost use Rattle.unfolding.specs.Runs.{parts, LineRow};
ghost use Rattle.unfolding.specs.Stacks.{PassedLines, MadeWay};

use crate::lookup::{are_below, is_line};
use grade::grade::Grade;
use rowtable::row::TableRow;
use text::line::Wagons;

// The place of the topmost row on the stack that is not a line's.
pub(crate) fn topmost<G: Grade>(rows: &[TableRow<G>], stack: &[usize]) -> Option<usize>
    ensures { MatchOption result (All (LineRow G.Grade.own rows.now (length rows.now)) stack.now) (PassedLines G.Grade.own rows.now stack.now) }
{
    stack.iter().rposition(|place| !is_line(rows, *place))
}

// The places of the rows that an order's row rests on, the first on top and so last. Of the two, as many count as it sets down wagons.
pub(crate) fn parts_of(wagons: Wagons, both: &[usize; 2]) -> &[usize]
    ensures { result.now ≡ reverse (parts wagons (slice_index both.now 1) (slice_index both.now 0)) }
{
    match wagons {
        Wagons::Zero => &both[2..],
        Wagons::One(_) => &both[1..],
        Wagons::Two(_, _) => &both[..],
    }
}

// Puts these rows in the place of the row at the top, which has this rank, and tells how many there are on the stack then. None, with
// nothing changed, where one is not there or of no smaller rank, or where there is no room. The list is lent, with no struct around
// it: only this function writes to it.
pub(crate) fn make_way<G: Grade>(
    rows: &[TableRow<G>],
    rank: usize,
    list: &mut [usize],
    top: usize,
    parts: &[usize],
) -> Option<usize>
    requires { top < length list.old }
    ensures { MadeWay G.Grade.own rows.now rank list.old top parts.now list.new result }
{
    let end = top + parts.len();
    if end > list.len() || !are_below(rows, rank, parts) {
        return None;
    }
    list[top..end].copy_from_slice(parts);
    Some(end)
}
