// The rows that lines, orders and notices give.
ghost use Rattle.std.specs.Prelude.{◌≡◌, ℕ, ◌<◌, ◌≤◌, length, Decides, MatchOption};
ghost use Rattle.rowtable.specs.declared.row.TableState.TheVariants.{Node, Head};
ghost use Rattle.saturation.specs.Work.{row_by_order, row_by_notice, row_by_line, Starts, Goes, Noticed};

use crate::premise::Premise;
use grade::grade::Grade;
use grade::upto::UpTo;
use moves::phase::{after_notice, allowed};
use rowtable::row::{Reason, TableRow, TableState};
use text::line::{LinkLine, NoticeLine, OrderLine, WatchLine};
use text::phase::contains;

// The rank of a row that waits: no row has so high a one. It is a number and no Option, since ranks are compared as plain numbers and
// a blank row has 0 everywhere.
const UNRANKED: usize = usize::MAX;

// A number of a line, as the table holds it. A cast, which the bound makes safe: no `From` can hold for the bounds up to 255 alone.
// `moves` has one of its own: a public function would have to ask for such a bound, and public functions ask for nothing.
fn byte<const MAX: u16>(number: UpTo<MAX>) -> u8
    requires { MAX ≤ 255 }
    ensures { result ≡ number.entry.value }
{
    number.value as u8
}

pub(crate) fn order_row<G: Grade>(
    order: &OrderLine,
    place: u8,
    to: TableState,
    parts: G,
    a: usize,
    b: usize,
) -> TableRow<G>
    ensures { result ≡ row_by_order G.Grade.own order.now place to parts a b }
{
    TableRow {
        from: TableState::Head(byte(order.mode), place),
        wagon: byte(order.wagon),
        to,
        grade: G::of_toll(order.toll).joined(parts),
        rank: UNRANKED,
        reason: Reason::Order(byte(order.number), a, b),
    }
}

pub(crate) fn notice_row<G: Grade>(
    notice: &NoticeLine,
    place: u8,
    after: &Premise<G>,
) -> TableRow<G>
    ensures { result ≡ row_by_notice G.Grade.own notice.now place after.now.row after.now.place }
{
    TableRow {
        from: TableState::Head(byte(notice.mode), place),
        wagon: after.row.wagon,
        to: after.row.to,
        grade: G::of_toll(notice.toll).joined(after.row.grade),
        rank: UNRANKED,
        reason: Reason::Notice(byte(notice.number), after.place),
    }
}

fn line_row<G: Grade>(from: TableState, wagon: u8, to: TableState) -> TableRow<G>
    ensures { result ≡ row_by_line G.Grade.own from wagon to }
{
    TableRow {
        from,
        wagon,
        to,
        grade: G::best_grade(),
        rank: UNRANKED,
        reason: Reason::Line,
    }
}

pub(crate) fn link_row<G: Grade>(link: &LinkLine) -> TableRow<G>
    ensures { result ≡ row_by_line G.Grade.own (Node link.now.node.value) link.now.wagon.value (Node link.now.to.value) }
{
    line_row(
        TableState::Node(byte(link.node)),
        byte(link.wagon),
        TableState::Node(byte(link.to)),
    )
}

pub(crate) fn watch_row<G: Grade>(watch: &WatchLine, place: u8) -> TableRow<G>
    ensures { result ≡ row_by_line G.Grade.own (Head watch.now.mode.value place) watch.now.wagon.value (Node watch.now.node.value) }
{
    let from = TableState::Head(byte(watch.mode), place);
    line_row(from, byte(watch.wagon), TableState::Node(byte(watch.node)))
}

// The row of an order that lays nothing down.
pub(crate) fn lone_row<G: Grade>(order: &OrderLine, place: u8) -> TableRow<G>
    ensures { result ≡ row_by_order G.Grade.own order.now place (Head order.now.to.value place) G.Grade.best 0 0 }
{
    let to = TableState::Head(byte(order.to), place);
    order_row(order, place, to, G::best_grade(), 0, 0)
}

// The place of the phase in which the row starts at the head after the order, by the wagon, if the order is in force in it.
pub(crate) fn starts<G: Grade>(
    phases: &[u64],
    order: &OrderLine,
    wagon: u16,
    row: &TableRow<G>,
) -> Option<u8>
    ensures { MatchOption result
        ((i : ℕ) → Starts G.Grade.own phases.now order.now wagon row.now i → ⊥)
        (λ i. Starts G.Grade.own phases.now order.now wagon row.now i) }
{
    match row.from {
        TableState::Node(_) => None,
        TableState::Head(mode, place) => {
            let i = usize::from(place);
            let after = u16::from(mode) == order.to.get() && u16::from(row.wagon) == wagon;
            if after && i < phases.len() && contains(phases[i], order.number) {
                Some(place)
            } else {
                None
            }
        }
    }
}

// Whether `next` goes on from `row` by the wagon.
pub(crate) fn goes<G: Grade>(wagon: u16, row: &TableRow<G>, next: &TableRow<G>) -> bool
    ensures { Decides result (Goes wagon row.now next.now) }
{
    u16::from(next.wagon) == wagon && next.from == row.to
}

// Whether the row starts at the head after the notice, where it is carried out in the phase at this place.
pub(crate) fn noticed<G: Grade>(
    phases: &[u64],
    notice: &NoticeLine,
    place: usize,
    row: &TableRow<G>,
) -> bool
    requires { place < length phases.now }
    ensures { Decides result (Noticed G.Grade.own phases.now notice.now row.now place) }
{
    match row.from {
        TableState::Node(_) => false,
        TableState::Head(mode, then) => {
            let j = usize::from(then);
            let phase = phases[place];
            let after = u16::from(mode) == notice.to.get()
                && j < phases.len()
                && allowed(notice, phase);
            after && phases[j] == after_notice(phase, notice)
        }
    }
}
