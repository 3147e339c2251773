// What the row settled last brings: the rules are tried one by one, each on this row and, where it has two premises, on this row
// with every settled row before and behind it.
ghost use Rattle.std.specs.Prelude.{◌≡◌, ℕ, ◌<◌, ◌⊎◌, [], ◌∷◌, length, slice_index_or, None};
ghost use Rattle.text.specs.declared.line.Line.TheVariants as line;
ghost use Rattle.model.specs.Phases.{Stands};
ghost use Rattle.model.specs.Moves.{laid_down};
ghost use Rattle.book.specs.Lines.{lines};
ghost use Rattle.saturation.specs.Work.{TriedOne, TriedTwo, TriedPairAt, TriedOrder, TriedNotice, TriedRule};
ghost use Rattle.saturation.specs.AtHand.{SameSlices, TableOf, SettledIn, LastOf, BringsOf, BringsBothOf};

use crate::pair_order::PairOrder;
use crate::premise::Premise;
use crate::rules::{goes, notice_row, noticed, order_row, starts};
use crate::setting::Setting;
use crate::work::Work;
use grade::grade::Grade;
use text::line::{NoticeLine, OrderLine, Rule, Wagons};

// `LastOf` ties the row to the work at hand, and `Stands` the order to the book: neither is a fact of one type alone, so they are
// asked below, of an order and a row that are handed over.
impl<G: Grade> Work<'_, G> {
    // Tries the order, which lays this wagon down, on the row settled last.
    fn attempt_one(
        &mut self,
        setting: &Setting,
        order: &OrderLine,
        wagon: u16,
        last: &Premise<G>,
    ) -> Option<()>
        requires table { TableOf G.Grade.own setting.now self.old }
        requires last { LastOf G.Grade.own setting.now self.old last.now }
        requires stands { Stands (lines setting.now.book.now) (line.Order order.now) × (laid_down order.now ≡ wagon ∷ []) }
        ensures slices { SameSlices self.old self.new }
        ensures ends { BringsOf G.Grade.own setting.now last.now self.old self.new
            (TriedOne G.Grade.own setting.now.phases.now order.now wagon last.now.row) result }
    {
        match starts(setting.phases, order, wagon, &last.row) {
            None => Some(()),
            Some(place) => {
                let row = order_row(order, place, last.row.to, last.row.grade, last.place, 0);
                self.offer(setting, row)
            }
        }
    }

    // Tries the order, which lays these wagons down, on two settled rows, one of which was settled last. It shares its last two steps
    // with `attempt_one`, `starts` and `offer`; the grades, the places and what the row leads to are others.
    fn attempt_two(
        &mut self,
        setting: &Setting,
        order: &PairOrder,
        one: &Premise<G>,
        next: &Premise<G>,
    ) -> Option<()>
        requires table { TableOf G.Grade.own setting.now self.old }
        requires settled { SettledIn G.Grade.own setting.now self.old one.now.place one.now.row × SettledIn G.Grade.own setting.now self.old next.now.place next.now.row }
        requires last { LastOf G.Grade.own setting.now self.old one.now ⊎ LastOf G.Grade.own setting.now self.old next.now }
        requires stands { Stands (lines setting.now.book.now) (line.Order order.now.line) }
        ensures slices { SameSlices self.old self.new }
        ensures ends { BringsBothOf G.Grade.own setting.now one.now next.now self.old self.new
            (TriedTwo G.Grade.own setting.now.phases.now order.now.line order.now.first order.now.second one.now.row next.now.row) result }
    {
        if !goes(order.second, &one.row, &next.row) {
            return Some(());
        }
        match starts(setting.phases, &order.line, order.first, &one.row) {
            None => Some(()),
            Some(place) => {
                let parts = one.row.grade.joined(next.row.grade);
                let row = order_row(
                    &order.line,
                    place,
                    next.row.to,
                    parts,
                    one.place,
                    next.place,
                );
                self.offer(setting, row)
            }
        }
    }

    // Tries the order on the row settled last with the row at this place, if that is settled, behind and before it.
    fn bring_pair(
        &mut self,
        setting: &Setting,
        order: &PairOrder,
        last: &Premise<G>,
        place: usize,
    ) -> Option<()>
        requires table { TableOf G.Grade.own setting.now self.old }
        requires last { LastOf G.Grade.own setting.now self.old last.now }
        requires stands { Stands (lines setting.now.book.now) (line.Order order.now.line) }
        requires within { place < self.old.found }
        ensures slices { SameSlices self.old self.new }
        ensures ends { BringsOf G.Grade.own setting.now last.now self.old self.new
            (TriedPairAt G.Grade.own setting.now.phases.now order.now.line order.now.first order.now.second last.now.row self.old.rows.now self.old.found setting.now.settled place) result }
    {
        let other = Premise {
            place,
            row: self.rows[place],
        };
        if other.row.rank >= setting.settled {
            return Some(());
        }
        // most pairs end here, before anything is handed on
        if !goes(order.second, &last.row, &other.row)
            && !goes(order.second, &other.row, &last.row)
        {
            return Some(());
        }
        self.attempt_two(setting, order, last, &other)?;
        self.attempt_two(setting, order, &other, last)
    }

    // Tries the order on the row settled last with each settled row, unless that goes by neither of the order's wagons.
    fn bring_pairs(&mut self, setting: &Setting, order: &PairOrder, last: &Premise<G>) -> Option<()>
        requires table { TableOf G.Grade.own setting.now self.old }
        requires last { LastOf G.Grade.own setting.now self.old last.now }
        requires stands { Stands (lines setting.now.book.now) (line.Order order.now.line) }
        ensures slices { SameSlices self.old self.new }
        ensures ends { BringsOf G.Grade.own setting.now last.now self.old self.new
            (λ later n. ((b : ℕ) → b < self.old.found → TriedPairAt G.Grade.own setting.now.phases.now order.now.line order.now.first order.now.second last.now.row self.old.rows.now self.old.found setting.now.settled b later n)) result }
    {
        let wagon = u16::from(last.row.wagon);
        if wagon != order.first && wagon != order.second {
            return Some(());
        }
        // an index: the body puts rows behind those that it goes over
        for place in 0..self.found {
            self.bring_pair(setting, order, last, place)?;
        }
        Some(())
    }

    // Tries the order on the row settled last.
    fn bring_order(&mut self, setting: &Setting, order: &OrderLine, last: &Premise<G>) -> Option<()>
        requires table { TableOf G.Grade.own setting.now self.old }
        requires last { LastOf G.Grade.own setting.now self.old last.now }
        requires stands { Stands (lines setting.now.book.now) (line.Order order.now) }
        ensures slices { SameSlices self.old self.new }
        ensures ends { BringsOf G.Grade.own setting.now last.now self.old self.new
            (TriedOrder G.Grade.own setting.now.phases.now order.now order.now.wagons (SettledIn G.Grade.own setting.now self.old) last.now.row) result }
    {
        match order.wagons {
            Wagons::Zero => Some(()),
            Wagons::One(wagon) => self.attempt_one(setting, order, wagon.get(), last),
            Wagons::Two(first, second) => {
                let pair = PairOrder {
                    line: *order,
                    first: first.get(),
                    second: second.get(),
                };
                self.bring_pairs(setting, &pair, last)
            }
        }
    }

    // Tries the notice on the row settled last, in each phase.
    fn bring_notice(
        &mut self,
        setting: &Setting,
        notice: &NoticeLine,
        last: &Premise<G>,
    ) -> Option<()>
        requires table { TableOf G.Grade.own setting.now self.old }
        requires last { LastOf G.Grade.own setting.now self.old last.now }
        requires stands { Stands (lines setting.now.book.now) (line.Notice notice.now) }
        ensures slices { SameSlices self.old self.new }
        ensures ends { BringsOf G.Grade.own setting.now last.now self.old self.new
            (λ later n. ((i : ℕ) → i < length setting.now.phases.now → TriedNotice G.Grade.own setting.now.phases.now notice.now last.now.row i later n)) result }
    {
        // an index: rows name a phase by its place, and the notice is tried on the phases at two places
        for place in 0..setting.phases.len() {
            if noticed(setting.phases, notice, place, &last.row) {
                self.offer(setting, notice_row(notice, place as u8, last))?;
            }
        }
        Some(())
    }

    // Tries all rules on the row settled last.
    pub(crate) fn bring(&mut self, setting: &Setting, last: &Premise<G>) -> Option<()>
        requires table { TableOf G.Grade.own setting.now self.old }
        requires last { LastOf G.Grade.own setting.now self.old last.now }
        ensures slices { SameSlices self.old self.new }
        ensures ends { BringsOf G.Grade.own setting.now last.now self.old self.new
            (λ later n. ((k : ℕ) → k < 64 → TriedRule G.Grade.own setting.now.phases.now (slice_index_or setting.now.book.now.rules k None) (SettledIn G.Grade.own setting.now self.old) last.now.row later n)) result }
    {
        for rule in &setting.book.rules {
            match rule {
                Some(Rule::Order(order)) => self.bring_order(setting, order, last)?,
                Some(Rule::Notice(notice)) => self.bring_notice(setting, notice, last)?,
                None => {}
            }
        }
        Some(())
    }
}
