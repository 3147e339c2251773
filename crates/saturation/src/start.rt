// What waits at the start: the rows of link lines, of watch lines in every opened phase, and of orders that lay nothing down.
// Each kind has a loop of its own: one function that is handed the rows of a kind would need them in a list, and there is no heap.
// Each asks that no row is settled yet: later that number grows, so it is no fact of `Setting`. A place of a phase is cast to a byte,
// as `Setting` allows.
ghost use Rattle.std.specs.Prelude.{◌≡◌, ℕ, ◌<◌, length, slice_index_or, None};
ghost use Rattle.text.specs.declared.line.Line.TheVariants as line;
ghost use Rattle.model.specs.Phases.{Stands};
ghost use Rattle.book.specs.Lines.{lines};
ghost use Rattle.saturation.specs.Start.{LinkBegun, WatchBegun, OrderBegun, RuleBegun};
ghost use Rattle.saturation.specs.AtHand.{SameSlices, TableOf, BeginsOf, TurnedOf};

use crate::rules::{link_row, lone_row, watch_row};
use crate::setting::Setting;
use crate::work::Work;
use grade::grade::Grade;
use text::line::{OrderLine, Rule, Wagons};
use text::phase::contains;

impl<G: Grade> Work<'_, G> {
    // Lets the rows of all link lines wait.
    fn begin_links(&mut self, setting: &Setting) -> Option<()>
        requires table { TableOf G.Grade.own setting.now self.old }
        requires start { setting.now.settled ≡ 0 }
        ensures slices { SameSlices self.old self.new }
        ensures ends { BeginsOf G.Grade.own setting.now self.old self.new
            (λ later n. ((k : ℕ) → k < setting.now.book.now.linking → LinkBegun G.Grade.own setting.now.phases.now setting.now.book.now k later n)) result }
    {
        for link in setting.book.links_in_use() {
            self.offer(setting, link_row(link))?;
        }
        Some(())
    }

    // Lets the rows of all watch lines wait, in each phase.
    fn begin_watches(&mut self, setting: &Setting) -> Option<()>
        requires table { TableOf G.Grade.own setting.now self.old }
        requires start { setting.now.settled ≡ 0 }
        ensures slices { SameSlices self.old self.new }
        ensures ends { BeginsOf G.Grade.own setting.now self.old self.new
            (λ later n. ((k : ℕ) → k < setting.now.book.now.watching → (i : ℕ) → i < length setting.now.phases.now → WatchBegun G.Grade.own setting.now.phases.now setting.now.book.now k i later n)) result }
    {
        for watch in setting.book.watches_in_use() {
            // an index: rows name a phase by its place
            for place in 0..setting.phases.len() {
                self.offer(setting, watch_row(watch, place as u8))?;
            }
        }
        Some(())
    }

    // Lets the rows of the order wait, in each phase in which it is in force, if it lays nothing down.
    fn begin_order(&mut self, setting: &Setting, order: &OrderLine) -> Option<()>
        requires table { TableOf G.Grade.own setting.now self.old }
        requires start { setting.now.settled ≡ 0 }
        requires stands { Stands (lines setting.now.book.now) (line.Order order.now) }
        ensures slices { SameSlices self.old self.new }
        ensures ends { BeginsOf G.Grade.own setting.now self.old self.new
            (λ later n. ((i : ℕ) → i < length setting.now.phases.now → OrderBegun G.Grade.own setting.now.phases.now order.now i later n)) result }
    {
        let Wagons::Zero = order.wagons else {
            return Some(());
        };
        for (place, phase) in setting.phases.iter().enumerate() {
            if contains(*phase, order.number) {
                self.offer(setting, lone_row(order, place as u8))?;
            }
        }
        Some(())
    }

    // Lets the rows of all orders that lay nothing down wait.
    fn begin_orders(&mut self, setting: &Setting) -> Option<()>
        requires table { TableOf G.Grade.own setting.now self.old }
        requires start { setting.now.settled ≡ 0 }
        ensures slices { SameSlices self.old self.new }
        ensures ends { BeginsOf G.Grade.own setting.now self.old self.new
            (λ later n. ((k : ℕ) → k < 64 → RuleBegun G.Grade.own setting.now.phases.now (slice_index_or setting.now.book.now.rules k None) later n)) result }
    {
        for rule in &setting.book.rules {
            match rule {
                Some(Rule::Order(order)) => self.begin_order(setting, order)?,
                Some(Rule::Notice(_)) => {}
                None => {}
            }
        }
        Some(())
    }

    // Lets all wait that rests on no other row. None where not all of that has a place.
    pub(crate) fn begin(&mut self, setting: &Setting) -> Option<()>
        requires table { TableOf G.Grade.own setting.now self.old }
        requires start { (setting.now.settled ≡ 0) × (self.old.found ≡ 0) }
        ensures slices { SameSlices self.old self.new }
        ensures turned { TurnedOf G.Grade.own setting.now self.old setting.now.settled self.new result }
    {
        self.begin_links(setting)?;
        self.begin_watches(setting)?;
        self.begin_orders(setting)
    }
}
