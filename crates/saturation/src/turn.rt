// Settling rows, best grade first.
ghost use Rattle.std.specs.Prelude.{◌≡◌, ℕ, ◌+◌, ◌<◌, MatchOption};
ghost use Rattle.rowtable.specs.Tables.{row_at};
ghost use Rattle.saturation.specs.AtHand.{SameSlices, TableOf, SettlesOf, WorkedOf, TurnedOf, ProceededOf};

use crate::premise::Premise;
use crate::setting::Setting;
use crate::work::Work;
use grade::grade::Grade;

impl<G: Grade> Work<'_, G> {
    // Takes the best entry out of the queue and gives its row the next rank.
    fn settle(&mut self, setting: &Setting) -> Option<Premise<G>>
        requires waits { setting.now.settled < self.old.found }
        requires table { TableOf G.Grade.own setting.now self.old }
        ensures slices { SameSlices self.old self.new }
        ensures found { self.new.found ≡ self.old.found }
        ensures settled { MatchOption result ⊥ (λ x. SettlesOf G.Grade.own setting.now self.old x.place self.new × (x.row ≡ row_at G.Grade.own self.new.rows.now x.place)) }
    {
        G::agrees();
        let place = queue::take(self.waiting, self.found - setting.settled)?.row;
        let mut row = self.rows[place];
        row.rank = setting.settled;
        self.rows[place] = row;
        Some(Premise { place, row })
    }

    // Settles the best row that waits, and lets wait what it brings. None where not all of that has a place.
    fn turn(&mut self, setting: &Setting) -> Option<()>
        requires waits { setting.now.settled < self.old.found }
        requires worked { WorkedOf G.Grade.own setting.now setting.now.settled self.old }
        ensures slices { SameSlices self.old self.new }
        ensures turned { TurnedOf G.Grade.own setting.now self.old (setting.now.settled + 1) self.new result }
    {
        let last = self.settle(setting)?;
        let after = Setting {
            book: setting.book,
            phases: setting.phases,
            settled: setting.settled + 1,
        };
        self.bring(&after, &last)
    }

    // Settles `count` more rows, best grade first, or all where there are fewer, and tells how many are settled then. None where not
    // all that they bring has a place.
    pub(crate) fn proceed(&mut self, setting: &Setting, count: usize) -> Option<usize>
        requires { WorkedOf G.Grade.own setting.now setting.now.settled self.old }
        ensures slices { SameSlices self.old self.new }
        ensures proceeded { ProceededOf G.Grade.own setting.now self.old count self.new result }
    {
        let mut settled = setting.settled;
        // counts turns, and is no index: each turn takes the best row that waits
        for done in 0..count {
            if settled == self.found {
                break;
            }
            let before = Setting {
                book: setting.book,
                phases: setting.phases,
                settled,
            };
            self.turn(&before)?;
            settled += 1;
        }
        Some(settled)
    }
}
