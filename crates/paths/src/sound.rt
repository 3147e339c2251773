// What paths are sought in: rows that lead between states that exist.
ghost use Rattle.std.specs.Prelude.{◌≡◌, ◌*◌, ◌+◌, ℕ, ◌<◌, ◌≤◌, length, take, Decides, MatchResult};
ghost use Rattle.std.specs.List.{All};
ghost use Rattle.phases.specs.Table.{used};
ghost use Rattle.rowtable.specs.Tables.{Exists};
ghost use Rattle.paths.specs.declared.refusal.PathRefusal.TheVariants as refusal;
ghost use Rattle.paths.specs.Cells.{width, index, Leads, all_lead_prop, Sound};

use crate::refusal::PathRefusal;
use book::tables::Book;
use grade::grade::Grade;
use phases::table::Phases;
use rowtable::row::{TableRow, TableState};

// A book, the phases in use, and the rows in use, each of which leads from a state that exists to one.
#[derive(Drop)]
pub(crate) struct SoundRows<'a, G: Grade> {
    pub(crate) book: &'a Book,
    pub(crate) phases: &'a [u64],
    pub(crate) rows: &'a [TableRow<G>],
    ghost few: { length phases.now ≤ 32 },
    ghost sound: { All (Leads phases.now) rows.now } by { all_lead_prop phases.now rows.now },
}

// How many cells a layer has over so many phases: 16 for each, and 64 for the nodes.
pub(crate) fn layer_width(phases: usize) -> usize
    requires { phases ≤ 32 }
    ensures { result ≡ 16 * phases + 64 }
{
    16 * phases + 64
}

fn exists(phases: &[u64], state: TableState) -> bool
    ensures { Decides result (Exists phases.now state) }
{
    match state {
        TableState::Node(node) => node <= 63,
        TableState::Head(mode, place) => mode <= 15 && usize::from(place) < phases.len(),
    }
}

fn all_lead<G: Grade>(phases: &[u64], rows: &[TableRow<G>]) -> bool
    ensures { Decides result (All (Leads phases.now) rows.now) }
{
    rows.iter()
        .all(|row| exists(phases, row.from) && exists(phases, row.to))
}

impl<'a, G: Grade> SoundRows<'a, G> {
    // The first `count` rows, if there are so many, and each leads from a state that exists to one. Any table and any count may
    // be handed over, and too large a count is refused.
    pub(crate) fn checked(
        book: &'a Book,
        phases: &'a Phases,
        rows: &'a [TableRow<G>],
        count: usize,
    ) -> Result<SoundRows<'a, G>, PathRefusal>
        ensures { MatchResult result
            (λ table. (table.book.now ≡ book.now)
            × (table.phases.now ≡ used phases.now)
            × (table.rows.now ≡ take count rows.now)
            × Sound G.Grade.own (used phases.now) rows.now count)
            (λ e. (e ≡ refusal.BrokenRow) × (Sound G.Grade.own (used phases.now) rows.now count → ⊥)) }
    {
        let phases = phases.in_use();
        let Some(rows) = rows.get(..count) else {
            return Err(PathRefusal::BrokenRow);
        };
        if !all_lead(phases, rows) {
            return Err(PathRefusal::BrokenRow);
        }
        Ok(SoundRows { book, phases, rows })
    }

    // How many cells a layer has.
    pub(crate) fn width(&self) -> usize
        ensures { result ≡ width self.now.phases.now }
    {
        layer_width(self.phases.len())
    }

    // The place of a state in its layer. That the state exists is asked for and not in its type: it hangs on the phases.
    pub(crate) fn index(&self, state: TableState) -> usize
        requires { Exists self.now.phases.now state }
        ensures is { result ≡ index self.now.phases.now state }
        ensures within { result < width self.now.phases.now }
    {
        match state {
            TableState::Node(node) => 16 * self.phases.len() + usize::from(node),
            TableState::Head(mode, place) => 16 * usize::from(place) + usize::from(mode),
        }
    }
}
