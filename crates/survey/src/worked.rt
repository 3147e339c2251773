// A book that is worked out, and what a caller asks of it.
use crate::ask::Ask;
use book::tables::Book;
use grade::grade::Grade;
use paths::best::best_way;
use paths::cell::Cell;
use paths::laid::lay_out;
use paths::refusal::PathRefusal;
use rowtable::row::TableRow;
use saturation::saturated::Saturation;
use unfolding::stage::{Shown, Stage, UnfoldRefusal};
use unfolding::unfold::unfold;

// The rows are the whole table, as a caller holds it, and `done` has how many are in use.
// The runtime and the asks go beside it: they are no part of a book that is worked out.
#[derive(Drop)]
pub struct Worked<'a, G> {
    pub book: &'a Book,
    pub done: &'a Saturation,
    pub rows: &'a [TableRow<G>],
}

impl<G: Grade> Worked<'_, G> {
    // The best grade of a run from the position that is asked about.
    pub fn best_way(&self, ask: &Ask, scratch: &mut [Cell<G>]) -> Result<G, PathRefusal> {
        best_way(
            self.book,
            &self.done.phases,
            self.rows,
            self.done.rows,
            &ask.position(),
            scratch,
        )
    }

    // Lays out a best run on the list.
    pub fn lay_out(
        &self,
        ask: &Ask,
        scratch: &mut [Cell<G>],
        list: &mut [usize],
    ) -> Result<G, PathRefusal> {
        lay_out(
            self.book,
            &self.done.phases,
            self.rows,
            self.done.rows,
            &ask.position(),
            scratch,
            list,
        )
    }

    // The next move of the run on the list.
    pub fn next(&self, list: &mut [usize], stage: Stage) -> Result<Option<Shown>, UnfoldRefusal> {
        unfold(self.book, self.rows, self.done.rows, list, stage)
    }
}
