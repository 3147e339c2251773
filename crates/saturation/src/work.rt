use grade::waiting::Waiting;
use rowtable::row::TableRow;

// The lent row table, of which the first `found` places are in use, and the lent queue of the rows that wait.
// What holds of them (`TableOf`) stands in clauses and is no ghost field: such a fact may have one proof at most, and this one says
// "or" and "some place". The same goes for what else relates the work to a setting, to a row, or to the work before a call.
// The slices are lent, with a count beside them: there is no heap.
#[derive(Drop)]
pub(crate) struct Work<'a, G> {
    pub(crate) rows: &'a mut [TableRow<G>],
    pub(crate) waiting: &'a mut [Waiting<G>],
    pub(crate) found: usize,
}
