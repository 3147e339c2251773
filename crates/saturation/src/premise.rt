use rowtable::row::TableRow;

// A settled row that a rule may rest on, with its place in the table.
#[derive(Clone, Copy)]
pub(crate) struct Premise<G> {
    pub(crate) place: usize,
    pub(crate) row: TableRow<G>,
}
