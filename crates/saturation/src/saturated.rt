use phases::table::Phases;

// What saturating a book answers: its opened phases, and how many places of the row table hold its rows. The table is the caller's,
// who may write to it meanwhile, so it is no slice.
#[derive(Drop)]
pub struct Saturation {
    pub phases: Phases,
    pub rows: usize,
}
