// How far a run has come: its mode and phase, and how many wagons its lane holds. The lane itself stands in a buffer of the
// caller's, as the C interface hands it over, or in a list of rows.
#[derive(Clone, Copy, PartialEq, Eq, Debug)]
pub struct Stage {
    pub mode: u8,
    pub phase: u64,
    pub length: usize,
}
