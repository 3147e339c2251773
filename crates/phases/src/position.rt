// A position that is asked about: a mode, a phase and a lane of wagons, the top first.
#[derive(Clone, Copy, PartialEq, Eq, Debug)]
pub struct Position<'a> {
    pub mode: u8,
    pub phase: u64,
    pub lane: &'a [u8],
}
