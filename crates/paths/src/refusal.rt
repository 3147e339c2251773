// Why no path is told.
ghost use Rattle.std.specs.Prelude.{◌≡◌};

#[derive(Clone, Copy, Debug, PartialEq, Eq)]
pub enum PathRefusal {
    // the mode or a wagon is above its limit, or the lane is too long
    TooLarge,
    // the phase is not among the opened ones
    NotOpened,
    // scratch has too few places
    ScratchShort,
    // the list has too few places
    ListShort,
    // the rows make no path to where one may end
    NoWay,
    // there are not so many rows, or one of them names nothing that exists
    BrokenRow,
}

impl PathRefusal {
    ghost use Rattle.paths.specs.Answers.{path_number};

    // The number that the refusal is told by.
    pub fn number(&self) -> u8
        ensures { result ≡ path_number self.now }
    {
        match self {
            PathRefusal::TooLarge => 9,
            PathRefusal::NotOpened => 10,
            PathRefusal::ScratchShort => 11,
            PathRefusal::ListShort => 12,
            PathRefusal::NoWay => 13,
            PathRefusal::BrokenRow => 14,
        }
    }
}
