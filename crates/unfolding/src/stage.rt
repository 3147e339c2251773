// What unfolding tells of a move.
ghost use Rattle.std.specs.Prelude.{◌≡◌};

pub use moves::stage::Stage;

// A move that is shown: the number carried out, and how far the run has come then. A list that stands for the rest of the run has a
// row for each wagon of the lane.
#[derive(Clone, Copy, Debug, PartialEq, Eq)]
pub struct Shown {
    pub number: u8,
    pub after: Stage,
}

// Why nothing is told of the next move. There is one reason, which is named for those who list refusals by their numbers.
#[derive(Clone, Copy, Debug, PartialEq, Eq)]
pub enum UnfoldRefusal {
    // there are not so many rows or places, or a row that is read names nothing that exists
    BrokenRow,
}

impl UnfoldRefusal {
    ghost use Rattle.unfolding.specs.Shows.{unfold_number};

    // The number that the refusal is told by.
    pub fn number(&self) -> u8
        ensures { result ≡ unfold_number self.now }
    {
        match self {
            UnfoldRefusal::BrokenRow => 14,
        }
    }
}
