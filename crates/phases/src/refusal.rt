// Why phases are not listed, and why nothing is told of a position.
ghost use Rattle.std.specs.Prelude.{◌≡◌};

// Why the phases of a book are not listed.
#[derive(Clone, Copy, PartialEq, Eq, Debug)]
pub enum PhaseRefusal {
    // a notice or an open line names this number, under which no order or notice stands
    NotAccepted(usize),
    // more phases are opened than the table has places
    TooMany,
}

impl PhaseRefusal {
    ghost use Rattle.phases.specs.Refusals.{phase_number, phase_place};

    // The number that the refusal is told by.
    pub fn number(&self) -> u8
        ensures { result ≡ phase_number self.now }
    {
        match self {
            PhaseRefusal::NotAccepted(_) => 6,
            PhaseRefusal::TooMany => 7,
        }
    }

    // The number that is not accepted, or 0: a number in any case, as reports print it.
    pub fn place(&self) -> usize
        ensures { result ≡ phase_place self.now }
    {
        match self {
            PhaseRefusal::NotAccepted(number) => *number,
            PhaseRefusal::TooMany => 0,
        }
    }
}

// Why it is not told whether the watch holds a position.
#[derive(Clone, Copy, PartialEq, Eq, Debug)]
pub enum PositionRefusal {
    // the mode or a wagon is above its limit, or the lane is too long
    TooLarge,
    // the phase is not among the opened ones
    NotOpened,
}
