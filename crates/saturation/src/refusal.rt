// Why rows are not saturated.
ghost use Rattle.std.specs.Prelude.{◌≡◌};
ghost use Rattle.saturation.specs.declared.refusal.SaturationRefusal.TheVariants as refusal;

use phases::refusal::PhaseRefusal;

// Why a book's rows are not saturated.
#[derive(Clone, Copy, Debug, PartialEq, Eq)]
pub enum SaturationRefusal {
    // its phases are not listed
    Phases(PhaseRefusal),
    // there are more rows than places
    TooManyRows,
}

impl From<PhaseRefusal> for SaturationRefusal {
    ghost from_gives = { λ e r. r ≡ refusal.Phases e };

    fn from(reason: PhaseRefusal) -> Self {
        SaturationRefusal::Phases(reason)
    }
}

impl SaturationRefusal {
    ghost use Rattle.saturation.specs.Refusals.{saturation_number, saturation_place};

    // The number that the refusal is told by.
    pub fn number(&self) -> u8
        ensures { result ≡ saturation_number self.now }
    {
        match self {
            SaturationRefusal::Phases(refusal) => refusal.number(),
            SaturationRefusal::TooManyRows => 8,
        }
    }

    // The number that is not accepted, or 0: a number in any case, as reports print it.
    pub fn place(&self) -> usize
        ensures { result ≡ saturation_place self.now }
    {
        match self {
            SaturationRefusal::Phases(refusal) => refusal.place(),
            SaturationRefusal::TooManyRows => 0,
        }
    }
}
