// Why a line is refused, with the place: the byte of the line, counted from 1.
#[derive(Clone, Copy, PartialEq, Eq, Debug)]
pub enum LineRefusal {
    // no form goes on at this place
    Syntax(usize),
    // the number that begins here is above its limit
    TooLarge(usize),
    // the number that begins here is not above the one before it
    NotRising(usize),
}

impl LineRefusal {
    ghost use Rattle.std.specs.Prelude.{◌≡◌};
    ghost use Rattle.text.specs.Refusals.{line_number, line_place};

    // The number that the refusal is told by.
    pub fn number(&self) -> u8
        ensures { result ≡ line_number self.now }
    {
        match self {
            LineRefusal::Syntax(_) => 1,
            LineRefusal::TooLarge(_) => 2,
            LineRefusal::NotRising(_) => 5,
        }
    }

    // The byte of the line that the refusal names, counted from 1.
    pub fn place(&self) -> usize
        ensures { result ≡ line_place self.now }
    {
        match self {
            LineRefusal::Syntax(place)
            | LineRefusal::TooLarge(place)
            | LineRefusal::NotRising(place) => *place,
        }
    }
}
