// Why a book refuses.
ghost use Rattle.std.specs.Prelude.{◌≡◌};
ghost use Rattle.book.specs.declared.refusal.Refusal.TheVariants.{Line};
ghost use Rattle.book.specs.Refusals.{number_of, place_of};

use text::refusal::LineRefusal;

#[derive(Clone, Copy, PartialEq, Eq, Debug)]
pub enum Refusal {
    // the text is no line within the limits
    Line(LineRefusal),
    // the order or notice number, or this very line, stands already
    Stands,
    // as many open, watch or link lines stand as a book holds, and this is one more
    Full,
    // the text of the book exceeds the buffer
    NoRoom,
}

impl From<LineRefusal> for Refusal {
    ghost from_gives = { λ refusal r. r ≡ Line refusal };

    fn from(misread: LineRefusal) -> Refusal {
        Refusal::Line(misread)
    }
}

impl Refusal {
    // The number that the refusal is told by, as reports print it.
    pub fn number(&self) -> u8
        ensures { result ≡ number_of self.now }
    {
        match self {
            Refusal::Line(refusal) => refusal.number(),
            Refusal::Stands => 3,
            Refusal::Full => 4,
            Refusal::NoRoom => 17,
        }
    }

    // The byte of the line that the refusal names, counted from 1, or 0: a number in any case, as reports print it.
    pub fn place(&self) -> usize
        ensures { result ≡ place_of self.now }
    {
        match self {
            Refusal::Line(refusal) => refusal.place(),
            Refusal::Stands | Refusal::Full | Refusal::NoRoom => 0,
        }
    }
}
