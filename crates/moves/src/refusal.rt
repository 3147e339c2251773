// Why a move is refused.
ghost use Rattle.std.specs.Prelude.{◌≡◌};

use text::refusal::LineRefusal;

#[derive(Clone, Copy, PartialEq, Eq, Debug)]
pub enum MoveRefusal {
    // the text is no order and no notice, or a number in it is above its limit
    Text(LineRefusal),
    // the mode or a wagon of the lane is too large, or the lane is longer than its buffer
    NoPosition,
    // the number to carry out is this one, and not the line's
    NotAccepted(u8),
    // the number, or the one that a notice withdraws, is not in the phase
    NotInForce,
    // the mode, the top or an empty lane forbids the move
    Forbidden,
    // the lane after the move is longer than the buffer
    NoRoom,
}

impl From<LineRefusal> for MoveRefusal {
    ghost use Rattle.moves.specs.declared.refusal.MoveRefusal.{MoveRefusal};

    ghost from_gives = { λ line refusal. refusal ≡ MoveRefusal.Text line };

    fn from(line: LineRefusal) -> MoveRefusal {
        MoveRefusal::Text(line)
    }
}

impl MoveRefusal {
    ghost use Rattle.moves.specs.Refusals.{refusal_number, refusal_place};

    // The number that the refusal is told by.
    pub fn number(&self) -> u8
        ensures { result ≡ refusal_number self.now }
    {
        match self {
            MoveRefusal::Text(refusal) => refusal.number(),
            MoveRefusal::NoPosition => 9,
            MoveRefusal::NotAccepted(_) => 6,
            MoveRefusal::NotInForce => 15,
            MoveRefusal::Forbidden => 16,
            MoveRefusal::NoRoom => 17,
        }
    }

    // The byte of the text, counted from 1, or the number that is not accepted, or 0: a number in any case, as C is told it.
    pub fn place(&self) -> usize
        ensures { result ≡ refusal_place self.now }
    {
        match self {
            MoveRefusal::Text(refusal) => refusal.place(),
            MoveRefusal::NotAccepted(number) => usize::from(*number),
            MoveRefusal::NoPosition
            | MoveRefusal::NotInForce
            | MoveRefusal::Forbidden
            | MoveRefusal::NoRoom => 0,
        }
    }
}
