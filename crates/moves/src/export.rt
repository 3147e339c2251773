// The move for programs in C or Rust: plain numbers and bytes in, plain numbers out.
ghost use Rattle.std.specs.Prelude.{◌≡◌, Result as Outcome};
ghost use Rattle.moves.specs.declared.stage.Stage.{Stage as Reached};
ghost use Rattle.moves.specs.declared.refusal.MoveRefusal.{MoveRefusal};
ghost use Rattle.moves.specs.Moving.{stage, handed, move_says};
ghost use Rattle.moves.specs.Meaning.{Right};
ghost use Rattle.moves.specs.Answers.{in_numbers};

use crate::moving::move_lane;
use crate::stage::Stage;

// What a move answers. Where `refusal` is 0 the move was made, and mode, phase and length are those after it.
// Else `refusal` and `place` say why and where, and mode, phase and length are those handed over.
#[repr(C)]
#[derive(Clone, Copy)]
pub struct MoveAnswer {
    pub refusal: u32,
    pub mode: u32,
    pub place: usize,
    pub phase: u64,
    pub len: usize,
}

// The move of `move_lane`. A slice is a pointer and then a length.
#[unsafe(no_mangle)]
pub extern "C" fn zenturpa_move(
    line: &[u8],
    mode: u8,
    phase: u64,
    buffer: &mut [u8],
    len: usize,
    number: u8,
) -> MoveAnswer
    ensures answer { result ≡ in_numbers (stage mode phase len) (move_says line.now (handed (stage mode phase len) buffer.old number)).answer }
    ensures buffer { buffer.new ≡ (move_says line.now (handed (stage mode phase len) buffer.old number)).buffer }
    ensures right { (x : Outcome Reached MoveRefusal)
        × (result ≡ in_numbers (stage mode phase len) x)
        × Right line.now (handed (stage mode phase len) buffer.old number) x buffer.new }
{
    let stage = Stage {
        mode,
        phase,
        length: len,
    };
    let (refusal, place, told) = match move_lane(line, stage, buffer, number) {
        Ok(reached) => (0, 0, reached),
        Err(refusal) => (refusal.number(), refusal.place(), stage),
    };
    MoveAnswer {
        refusal: u32::from(refusal),
        mode: u32::from(told.mode),
        place,
        phase: told.phase,
        len: told.length,
    }
}
