// The move as a static library for programs in C or Rust: the one exported function, over the library's.

#![tactic(auto)]

ghost use Rattle.std.specs.Prelude.{◌≡◌, Result as Outcome};
ghost use Rattle.moves.specs.declared.stage.Stage.{Stage as Reached};
ghost use Rattle.moves.specs.declared.refusal.MoveRefusal.{MoveRefusal};
ghost use Rattle.moves.specs.Moving.{stage, handed, move_says};
ghost use Rattle.moves.specs.Meaning.{Right};
ghost use Rattle.moves.specs.Answers.{in_numbers};

use moves::export::{MoveAnswer, zenturpa_move as answered};

// The move of `move_lane`. A slice is a pointer and then a length.
#[unsafe(no_mangle)]
pub extern "C" fn zenturpa_move(
    line: &[u8],
    mode: u8,
    phase: u64,
    buffer: &mut [u8],
    len: usize,
    number: u8,
) -> MoveAnswer
    ensures answer { result ≡ in_numbers (stage mode phase len) (move_says line.now (handed (stage mode phase len) buffer.old number)).answer }
    ensures buffer { buffer.new ≡ (move_says line.now (handed (stage mode phase len) buffer.old number)).buffer }
    ensures right { (x : Outcome Reached MoveRefusal)
        × (result ≡ in_numbers (stage mode phase len) x)
        × Right line.now (handed (stage mode phase len) buffer.old number) x buffer.new }
{
    answered(line, mode, phase, buffer, len, number)
}
