use phases::position::Position;
use std::alloc::{AllocError, Global};

// The parts of an ask, in their order: the place of a bracket says which one is read.
#[derive(Clone, Copy)]
enum Part {
    Mode,
    Phase,
    Lane,
}

const PARTS: [Part; 3] = [Part::Mode, Part::Phase, Part::Lane];

// A position that is asked about.
#[derive(Drop)]
pub struct Ask {
    pub mode: u8,
    pub phase: u64,
    pub lane: Vec<u8>,
}

impl Ask {
    pub fn position(&self) -> Position<'_> {
        Position {
            mode: self.mode,
            phase: self.phase,
            lane: self.lane.as_slice(),
        }
    }

    // Takes a number of the part in. False where there is no such number in a phase: a bool, as there is nothing else to tell.
    fn take(&mut self, part: Part, number: u8) -> Result<bool, AllocError> {
        match part {
            Part::Mode => self.mode = number,
            Part::Phase => match 1u64.checked_shl(u32::from(number)) {
                Some(bit) => self.phase |= bit,
                None => return Ok(false),
            },
            Part::Lane => self.lane.push(number)?,
        }
        Ok(true)
    }
}

// Reads what follows the name in a line `(ask P (R ...) (K ...))`: the numbers, whatever blanks stand between them.
pub fn read_ask(heap: Global, text: &str) -> Result<Option<Ask>, AllocError> {
    let mut ask = Ask {
        mode: 0,
        phase: 0,
        lane: Vec::new(heap),
    };
    for (place, piece) in text.split('(').enumerate() {
        for word in piece.split_whitespace() {
            let digits = word.trim_end_matches(')');
            if digits.is_empty() {
                continue;
            }
            let (Some(part), Ok(number)) = (PARTS.get(place), digits.parse::<u8>()) else {
                return Ok(None);
            };
            if !ask.take(*part, number)? {
                return Ok(None);
            }
        }
    }
    Ok(Some(ask))
}
