// Writing the text of a line.
ghost use Rattle.std.specs.Prelude.{◌≡◌, ◌<◌, ◌++◌, length, drop, MatchOption};
ghost use Rattle.text.specs.Forms.{text};

use crate::line::{LONGEST, Line};
use crate::line_text::LineText;

// Writes the text of a line at the front of the buffer and gives its length, or leaves the buffer where it is too short.
pub fn write_line(line: &Line, out: &mut [u8]) -> Option<usize>
    ensures { MatchOption result
        ((length out.old < length (text line.now)) × (out.new ≡ out.old))
        (λ n. (n ≡ length (text line.now)) × (out.new ≡ text line.now ++ drop n out.old)) }
{
    // in place: a text that a function hands back by value is cleared and copied once more
    let mut text = LineText {
        bytes: [0; LONGEST],
        len: 0,
    };
    text.line(line);
    let text = text.as_slice();
    if out.len() < text.len() {
        return None;
    }
    out[..text.len()].copy_from_slice(text);
    Some(text.len())
}
