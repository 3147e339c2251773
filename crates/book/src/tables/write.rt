// Writing a book.
ghost use Rattle.std.specs.Prelude.{◌≡◌, ◌<◌, ◌≤◌, ◌++◌, length, drop, MatchResult};
ghost use Rattle.text.specs.Forms.{text};
ghost use Rattle.text.specs.Meaning.{Within};
ghost use Rattle.book.specs.declared.refusal.Refusal.TheVariants.{NoRoom};
ghost use Rattle.book.specs.Lines.{lines};
ghost use Rattle.book.specs.Writing.{ended, book_text, Tells};

use crate::refusal::Refusal;
use crate::tables::Book;
use text::line::{LONGEST, Line};
use text::writer::write_line;

// How many bytes the text of a line has.
fn line_len(line: &Line) -> usize
    requires { Within line.now }
    ensures { (result ≡ length (text line.now)) × (result ≤ 512) }
{
    write_line(line, &mut [0; LONGEST]).unwrap()
}

// Writes a line and its end at the front of the buffer, and gives their length.
fn write_ended(line: &Line, out: &mut [u8]) -> usize
    requires { length (ended line.now) ≤ length out.old }
    ensures count { result ≡ length (ended line.now) }
    ensures text { out.new ≡ ended line.now ++ drop result out.old }
{
    let n = write_line(line, out).unwrap();
    out[n] = b'\n';
    n + 1
}

impl Book {
    // How many lines stand.
    pub fn len(&self) -> usize
        ensures { result ≡ length (lines self.now) }
    {
        self.lines().count()
    }

    // How many bytes the text of the book has.
    pub fn text_len(&self) -> usize
        ensures { result ≡ length (book_text (lines self.now)) }
    {
        self.lines().map(|line| line_len(&line) + 1).sum()
    }

    // Writes the lines one after another.
    fn write_lines(&self, out: &mut [u8]) -> usize
        requires { length (book_text (lines self.now)) ≤ length out.old }
        ensures count { result ≡ length (book_text (lines self.now)) }
        ensures text { out.new ≡ book_text (lines self.now) ++ drop result out.old }
    {
        let mut n = 0;
        for line in self.lines() {
            n += write_ended(&line, &mut out[n..]);
        }
        n
    }

    // Writes the text of the book at the front of the buffer and gives its length, or leaves the buffer where it is too short.
    pub fn write(&self, out: &mut [u8]) -> Result<usize, Refusal>
        ensures text { MatchResult result
            (λ n. (n ≡ length (book_text (lines self.now))) × (out.new ≡ book_text (lines self.now) ++ drop n out.old))
            (λ e. (e ≡ NoRoom) × ((length out.old < length (book_text (lines self.now))) × (out.new ≡ out.old))) }
        ensures tells { Tells self.now }
    {
        if out.len() < self.text_len() {
            return Err(Refusal::NoRoom);
        }
        Ok(self.write_lines(out))
    }
}
