// What the program bookfmt prints, as functions on bytes.

#![tactic(auto)]

ghost use Rattle.std.specs.Prelude.{◌≡◌, ◌+◌, ◌^◌, ◌<◌, ◌≤◌, [], ◌++◌, length, IfOk, OnOk, string_bytes};
ghost use Rattle.book.specs.Lines.{lines};
ghost use Rattle.book.specs.Writing.{book_text};
ghost use Rattle.bookreport.specs.Report.{note_text, words, report, book_alone, Entered};

use book::refusal::Refusal;
use book::tables::Book;
use std::alloc::{AllocError, Global};

// As in: line 3 refused 2 at 7. By `format!` and no `Display` of the refusal: what is proved here is the text itself.
fn note(heap: Global, line: usize, refusal: &Refusal) -> Result<String, AllocError>
    ensures { IfOk result (λ t. string_bytes t ≡ note_text (record { line = line; refusal = refusal.now })) }
{
    let number = refusal.number();
    let place = refusal.place();
    format!(in heap; "line {line} refused {number} at {place}\n")
}

// What entering the lines of a text leaves: the book, what is noted of each refusal, and how many lines were read and refused.
#[derive(Drop)]
struct Entries {
    book: Book,
    notes: Vec<u8>,
    read: usize,
    refused: usize,
    ghost few: { refused ≤ read },
}

impl Entries {
    ghost use Rattle.bookreport.specs.Entries.{Enters};

    // Enters one line more, and notes a refusal.
    fn enter(&mut self, heap: Global, line: &[u8]) -> Result<(), AllocError>
        requires { self.old.read + 1 < 2 ^ 64 }
        ensures { OnOk result (Enters self.old line.now self.new) }
    {
        self.read += 1;
        if let Err(refusal) = self.book.accept(line) {
            self.refused += 1;
            let note = note(heap, self.read, &refusal)?;
            self.notes.extend_from_slice(note.as_bytes())?;
        }
        Ok(())
    }

    // What is said at the end.
    fn closing(&self, heap: Global) -> Result<String, AllocError>
        ensures { IfOk result (λ t. let ls = lines self.now.book in string_bytes t ≡ words self.now.read self.now.refused (length ls) (length (book_text ls))) }
    {
        let read = self.read;
        let refused = self.refused;
        let kept = read - refused;
        let standing = self.book.len();
        let bytes = self.book.text_len();
        format!(in heap;
            "lines read {read}, kept {kept}, refused {refused}; the book has lines {standing}, bytes {bytes}\n"
        )
    }
}

// Enters the lines of a text one after another into an empty book, and notes each refusal.
fn enter_lines(heap: Global, text: &[u8]) -> Result<Entries, AllocError>
    ensures { IfOk result (λ e. Entered [] text.now [] (lines e.book) e.notes.items e.read e.refused) }
{
    let mut entries = Entries {
        book: Book::new(),
        notes: Vec::new(heap),
        read: 0,
        refused: 0,
    };
    for line in text.split_inclusive(|byte| *byte == b'\n') {
        entries.enter(heap, line.strip_suffix(b"\n").unwrap_or(line))?;
    }
    Ok(entries)
}

// Writes the text of a book behind what is there.
fn append_book(heap: Global, book: &Book, out: &mut Vec<u8>) -> Result<(), AllocError>
    ensures { OnOk result (out.new.items ≡ out.old.items ++ book_text (lines book.now)) }
{
    let mut text = vec![in heap; 0u8; book.text_len()]?;
    book.write(text.as_mut_slice()).unwrap();
    out.extend_from_slice(text.as_slice())?;
    Ok(())
}

// What is printed of a text: each refusal, the book in its one order, and what was done.
pub fn report_text(heap: Global, text: &[u8]) -> Result<Vec<u8>, AllocError>
    ensures { IfOk result (λ v. v.items ≡ report text.now) }
{
    let entries = enter_lines(heap, text)?;
    let last = entries.closing(heap)?;
    let Entries {
        book,
        notes: mut out,
        ..
    } = entries;
    append_book(heap, &book, &mut out)?;
    out.extend_from_slice(last.as_bytes())?;
    Ok(out)
}

// The book of a text alone, so that it can be stored and read again.
pub fn book_text(heap: Global, text: &[u8]) -> Result<Vec<u8>, AllocError>
    ensures { IfOk result (λ v. v.items ≡ book_alone text.now) }
{
    let entered = enter_lines(heap, text)?;
    let mut out = Vec::new(heap);
    append_book(heap, &entered.book, &mut out)?;
    Ok(out)
}
