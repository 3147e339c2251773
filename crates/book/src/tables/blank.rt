// A book with nothing in it.
ghost use Rattle.std.specs.Prelude.{◌≡◌, []};
ghost use Rattle.book.specs.Tables.{nought, blank_watch, blank_link};
ghost use Rattle.book.specs.Lines.{lines};

use crate::tables::{Book, LINKS, MODES, NODES, OPENS, RULES, WATCHES};
use grade::upto::UpTo;
use text::line::{LinkLine, WatchLine};

fn zero<const MAX: u16>() -> UpTo<MAX>
    ensures { result ≡ nought MAX }
{
    UpTo { value: 0 }
}

// The rows that are not in use, one function for each of two structs with other fields.
fn blank_watch() -> WatchLine
    ensures { result ≡ blank_watch }
{
    WatchLine {
        mode: zero(),
        wagon: zero(),
        node: zero(),
    }
}

fn blank_link() -> LinkLine
    ensures { result ≡ blank_link }
{
    LinkLine {
        node: zero(),
        wagon: zero(),
        to: zero(),
    }
}

impl Book {
    // A book in which no line stands.
    pub fn new() -> Book
        ensures { lines result ≡ [] }
    {
        Book {
            rules: [None; RULES],
            opens: [0; OPENS],
            opening: 0,
            watches: [blank_watch(); WATCHES],
            watching: 0,
            links: [blank_link(); LINKS],
            linking: 0,
            ends: [false; NODES],
            bares: [false; MODES],
        }
    }
}
