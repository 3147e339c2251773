// Entering lines into a book.
ghost use Rattle.std.specs.Prelude.{◌≡◌, false, Ok, Err, MatchResult};
ghost use Rattle.text.specs.Meaning.{Within};
ghost use Rattle.book.specs.Order.{put};
ghost use Rattle.book.specs.Ranks.{rank};
ghost use Rattle.book.specs.Lines.{lines};
ghost use Rattle.book.specs.Entering.{clashes, full, entered};
ghost use Rattle.book.specs.Words.{Joins, Refused};

use crate::refusal::Refusal;
use crate::rows::place;
use crate::tables::Book;
use text::line::{Line, Rule};
use text::reader::read_line;

impl Book {
    // Whether an order or notice with this number, or this very line, stands.
    fn stands(&self, line: &Line) -> bool
        requires { Within line.now }
        ensures { result ≡ clashes (lines self.now) line.now }
    {
        match line {
            Line::Order(o) => self.rules[usize::from(o.number)].is_some(),
            Line::Notice(n) => self.rules[usize::from(n.number)].is_some(),
            Line::Open(phase) => self.opens_in_use().contains(phase),
            Line::Watch(w) => self.watches_in_use().contains(w),
            Line::Link(k) => self.links_in_use().contains(k),
            Line::End(t) => self.ends[usize::from(*t)],
            Line::Bare(p) => self.bares[usize::from(*p)],
        }
    }

    // Whether as many lines of this kind stand as a book holds.
    fn is_full(&self, line: &Line) -> bool
        ensures { result ≡ full (lines self.now) line.now }
    {
        match line {
            Line::Open(_) => self.opening >= self.opens.len(),
            Line::Watch(_) => self.watching >= self.watches.len(),
            Line::Link(_) => self.linking >= self.links.len(),
            Line::Order(_) | Line::Notice(_) | Line::End(_) | Line::Bare(_) => false,
        }
    }

    // Puts a line at its place.
    fn enter(&mut self, line: Line)
        requires within { Within line }
        requires new { clashes (lines self.old) line ≡ false }
        requires room { full (lines self.old) line ≡ false }
        ensures { lines self.new ≡ put rank line (lines self.old) }
    {
        match line {
            Line::Order(o) => self.rules[usize::from(o.number)] = Some(Rule::Order(o)),
            Line::Notice(n) => self.rules[usize::from(n.number)] = Some(Rule::Notice(n)),
            Line::Open(phase) => {
                place(&mut self.opens, self.opening, phase);
                self.opening += 1;
            }
            Line::Watch(w) => {
                place(&mut self.watches, self.watching, w);
                self.watching += 1;
            }
            Line::Link(k) => {
                place(&mut self.links, self.linking, k);
                self.linking += 1;
            }
            Line::End(t) => self.ends[usize::from(t)] = true,
            Line::Bare(p) => self.bares[usize::from(p)] = true,
        }
    }

    // Takes a line as text.
    pub fn accept(&mut self, text: &[u8]) -> Result<(), Refusal>
        ensures entered { MatchResult result
            (λ _. entered (lines self.old) text.now ≡ Ok (lines self.new))
            (λ e. (entered (lines self.old) text.now ≡ Err e) × (self.new ≡ self.old)) }
        ensures words { MatchResult result
            (λ _. Joins (lines self.old) text.now (lines self.new))
            (λ e. Refused (lines self.old) text.now e) }
    {
        let line = read_line(text)?;
        if self.stands(&line) {
            return Err(Refusal::Stands);
        }
        if self.is_full(&line) {
            return Err(Refusal::Full);
        }
        self.enter(line);
        Ok(())
    }
}
