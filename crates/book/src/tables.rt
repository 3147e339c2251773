ghost use Rattle.std.specs.Prelude.{◌≡◌, ◌^◌, ◌<◌, ◌≤◌, length};
ghost use Rattle.std.specs.List.{AllByRecursion};
ghost use Rattle.book.specs.Order.{Tidy};
ghost use Rattle.book.specs.Ranks.{phase_rank, watch_rank, link_rank};
ghost use Rattle.book.specs.Tables.{Along, AtNumber, blank_watch, blank_link};

mod accept;
mod blank;
mod used;
mod walk;
mod write;

use text::line::{LinkLine, Rule, WatchLine};

// How many orders and notices, open, watch and link lines a book has room for, and how many nodes and modes there are.
pub const RULES: usize = 64;

pub const OPENS: usize = 8;

pub const WATCHES: usize = 128;

pub const LINKS: usize = 128;

pub const NODES: usize = 64;

pub const MODES: usize = 16;

// The lines that stand in an order book. Equal books are equal records: each table is kept in order, the unused rest blank.
// The tables are arrays with a count beside them, since a book has a fixed size and no heap.
#[derive(Drop)]
pub struct Book {
    // an order or notice, if one stands, stands at its own number
    pub rules: [Option<Rule>; RULES],
    // the phases of the open lines, of which there are `opening`
    pub opens: [u64; OPENS],
    pub opening: usize,
    pub watches: [WatchLine; WATCHES],
    pub watching: usize,
    pub links: [LinkLine; LINKS],
    pub linking: usize,
    // whether the node, or the mode, with this number has a line
    pub ends: [bool; NODES],
    pub bares: [bool; MODES],
    // what makes equal books equal records
    ghost numbered: { (length rules ≡ 64) × ∥ Along AtNumber 0 rules ∥₁ },
    ghost phases: { ∥ AllByRecursion (λ F. F < 2 ^ 64) opens ∥₁ },
    ghost opened: { Tidy phase_rank 0 8 opens opening },
    ghost watched: { Tidy watch_rank blank_watch 128 watches watching },
    ghost linked: { Tidy link_rank blank_link 128 links linking },
    ghost marked: { (length ends ≡ 64) × (length bares ≡ 16) },
}
