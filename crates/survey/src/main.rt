// Works out the rows of an order book and answers asks, so that another implementation can be compared with this one.
// Standard input has the lines of a book and lines `(ask P (R ...) (K ...))`: a mode, the numbers of a phase and the wagons of a
// lane, top first. Arguments: `class` grades by class, not by minutes; `moves` shows a best run
// for each ask, and not the rows; `places=N` gives the row table N places; `time=N` prints how
// long it took, asking N times, and not what came of it.

#![tactic(auto)]

mod answers;
mod ask;
mod blank;
mod options;
mod runs;
mod times;
mod worked;

use ask::{Ask, read_ask};
use book::tables::Book;
use grade::class::Class;
use grade::grade::Grade;
use grade::minutes::Minutes;
use options::{Options, read_options};
use std::io::{BufRead, BufReader};

// Enters a line of the book; prints a refusal.
fn enter(rt: &HostRuntime, book: &mut Book, line: &str) -> anyhow::Result<()> {
    if let Err(refusal) = book.accept(line.as_bytes()) {
        let number = refusal.number();
        let place = refusal.place();
        println!(rt; "{line}: refused {number} at {place}")?;
    }
    Ok(())
}

// Reads the lines of the book and the asks.
fn read_input(rt: &HostRuntime, book: &mut Book, asks: &mut Vec<Ask>) -> anyhow::Result<()> {
    for read in BufReader::new(rt.alloc(), rt.stdin())?.lines(rt.alloc()) {
        let line = read?;
        match line.as_str().strip_prefix("(ask ") {
            None => enter(rt, book, line.as_str())?,
            Some(rest) => match read_ask(rt.alloc(), rest)? {
                Some(ask) => asks.push(ask)?,
                None => println!(rt; "{line}: not an ask")?,
            },
        }
    }
    Ok(())
}

fn work<G: Grade + Into<u32>>(rt: &HostRuntime, options: Options) -> anyhow::Result<()> {
    let mut book = Book::new();
    let mut asks = Vec::new(rt.alloc());
    read_input(rt, &mut book, &mut asks)?;
    match options.rounds {
        Some(rounds) => times::print_times::<G>(rt, &book, asks.as_slice(), options.places, rounds),
        None => answers::print_answers::<G>(rt, &book, asks.as_slice(), options),
    }
}

fn run(rt: &HostRuntime) -> anyhow::Result<()> {
    let options = read_options(rt)?;
    if options.by_class {
        work::<Class>(rt, options)
    } else {
        work::<Minutes>(rt, options)
    }
}

fn main(rt: HostRuntime) -> anyhow::Result<()> {
    run(&rt)
}
