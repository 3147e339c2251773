// Reads an order book from standard input, prints what is refused, the book in its one order, and what was done.
// With the argument `--book` it prints the book alone.

#![tactic(auto)]

use bookreport::{book_text, report_text};
use std::env;
use std::io::{Read, Write};

// Whether the book alone is asked for.
fn book_alone(rt: &HostRuntime) -> anyhow::Result<bool> {
    Ok(env::args(rt)?.skip(1).any(|word| word.as_str() == "--book"))
}

fn run(rt: &HostRuntime) -> anyhow::Result<()> {
    let mut text = Vec::new(rt.alloc());
    rt.stdin().read_to_end(&mut text)?;
    let out = if book_alone(rt)? {
        book_text(rt.alloc(), text.as_slice())?
    } else {
        report_text(rt.alloc(), text.as_slice())?
    };
    rt.stdout().write_all(out.as_slice())?;
    Ok(())
}

fn main(rt: HostRuntime) -> anyhow::Result<()> {
    run(&rt)
}
