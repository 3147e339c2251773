// Runs vectors that a separate model computed: verdicts on single lines, and books written out.

#![tactic(auto)]

use book::refusal::Refusal;
use bookreport::book_text;
use std::alloc::{AllocError, Global};
use std::fs;
use text::reader::read_line;

// The verdict on a line: `ok`, or the refusal's number and place.
fn verdict(heap: Global, line: &str) -> Result<String, AllocError> {
    match read_line(line.as_bytes()) {
        Ok(_) => String::from_str(heap, "ok"),
        Err(refused) => {
            let refusal = Refusal::from(refused);
            let number = refusal.number();
            let place = refusal.place();
            format!(in heap; "{number} {place}")
        }
    }
}

// Whether a row, which has the verdict that is wanted, a tab and the line, gets that verdict.
fn agrees(heap: Global, row: &str) -> Result<bool, AllocError> {
    let Some((wanted, line)) = row.split_once('\t') else {
        return Ok(false);
    };
    let found = verdict(heap, line)?;
    Ok(found.as_str() == wanted)
}

fn lines(rt: &HostRuntime) -> anyhow::Result<()> {
    let table = fs::read_to_string(rt, "lines.tsv")?;
    // counted here, since telling whether a row agrees may fail, as printing may
    let mut agree = 0usize;
    for (i, row) in table.as_str().lines().enumerate() {
        if agrees(rt.alloc(), row)? {
            agree = agree.saturating_add(1);
        } else {
            println!(rt; "row {} differs", i + 1)?;
        }
    }
    println!(rt; "lines that agree: {agree}")?;
    Ok(())
}

// The lines of a book in some order, and the text that the writer gives for it.
fn books(rt: &HostRuntime) -> anyhow::Result<()> {
    // counted here, since reading a file may fail; and the numbers name the files
    let mut agree: u32 = 0;
    for n in 1..7u8 {
        let entered = fs::read(rt, format!(in rt.alloc(); "{n}.in")?.as_str())?;
        let wanted = fs::read(rt, format!(in rt.alloc(); "{n}.out")?.as_str())?;
        let found = book_text(rt.alloc(), entered.as_slice())?;
        if found.as_slice() == wanted.as_slice() {
            agree = agree.saturating_add(1);
        } else {
            println!(rt; "book {n} differs")?;
        }
    }
    println!(rt; "books that agree: {agree}")?;
    Ok(())
}

fn run(rt: &HostRuntime) -> anyhow::Result<()> {
    lines(rt)?;
    books(rt)
}

fn main(rt: HostRuntime) -> anyhow::Result<()> {
    run(&rt)
}
