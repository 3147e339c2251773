// How long working out and asking take.
use crate::ask::Ask;
use crate::blank::{blank_cells, blank_rows, blank_waiting};
use crate::worked::Worked;
use anyhow::anyhow;
use book::tables::Book;
use grade::grade::Grade;
use paths::cell::Cell;
use saturation::book_rows::saturate_book;
use std::time::Instant;

// Answers all asks once. Gives the sum of the grades, so that both implementations can be seen to do the same work.
fn ask_all<G: Grade + Into<u32>>(asks: &[Ask], worked: &Worked<G>, scratch: &mut [Cell<G>]) -> u64 {
    let mut sum: u64 = 0;
    for ask in asks {
        if let Ok(grade) = worked.best_way(ask, scratch) {
            sum = sum.wrapping_add(u64::from(grade.into()));
        }
    }
    sum
}

fn print_asking<G: Grade + Into<u32>>(
    rt: &HostRuntime,
    asks: &[Ask],
    worked: &Worked<G>,
    rounds: u32,
) -> anyhow::Result<()> {
    let mut scratch = blank_cells::<G>(rt.alloc())?;
    let mut sum: u64 = 0;
    let start = Instant::now(rt)?;
    for _ in 0..rounds {
        sum = sum.wrapping_add(ask_all(asks, worked, scratch.as_mut_slice()));
    }
    let nanos = start.elapsed(rt)?.as_nanos();
    let count = asks.len();
    println!(rt; "asking {nanos} ns asks {count} rounds {rounds} sum {sum}")?;
    Ok(())
}

// Prints two times that the process's clock gives. Working out is one call of `saturate_book`, over tables that have been made:
// listing the phases and filling the row table. Asking is all asks in turn, `rounds` times, over that table.
// Reading, making the tables and printing are in neither.
pub fn print_times<G: Grade + Into<u32>>(
    rt: &HostRuntime,
    book: &Book,
    asks: &[Ask],
    places: usize,
    rounds: u32,
) -> anyhow::Result<()> {
    let mut rows = blank_rows::<G>(rt.alloc(), places)?;
    let mut waiting = blank_waiting::<G>(rt.alloc(), places)?;
    let start = Instant::now(rt)?;
    let answer = saturate_book(book, rows.as_mut_slice(), waiting.as_mut_slice());
    let nanos = start.elapsed(rt)?.as_nanos();
    match answer {
        Err(_) => Err(anyhow!("the rows are not worked out")),
        Ok(done) => {
            let phases = done.phases.count;
            let count = done.rows;
            println!(rt; "working out {nanos} ns phases {phases} rows {count}")?;
            let worked = Worked {
                book,
                done: &done,
                rows: rows.as_slice(),
            };
            print_asking(rt, asks, &worked, rounds)
        }
    }
}
