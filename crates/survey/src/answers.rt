// The rows of a book, and what is asked of them.
use crate::ask::Ask;
use crate::blank::{blank_cells, blank_rows, blank_waiting};
use crate::options::Options;
use crate::runs::print_runs;
use crate::worked::Worked;
use book::tables::Book;
use grade::grade::Grade;
use paths::refusal::PathRefusal;
use phases::table::Phases;
use rowtable::row::TableState;
use saturation::book_rows::saturate_book;
use saturation::refusal::SaturationRefusal;
use std::alloc::{AllocError, Global};

// As in: node 3, or: head 1 6, with the phase as a number.
fn state_text(heap: Global, phases: &Phases, state: TableState) -> Result<String, AllocError> {
    match state {
        TableState::Node(node) => format!(in heap; "node {node}"),
        TableState::Head(mode, place) => match phases.table.get(usize::from(place)) {
            Some(phase) => format!(in heap; "head {mode} {phase}"),
            None => format!(in heap; "head {mode} at place {place}"),
        },
    }
}

// The rows as lines of text, in the order of their bytes: the order in the table is free.
fn row_lines<G: Grade + Into<u32>>(
    heap: Global,
    worked: &Worked<G>,
) -> Result<Vec<String>, AllocError> {
    let phases = &worked.done.phases;
    let mut lines = Vec::new(heap);
    for row in worked.rows.iter().take(worked.done.rows) {
        let from = state_text(heap, phases, row.from)?;
        let to = state_text(heap, phases, row.to)?;
        let wagon = row.wagon;
        let grade: u32 = row.grade.into();
        lines.push(format!(in heap; "{from} by {wagon} to {to}: {grade}")?)?;
    }
    lines.sort()?;
    Ok(lines)
}

fn print_rows<G: Grade + Into<u32>>(rt: &HostRuntime, worked: &Worked<G>) -> anyhow::Result<()> {
    let phases = worked.done.phases.count;
    let count = worked.done.rows;
    println!(rt; "phases {phases} rows {count}")?;
    for line in row_lines(rt.alloc(), worked)?.iter() {
        println!(rt; "{line}")?;
    }
    Ok(())
}

pub fn print_path_refusal(rt: &HostRuntime, refusal: PathRefusal) -> anyhow::Result<()> {
    match refusal {
        PathRefusal::NoWay => println!(rt; "no way")?,
        _ => {
            let number = refusal.number();
            println!(rt; "refused {number}")?;
        }
    }
    Ok(())
}

fn print_ways<G: Grade + Into<u32>>(
    rt: &HostRuntime,
    asks: &[Ask],
    worked: &Worked<G>,
) -> anyhow::Result<()> {
    let mut scratch = blank_cells::<G>(rt.alloc())?;
    for ask in asks {
        match worked.best_way(ask, scratch.as_mut_slice()) {
            Ok(grade) => {
                let shown: u32 = grade.into();
                println!(rt; "way {shown}")?;
            }
            Err(refusal) => print_path_refusal(rt, refusal)?,
        }
    }
    Ok(())
}

// By `println!`: a `Display` of the refusals would have to say which of number and place each program prints.
fn print_refusal(rt: &HostRuntime, refusal: SaturationRefusal) -> anyhow::Result<()> {
    let number = refusal.number();
    let place = refusal.place();
    println!(rt; "refused {number} at {place}")?;
    Ok(())
}

// Prints the rows of the book and the answers to the asks, or a run for each ask, or why the rows are not worked out.
pub fn print_answers<G: Grade + Into<u32>>(
    rt: &HostRuntime,
    book: &Book,
    asks: &[Ask],
    options: Options,
) -> anyhow::Result<()> {
    let places = options.places;
    let mut rows = blank_rows::<G>(rt.alloc(), places)?;
    let mut waiting = blank_waiting::<G>(rt.alloc(), places)?;
    match saturate_book(book, rows.as_mut_slice(), waiting.as_mut_slice()) {
        Err(refusal) => print_refusal(rt, refusal),
        Ok(done) => {
            let worked = Worked {
                book,
                done: &done,
                rows: rows.as_slice(),
            };
            if options.moves {
                return print_runs(rt, asks, &worked);
            }
            print_rows(rt, &worked)?;
            print_ways(rt, asks, &worked)
        }
    }
}
