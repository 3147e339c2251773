// Tables on the heap, all of whose places are blank.
use grade::grade::Grade;
use grade::waiting::Waiting;
use paths::cell::Cell;
use rowtable::blank::blank_row;
use rowtable::row::TableRow;
use std::alloc::{AllocError, Global};

pub fn blank_rows<G: Grade>(heap: Global, places: usize) -> Result<Vec<TableRow<G>>, AllocError> {
    Ok(vec![in heap; blank_row(); places]?)
}

// A place for a row that waits; the tests of `yard` have one of their own.
pub fn blank_waiting<G: Grade>(heap: Global, places: usize) -> Result<Vec<Waiting<G>>, AllocError> {
    let blank = Waiting {
        grade: G::best_grade(),
        row: 0,
    };
    Ok(vec![in heap; blank; places]?)
}

// A list for a lane of 32 wagons and so many rows.
pub fn blank_list(heap: Global, rows: usize) -> Result<Vec<usize>, AllocError> {
    Ok(vec![in heap; 0usize; rows.saturating_add(32)]?)
}

// Cells for a lane of 32 wagons and 32 phases: 33 layers, each with 16 modes in every phase, and 64 nodes.
pub fn blank_cells<G: Grade>(heap: Global) -> Result<Vec<Cell<G>>, AllocError> {
    Ok(vec![in heap; Cell::Unknown; 33 * 576]?)
}
