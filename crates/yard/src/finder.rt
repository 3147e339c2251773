// A book worked out, asked and followed, as a caller would.
use book::tables::Book;
use grade::grade::Grade;
use grade::waiting::Waiting;
use paths::best::best_way;
use paths::cell::Cell;
use paths::laid::lay_out;
use paths::refusal::PathRefusal;
use phases::position::Position;
use phases::table::Phases;
use rowtable::blank::blank_row;
use rowtable::row::TableRow;
use saturation::book_rows::saturate_book;
use saturation::refusal::SaturationRefusal;
use std::alloc::Global;
use std::test::*;
use unfolding::stage::{Shown, Stage, UnfoldRefusal};
use unfolding::unfold::unfold;

// How many places a caller hands over.
#[derive(Clone, Copy)]
pub struct Places {
    pub scratch: usize,
    pub list: usize,
}

// More than enough for all tests here.
pub const AMPLE: Places = Places {
    scratch: 8192,
    list: 128,
};

// The book of a text of which every line is accepted.
pub fn read(text: &str) -> Result<Book, Fail> {
    let mut book = Book::new();
    for line in text.lines() {
        if book.accept(line.as_bytes()).is_err() {
            return Err(Fail::new("a line is not accepted"));
        }
    }
    Ok(book)
}

fn unused<G: Grade>() -> Waiting<G> {
    Waiting {
        grade: G::best_grade(),
        row: 0,
    }
}

#[derive(Drop)]
pub struct Finder<G> {
    pub book: Book,
    pub phases: Phases,
    pub rows: Vec<TableRow<G>>,
    // how many of them are in use: as a caller holds it who may change the rest
    pub count: usize,
}

// How working out the book over so many places ends: the counts of opened phases and of rows, or a refusal.
pub fn counts<G: Grade>(
    heap: Global,
    book: &Book,
    table: usize,
    waiting: usize,
) -> Result<Result<(usize, usize), SaturationRefusal>, Fail> {
    let mut rows = vec![in heap; blank_row::<G>(); table]?;
    let mut places = vec![in heap; unused::<G>(); waiting]?;
    let answer = saturate_book(book, rows.as_mut_slice(), places.as_mut_slice());
    Ok(answer.map(|done| (done.phases.count, done.rows)))
}

impl<G: Grade> Finder<G> {
    pub fn new(heap: Global, text: &str) -> Result<Finder<G>, Fail> {
        let book = read(text)?;
        let mut rows = vec![in heap; blank_row::<G>(); 64]?;
        let mut places = vec![in heap; unused::<G>(); 64]?;
        match saturate_book(&book, rows.as_mut_slice(), places.as_mut_slice()) {
            Ok(done) => Ok(Finder {
                book,
                phases: done.phases,
                rows,
                count: done.rows,
            }),
            Err(_) => Err(Fail::new("not worked out")),
        }
    }

    // The best grade, or a refusal.
    pub fn ask(
        &self,
        heap: Global,
        ask: Position,
        scratch: usize,
    ) -> Result<Result<G, PathRefusal>, Fail> {
        let mut cells = vec![in heap; Cell::Unknown; scratch]?;
        Ok(best_way(
            &self.book,
            &self.phases,
            self.rows.as_slice(),
            self.count,
            &ask,
            cells.as_mut_slice(),
        ))
    }

    // A path of the best grade, laid out on the list.
    pub fn follow(
        &self,
        heap: Global,
        ask: Position,
        places: Places,
    ) -> Result<Result<(G, Vec<usize>), PathRefusal>, Fail> {
        let mut cells = vec![in heap; Cell::Unknown; places.scratch]?;
        let mut list = vec![in heap; 0usize; places.list]?;
        let answer = lay_out(
            &self.book,
            &self.phases,
            self.rows.as_slice(),
            self.count,
            &ask,
            cells.as_mut_slice(),
            list.as_mut_slice(),
        );
        Ok(answer.map(|grade| (grade, list)))
    }

    pub fn next(
        &self,
        list: &mut Vec<usize>,
        stage: Stage,
    ) -> Result<Option<Shown>, UnfoldRefusal> {
        unfold(
            &self.book,
            self.rows.as_slice(),
            self.count,
            list.as_mut_slice(),
            stage,
        )
    }
}
