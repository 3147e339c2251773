ghost use Rattle.std.specs.Prelude.{◌≤◌, length};

use book::tables::Book;

// What stays as it is while rows are brought in: the book, its opened phases, and how many rows are settled.
#[derive(Clone, Copy)]
pub(crate) struct Setting<'a> {
    pub(crate) book: &'a Book,
    pub(crate) phases: &'a [u64],
    pub(crate) settled: usize,
    // a row names a phase by its place, in a byte
    ghost few: { length phases.now ≤ 256 },
}
