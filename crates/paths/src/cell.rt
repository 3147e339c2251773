// What is known of a state with some wagons left.
ghost use Rattle.std.specs.Prelude.{◌≡◌};
ghost use Rattle.paths.specs.Cells.{known, grade_of};

use grade::grade::Grade;

// One enum with one tag, so that a cell is no larger than a grade, a place and the tag.
#[derive(Clone, Copy, Debug, PartialEq, Eq)]
pub enum Cell<G> {
    // no path from there
    Unknown,
    // the best grade of a path from there, which ends there
    Ends(G),
    // the best grade of a path from there, and the place of the row that it begins with
    By(G, usize),
}

impl<G: Grade> Cell<G> {
    // The grade that is known, if any.
    pub(crate) fn grade(&self) -> Option<G>
        ensures { result ≡ grade_of (known self.now) }
    {
        match *self {
            Cell::Unknown => None,
            Cell::Ends(grade) | Cell::By(grade, _) => Some(grade),
        }
    }
}
