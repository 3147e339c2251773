// A row that waits, with the grade it would have: the better grade goes first, and of equal grades
// the smaller row number.
ghost use Rattle.grade.specs.Waits.{sooner};
ghost use Rattle.std.proofs.Common.{rules};

use crate::grade::Grade;
use crate::order::TotalOrder;

#[derive(Clone, Copy, Debug, PartialEq, Eq)]
pub struct Waiting<G> {
    pub grade: G,
    pub row: usize,
}

// Written out: a derive would ask for an `Ord` of the grade, which has an order of its own.
impl<G: Grade> TotalOrder for Waiting<G> {
    ghost before = { sooner G.TotalOrder.before };

    ghost total = { Prim.search rules };

    ghost transitive = { Prim.search rules };

    ghost antisymmetric = { Prim.search rules };

    fn no_worse(&self, other: &Waiting<G>) -> bool {
        self.grade.no_worse(&other.grade)
            && (!other.grade.no_worse(&self.grade) || self.row <= other.row)
    }
}
