// A grade: what a run is worth. It is an order with more to it: a best grade, a grade for every
// toll, and a join, which puts the grades of one part of a run and of the next together.
ghost use Rattle.std.specs.Prelude.{◌≡◌, Bool};
ghost use Rattle.grade.specs.Laws.{Associative, UnitLeft, UnitRight, KeptLeft, KeptRight, FirstNoWorse, SecondNoWorse};
ghost use Rattle.grade.specs.declared.toll.Toll.{Toll};

use crate::order::TotalOrder;
use crate::toll::Toll;

pub trait Grade: TotalOrder {
    const BEST: Self;

    // The constant, under a name that laws and contracts can use.
    ghost best: { Self };

    ghost priced: { Toll → Self };

    ghost join: { Self → Self → Self };

    // Whether a is no worse than b, as the grade itself has it.
    ghost noworse: { Self → Self → Bool };

    // The constant.
    fn best_grade() -> Self
        ensures { result ≡ best };

    fn of_toll(toll: Toll) -> Self
        ensures { result ≡ priced toll };

    fn joined(self, next: Self) -> Self
        ensures { result ≡ join self next };

    // The order's relation is the grade's own.
    fn agrees()
        ensures { (a b : Self) → Self.TotalOrder.before a b ≡ noworse a b };

    // The laws. Each impl shows its own: a default would have to hold of every grade at once.
    ghost assoc: { Associative join };

    ghost unitl: { UnitLeft join best };

    ghost unitr: { UnitRight join best };

    ghost monol: { KeptLeft noworse join };

    ghost monor: { KeptRight noworse join };

    ghost growsl: { FirstNoWorse noworse join };

    ghost growsr: { SecondNoWorse noworse join };
}
