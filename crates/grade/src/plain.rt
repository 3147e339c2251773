// The grade that tells no run from another: it has one value.
ghost use Rattle.std.specs.Prelude.{true};
ghost use Rattle.std.proofs.Common.{rules};

use crate::grade::Grade;
use crate::order::TotalOrder;
use crate::toll::Toll;

#[derive(Clone, Copy, Debug, PartialEq, Eq, PartialOrd, Ord)]
pub struct Plain;

impl TotalOrder for Plain {
    ghost before = { λ _ _. true };

    ghost total = { Prim.search rules };

    ghost transitive = { Prim.search rules };

    ghost antisymmetric = { Prim.search rules };

    fn no_worse(&self, _other: &Plain) -> bool {
        true
    }
}

impl Grade for Plain {
    const BEST: Self = Plain;

    ghost best = { record {} };

    ghost priced = { λ _. record {} };

    ghost join = { λ _ _. record {} };

    ghost noworse = { λ _ _. true };

    ghost assoc = { Prim.search rules };

    ghost unitl = { Prim.search rules };

    ghost unitr = { Prim.search rules };

    ghost monol = { Prim.search rules };

    ghost monor = { Prim.search rules };

    ghost growsl = { Prim.search rules };

    ghost growsr = { Prim.search rules };

    fn best_grade() -> Self {
        Self::BEST
    }

    fn of_toll(_toll: Toll) -> Self {
        Plain
    }

    fn joined(self, _next: Self) -> Self {
        Plain
    }

    fn agrees() {}
}
