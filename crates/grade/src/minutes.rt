// The grade that adds minutes: fewer are better.
ghost use Rattle.std.specs.Prelude.{◌≤◌};

use crate::grade::Grade;
use crate::order::TotalOrder;
use crate::toll::Toll;

// Minutes in all, which stop at 1,000,000.
#[derive(Clone, Copy, Debug, PartialEq, Eq, PartialOrd, Ord)]
pub struct Minutes {
    pub value: u32,
    ghost capped: { value ≤ 1000000 },
}

impl TotalOrder for Minutes {
    ghost use Rattle.grade.specs.Grades.{fewer_minutes};
    ghost use Rattle.grade.specs.ValuesLemmas.{same_minutes};
    ghost use Rattle.std.proofs.Common.{rules};

    ghost before = { fewer_minutes };

    ghost total = { Prim.search rules };

    ghost transitive = { Prim.search rules };

    ghost antisymmetric = { λ a b p q. same_minutes a b (Prim.search rules) };

    fn no_worse(&self, other: &Minutes) -> bool {
        self <= other
    }
}

impl Grade for Minutes {
    ghost use Rattle.grade.specs.Grades.{no_minutes, toll_minutes, add_minutes, fewer_minutes};
    ghost use Rattle.grade.specs.ValuesLemmas.{same_minutes};
    ghost use Rattle.std.proofs.Common.{rules, arith};

    const BEST: Self = Minutes { value: 0 };

    ghost best = { no_minutes };

    ghost priced = { toll_minutes };

    ghost join = { add_minutes };

    ghost noworse = { fewer_minutes };

    ghost assoc = { λ a b c. same_minutes _ _ (omega arith) };

    ghost unitl = { λ a. same_minutes _ _ (omega arith) };

    ghost unitr = { λ a. same_minutes _ _ (omega arith) };

    ghost monol = { Prim.search rules };

    ghost monor = { Prim.search rules };

    ghost growsl = { Prim.search rules };

    ghost growsr = { Prim.search rules };

    fn best_grade() -> Self {
        Self::BEST
    }

    fn of_toll(toll: Toll) -> Self {
        Minutes {
            value: u32::from(toll.minutes.value),
        }
    }

    fn joined(self, next: Self) -> Self {
        Minutes {
            value: (self.value + next.value).min(1_000_000),
        }
    }

    fn agrees() {}
}

impl From<Minutes> for u32 {
    ghost use Rattle.std.specs.Prelude.{◌≡◌};

    ghost from_gives = { λ x y. y ≡ x.value };

    fn from(grade: Minutes) -> u32 {
        grade.value
    }
}
