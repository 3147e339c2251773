// The grade that keeps the largest class: a lower class is better.
ghost use Rattle.std.specs.Prelude.{◌≡◌};
ghost use Rattle.grade.specs.Grades.{no_class, toll_class, larger_class, lower_class};
ghost use Rattle.std.proofs.Common.{rules, arith};
ghost use Rattle.grade.specs.ValuesLemmas.{same_class};

use crate::grade::Grade;
use crate::order::TotalOrder;
use crate::toll::Toll;
use crate::upto::UpTo;

#[derive(Clone, Copy, Debug, PartialEq, Eq, PartialOrd, Ord)]
pub struct Class {
    pub class: UpTo<9>,
}

impl TotalOrder for Class {
    ghost before = { lower_class };

    ghost total = { Prim.search rules };

    ghost transitive = { Prim.search rules };

    ghost antisymmetric = { λ a b p q. same_class a b (Prim.search rules) };

    fn no_worse(&self, other: &Class) -> bool {
        self <= other
    }
}

#[tactic(auto, using(crate::specs::ValuesLemmas::same_class))]
impl Grade for Class {
    const BEST: Self = Class {
        class: UpTo { value: 0 },
    };

    ghost best = { no_class };

    ghost priced = { toll_class };

    ghost join = { larger_class };

    ghost noworse = { lower_class };

    ghost assoc = { λ a b c. same_class _ _ (omega arith) };

    ghost unitl = { λ a. same_class _ _ (omega arith) };

    ghost unitr = { λ a. same_class _ _ (omega arith) };

    ghost monol = { Prim.search rules };

    ghost monor = { Prim.search rules };

    ghost growsl = { Prim.search rules };

    ghost growsr = { Prim.search rules };

    fn best_grade() -> Self {
        Self::BEST
    }

    fn of_toll(toll: Toll) -> Self {
        Class { class: toll.class }
    }

    fn joined(self, next: Self) -> Self {
        self.max(next)
    }

    fn agrees() {}
}

impl From<Class> for u32 {
    ghost from_gives = { λ x y. y ≡ x.class.value };

    fn from(grade: Class) -> u32 {
        u32::from(grade.class.value)
    }
}
