// An order: which of two entries is no worse. Entries can be copied, so that they can change
// places in a lent table. It stands beside std's `Ord`, which would ask more of an entry's type: an
// `==` and two comparisons. And what `Ord` calls equal may differ, where here it is the same.
ghost use Rattle.std.specs.Prelude.{◌≡◌, Bool, nat_le};
ghost use Rattle.grade.specs.Laws.{Total, Transitive, Antisymmetric};
ghost use Rattle.std.proofs.Common.{rules};

pub trait TotalOrder: Copy {
    // Whether a is no worse than b, and so may stand before it.
    ghost before: { Self → Self → Bool };

    fn no_worse(&self, other: &Self) -> bool
        ensures { result ≡ before self.now other.now };

    ghost total: { Total before };

    ghost transitive: { Transitive before };

    ghost antisymmetric: { Antisymmetric before };
}

// Numbers, of which less is better.
impl TotalOrder for u32 {
    ghost before = { nat_le };

    ghost total = { Prim.search rules };

    ghost transitive = { Prim.search rules };

    ghost antisymmetric = { Prim.search rules };

    fn no_worse(&self, other: &u32) -> bool {
        self <= other
    }
}
