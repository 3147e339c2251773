// Rows of a table that is kept in their order.
ghost use Rattle.std.specs.Prelude.{◌≡◌, ℕ, ◌+◌, ◌<◌, length, take, drop};
ghost use Rattle.book.specs.Order.{Ascending, Ranks, put};

// Puts x at its place among the first n rows, which are in order; those behind it move up by one. The count is beside the rows, as in
// a book: there is no heap.
pub(crate) fn place<T: Ord + Copy>(rows: &mut [T], n: usize, x: T)
    requires { n < length rows.old }
    ensures used { (rank : T → ℕ) → Ranks T.cmp rank → Ascending rank (take n rows.old) → take (n + 1) rows.new ≡ put rank x (take n rows.old) }
    ensures rest { drop (n + 1) rows.new ≡ drop (n + 1) rows.old }
{
    let p = rows[..n].partition_point(|row| *row < x);
    rows[n] = x;
    rows[p..=n].rotate_right(1);
}
