// The heap: below the entry at place p stand those at places 2p + 1 and 2p + 2, and no entry is
// better than the one above it. Where n stands beside the places, it counts those of the heap: `take` leaves a copy behind them.
ghost use Rattle.std.specs.Prelude.{◌≡◌, ℕ, ◌+◌, ◌*◌, ◌<◌, ◌≤◌, length};
ghost use Rattle.queue.specs.Heaps.{at, Heap, HeapBelow, BestChild, Rising, Reordered};

use grade::order::TotalOrder;

fn no_worse_at<E: TotalOrder>(places: &[E], i: usize, j: usize) -> bool
    requires { (i < length places.now) × (j < length places.now) }
    ensures { (d : E) → result ≡ E.before (at places.now d i) (at places.now d j) }
{
    places[i].no_worse(&places[j])
}

// The place of the better entry below p, among the first n.
fn best_child<E: TotalOrder>(places: &[E], p: usize, n: usize) -> usize
    requires { (p * 2 + 1 < n) × (n ≤ length places.now) }
    ensures bound { (p * 2 + 1 ≤ result) × (result ≤ p * 2 + 2) × (result < n) }
    ensures best { (d : E) → BestChild E.before (at places.now d) p result n }
{
    let left = p * 2 + 1;
    if left + 1 == n {
        return left;
    }
    if no_worse_at(places, left, left + 1) {
        left
    } else {
        left + 1
    }
}

// Moves the first entry down past its better children, among the first n.
pub(crate) fn sift_down<E: TotalOrder>(places: &mut [E], n: usize)
    requires { n ≤ length places.old }
    ensures reordered { Reordered places.old places.new n }
    ensures heap { (d : E) → HeapBelow E.before (at places.old d) 1 n → Heap E.before (at places.new d) n }
{
    let mut p = 0;
    // no `for`: the next place is that of a child
    while p < n / 2 {
        let child = best_child(places, p, n);
        if no_worse_at(places, p, child) {
            return;
        }
        places.swap(p, child);
        p = child;
    }
}

// Moves the entry at `start` up past its worse parents.
pub(crate) fn sift_up<E: TotalOrder>(places: &mut [E], start: usize)
    requires { start < length places.old }
    ensures reordered { (n : ℕ) → start < n → n ≤ length places.old → Reordered places.old places.new n }
    ensures heap { (n : ℕ) (d : E) → start < n → Rising E.before (at places.old d) start n → Heap E.before (at places.new d) n }
{
    let mut k = start;
    // no `for`: the next place is that of the parent
    while 0 < k {
        let parent = (k - 1) / 2;
        if no_worse_at(places, parent, k) {
            return;
        }
        places.swap(parent, k);
        k = parent;
    }
}
