// A priority queue in the first `count` places of a lent slice, for every kind of entry that has an
// order. It is a binary heap: `put`, `take` and `replace` go along one way from the top to the bottom
// or back, so they take logarithmic time; `find` looks at all entries. A slice that is no queue is
// refused with nothing changed, or the contract says what comes of it all the same.
// The places are lent, with how many are in use: what uses the queue has fixed memory and no heap.

#![tactic(auto)]

ghost use Rattle.std.specs.Prelude.{◌≡◌, ◌+◌, ◌<◌, ◌≤◌, ◌⊎◌, length, Decides, MatchOption};
ghost use Rattle.queue.specs.Queues.{Holds, StandsAt, MayReplace, Put, Taken, Replaced};

mod heap;

use grade::order::TotalOrder;

// Puts `entry` into the queue and answers the new count; None where no place is left.
pub fn put<E: TotalOrder>(queue: &mut [E], count: usize, entry: E) -> Option<usize>
    ensures { MatchOption result ((length queue.old ≤ count) × (queue.new ≡ queue.old)) (λ n. (n ≡ count + 1) × Put E.before queue.old queue.new count entry) }
{
    if count >= queue.len() {
        return None;
    }
    queue[count] = entry;
    heap::sift_up(queue, count);
    Some(count + 1)
}

// Takes the best entry out of the queue, which is one shorter then, and leaves a copy in the place
// that falls free; None where the queue is empty, or there are fewer places than `count`.
pub fn take<E: TotalOrder>(queue: &mut [E], count: usize) -> Option<E>
    ensures { MatchOption result (((count ≡ 0) ⊎ (length queue.old < count)) × (queue.new ≡ queue.old)) (λ best. Taken E.before queue.old queue.new count best) }
{
    if count == 0 || count > queue.len() {
        return None;
    }
    let best = queue[0];
    queue.swap(0, count - 1);
    heap::sift_down(queue, count - 1);
    Some(best)
}

// Whether two entries are the same: each is no worse than the other. Their order tells it, so no
// `==` is asked of them.
fn same<E: TotalOrder>(a: &E, b: &E) -> bool
    ensures { Decides result (a.now ≡ b.now) }
{
    a.no_worse(b) && b.no_worse(a)
}

// A place of this entry in the queue; which one is free, if it is there more than once. None where
// it is not in the queue.
pub fn find<E: TotalOrder>(queue: &[E], count: usize, wanted: &E) -> Option<usize>
    ensures { MatchOption result (Holds queue.now count wanted.now → ⊥) (λ place. StandsAt queue.now count place wanted.now) }
{
    queue
        .iter()
        .take(count)
        .position(|entry| same(entry, wanted))
}

// Puts `entry` into the queue for the one at `place`, which it answers; None where nothing of the
// queue stands there, or where `entry` is worse.
pub fn replace<E: TotalOrder>(queue: &mut [E], count: usize, place: usize, entry: E) -> Option<E>
    ensures { MatchOption result ((MayReplace E.before queue.old count place entry → ⊥) × (queue.new ≡ queue.old)) (λ old. StandsAt queue.old count place old × Replaced E.before queue.old queue.new count old entry) }
{
    if count > queue.len() || place >= count {
        return None;
    }
    let old = queue[place];
    if !entry.no_worse(&old) {
        return None;
    }
    queue[place] = entry;
    heap::sift_up(queue, place);
    Some(old)
}
