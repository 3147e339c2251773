// Small tables of calls of the queue and of joins, with the answers worked out by hand.
ghost use Rattle.std.specs.Prelude.{◌≤◌};

use crate::run_grade;
use grade::class::Class;
use grade::grade::Grade;
use grade::minutes::Minutes;
use grade::order::TotalOrder;
use grade::toll::Toll;
use grade::upto::UpTo;
use grade::waiting::Waiting;
use std::process::Abort;

// A call of the queue, as data, so that a table can list calls with what they should answer.
#[derive(Clone, Copy)]
enum Call<E> {
    Put(E),
    Take,
    // the second for the first
    Replace(E, E),
}

// Makes the call; answers the count after it, and the entry that went out of the queue.
fn make<E: TotalOrder>(places: &mut [E], count: usize, call: Call<E>) -> (usize, Option<E>) {
    match call {
        Call::Put(entry) => (queue::put(places, count, entry).unwrap_or(count), None),
        Call::Take => match queue::take(places, count) {
            Some(best) => (count - 1, Some(best)),
            None => (count, None),
        },
        Call::Replace(old, new) => {
            let place = queue::find(places, count, &old);
            (
                count,
                place.and_then(|place| queue::replace(places, count, place, new)),
            )
        },
    }
}

// Makes the calls one after another; answers the count after them.
fn play<E: TotalOrder>(places: &mut [E], calls: &[Call<E>]) -> usize {
    let mut count = 0;
    for call in calls {
        count = make(places, count, *call).0;
    }
    count
}

fn number_calls(rt: &impl Abort, places: &mut [u32], table: &[(Call<u32>, usize, Option<u32>)]) {
    let mut count = 0;
    for (call, left, expected) in table {
        let (after, out) = make(places, count, *call);
        assert_eq!(rt; after, *left);
        assert_eq!(rt; out, *expected);
        count = after;
    }
}

#[test]
fn numbers_come_out_best_first(rt: HostRuntime) {
    let table = [
        (Call::Put(7), 1, None),
        (Call::Put(3), 2, None),
        (Call::Put(9), 3, None),
        (Call::Put(3), 4, None),
        (Call::Put(1), 4, None),
        (Call::Replace(9, 2), 4, Some(9)),
        (Call::Replace(7, 8), 4, None),
        (Call::Replace(6, 1), 4, None),
        (Call::Take, 3, Some(2)),
        (Call::Take, 2, Some(3)),
        (Call::Put(5), 3, None),
        (Call::Take, 2, Some(3)),
        (Call::Take, 1, Some(5)),
        (Call::Take, 0, Some(7)),
        (Call::Take, 0, None),
    ];
    let mut places = [0u32; 4];
    number_calls(&rt, &mut places, &table);
}

fn minutes(value: u32, row: usize) -> Waiting<Minutes>
    requires { value ≤ 1000000 }
{
    Waiting {
        grade: Minutes { value },
        row,
    }
}

// An entry that is taken stays in the place that falls free, so the last place has the first.
#[test]
fn rows_come_out_by_minutes_and_then_number(rt: HostRuntime) {
    let calls = [
        Call::Put(minutes(9, 4)),
        Call::Put(minutes(5, 6)),
        Call::Put(minutes(5, 5)),
        Call::Replace(minutes(9, 4), minutes(3, 4)),
        Call::Take,
        Call::Take,
        Call::Take,
    ];
    let mut places = [minutes(0, 0); 3];
    assert_eq!(rt; play(&mut places, &calls), 0);
    assert_eq!(rt; [places[2].row, places[1].row, places[0].row], [4, 5, 6]);
}

fn class(value: u16, row: usize) -> Waiting<Class>
    requires { value ≤ 9 }
{
    Waiting {
        grade: Class {
            class: UpTo { value },
        },
        row,
    }
}

#[test]
fn rows_come_out_by_class_and_then_number(rt: HostRuntime) {
    let calls = [
        Call::Put(class(4, 1)),
        Call::Put(class(2, 8)),
        Call::Put(class(4, 0)),
        Call::Replace(class(4, 1), class(4, 2)),
        Call::Take,
        Call::Take,
        Call::Take,
    ];
    let mut places = [class(0, 0); 3];
    assert_eq!(rt; play(&mut places, &calls), 0);
    assert_eq!(rt; [places[2].row, places[1].row, places[0].row], [8, 0, 1]);
}

fn toll(minutes: u16, class: u16) -> Toll
    requires { (minutes ≤ 9999) × (class ≤ 9) }
{
    Toll {
        minutes: UpTo { value: minutes },
        class: UpTo { value: class },
    }
}

#[test]
fn tolls_are_joined_into_the_grade_of_a_run(rt: HostRuntime) {
    let tolls = [toll(3, 0), toll(2, 1), toll(5, 0), toll(1, 4)];
    let all: Minutes = run_grade(&tolls);
    assert_eq!(rt; all.value, 11);
    let largest: Class = run_grade(&tolls);
    assert_eq!(rt; largest.class.value, 4);
    let capped = Minutes { value: 999_999 }
        .joined(Minutes { value: 1 })
        .joined(Minutes { value: 9_999 });
    assert_eq!(rt; capped.value, 1_000_000);
}
