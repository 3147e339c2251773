// Examples with their answers.
use crate::finder::{AMPLE, Finder};
use grade::class::Class;
use grade::minutes::Minutes;
use paths::refusal::PathRefusal;
use phases::position::Position;
use std::alloc::Global;
use std::test::*;
use unfolding::stage::Stage;

// The worked yard. It opens the phases of the numbers 0 1 2 and of 1 2 3.
pub const YARD: &str =
    "(order 0 (0 1) (0 2 1) (3 0))\n(order 1 (0 2) (1) (2 1))\n(notice 2 1 0 (0 3) (5 0))\n(order 3 (0 1) (2) (1 4))\n(open 0 1 2)\n(bare 2)";

pub const BEFORE: u64 = 0b0111;

pub const AFTER: u64 = 0b1110;

// Twelve orders, each with the wagon before it set down twice: 4,095 moves work the last one off.
const DOUBLING: &str =
    "(order 0 (0 0) (0) (0 0))\n(order 1 (0 1) (0 0 0) (0 0))\n(order 2 (0 2) (0 1 1) (0 0))\n(order 3 (0 3) (0 2 2) (0 0))\n(order 4 (0 4) (0 3 3) (0 0))\n(order 5 (0 5) (0 4 4) (0 0))\n(order 6 (0 6) (0 5 5) (0 0))\n(order 7 (0 7) (0 6 6) (0 0))\n(order 8 (0 8) (0 7 7) (0 0))\n(order 9 (0 9) (0 8 8) (0 0))\n(order 10 (0 10) (0 9 9) (0 0))\n(order 11 (0 11) (0 10 10) (1 0))\n(open 0 1 2 3 4 5 6 7 8 9 10 11)\n(bare 0)";

fn none_without_way(refusal: PathRefusal) -> Result<Option<u32>, Fail> {
    match refusal {
        PathRefusal::NoWay => Ok(None),
        _ => Err(Fail::new("refused")),
    }
}

// The minutes of the best way, if there is one.
fn minutes(heap: Global, finder: &Finder<Minutes>, ask: Position) -> Result<Option<u32>, Fail> {
    match finder.ask(heap, ask, AMPLE.scratch)? {
        Ok(grade) => Ok(Some(grade.value)),
        Err(refusal) => none_without_way(refusal),
    }
}

#[test]
fn best_grades(rt: HostRuntime) -> Result<(), Fail> {
    let finder = Finder::<Minutes>::new(rt.alloc(), YARD)?;
    let lane = [2u8, 1, 1];
    // mode, phase, lane, and the minutes, if there is a way
    let cases: [(u8, u64, &[u8], Option<u32>); 6] = [
        (0, BEFORE, &lane[1..2], Some(11)),
        (0, BEFORE, &lane[0..2], Some(8)),
        (0, BEFORE, &lane[1..3], None),
        (2, BEFORE, &lane[0..0], Some(0)),
        (1, BEFORE, &lane[0..0], None),
        (0, AFTER, &lane[1..2], Some(1)),
    ];
    for (mode, phase, lane, expected) in cases {
        assert_eq!(rt;
            minutes(rt.alloc(), &finder, Position { mode, phase, lane })?,
            expected
        );
    }
    Ok(())
}

#[test]
fn best_class(rt: HostRuntime) -> Result<(), Fail> {
    let finder = Finder::<Class>::new(rt.alloc(), YARD)?;
    let ask = Position {
        mode: 0,
        phase: BEFORE,
        lane: &[1],
    };
    match finder.ask(rt.alloc(), ask, AMPLE.scratch)? {
        Ok(grade) => {
            assert_eq!(rt; grade.class.value, 4);
            Ok(())
        },
        Err(_) => Err(Fail::new("no class")),
    }
}

// What each move of the best run from mode 0 with lane 1 leads to: number, mode, phase and length of the lane.
const MOVES: [(u8, u8, u64, usize); 4] = [
    (0, 0, BEFORE, 2),
    (1, 1, BEFORE, 1),
    (2, 0, AFTER, 1),
    (3, 2, AFTER, 0),
];

#[test]
fn moves_of_the_yard(rt: HostRuntime) -> Result<(), Fail> {
    let finder = Finder::<Minutes>::new(rt.alloc(), YARD)?;
    let ask = Position {
        mode: 0,
        phase: BEFORE,
        lane: &[1],
    };
    let Ok(laid) = finder.follow(rt.alloc(), ask, AMPLE)? else {
        return Err(Fail::new("no path"));
    };
    let (grade, mut list) = laid;
    assert_eq!(rt; grade.value, 11);
    let mut stage = Stage {
        mode: 0,
        phase: BEFORE,
        length: 1,
    };
    for expected in MOVES {
        let Ok(Some(shown)) = finder.next(&mut list, stage) else {
            return Err(Fail::new("no move"));
        };
        stage = shown.after;
        assert_eq!(rt;
            (shown.number, stage.mode, stage.phase, stage.length),
            expected
        );
    }
    assert!(rt; matches!(finder.next(&mut list, stage), Ok(None)));
    assert!(rt; matches!(finder.next(&mut list, stage), Ok(None)));
    Ok(())
}

#[test]
fn nothing_to_do(rt: HostRuntime) -> Result<(), Fail> {
    let finder = Finder::<Minutes>::new(rt.alloc(), YARD)?;
    let ask = Position {
        mode: 2,
        phase: BEFORE,
        lane: &[],
    };
    let Ok(laid) = finder.follow(rt.alloc(), ask, AMPLE)? else {
        return Err(Fail::new("no path"));
    };
    let (grade, mut list) = laid;
    assert_eq!(rt; grade.value, 0);
    let stage = Stage {
        mode: 2,
        phase: BEFORE,
        length: 0,
    };
    assert!(rt; matches!(finder.next(&mut list, stage), Ok(None)));
    Ok(())
}

// How many moves are shown until none is left, at most `limit`, and the number of the last.
fn moves_shown(
    finder: &Finder<Minutes>,
    list: &mut Vec<usize>,
    start: Stage,
    limit: usize,
) -> (usize, u8) {
    let mut stage = start;
    let mut last = 0;
    for shown_before in 0..limit {
        match finder.next(list, stage) {
            Ok(Some(shown)) => {
                stage = shown.after;
                last = shown.number;
            }
            _ => return (shown_before, last),
        }
    }
    (limit, last)
}

#[test]
fn a_long_run_out_of_few_rows(rt: HostRuntime) -> Result<(), Fail> {
    let finder = Finder::<Minutes>::new(rt.alloc(), DOUBLING)?;
    assert_eq!(rt; finder.count, 12);
    let ask = Position {
        mode: 0,
        phase: 0xfff,
        lane: &[11],
    };
    let Ok(laid) = finder.follow(rt.alloc(), ask, AMPLE)? else {
        return Err(Fail::new("no path"));
    };
    let (grade, mut list) = laid;
    assert_eq!(rt; grade.value, 1);
    let start = Stage {
        mode: 0,
        phase: 0xfff,
        length: 1,
    };
    assert_eq!(rt; moves_shown(&finder, &mut list, start, 5000), (4095, 0));
    Ok(())
}
