// What is refused for want of places, and what is not.
use crate::examples::{BEFORE, YARD};
use crate::finder::{Finder, Places, counts, read};
use grade::class::Class;
use grade::grade::Grade;
use grade::minutes::Minutes;
use paths::refusal::PathRefusal;
use phases::position::Position;
use saturation::refusal::SaturationRefusal;
use std::alloc::Global;
use std::process::Abort;
use std::test::*;

// Whether so many rows and so many waiting places are enough for the two phases and six rows of the yard.
fn six_rows<G: Grade>(
    rt: &impl Abort,
    heap: Global,
    table: usize,
    waiting: usize,
) -> Result<bool, Fail> {
    let book = read(YARD)?;
    match counts::<G>(heap, &book, table, waiting)? {
        Ok(found) => {
            assert_eq!(rt; found, (2, 6));
            Ok(true)
        }
        Err(SaturationRefusal::TooManyRows) => Ok(false),
        Err(SaturationRefusal::Phases(_)) => Err(Fail::new("its phases are refused")),
    }
}

#[test]
fn rows_of_the_yard(rt: HostRuntime) -> Result<(), Fail> {
    let cases = [
        (6, 6, true),
        (5, 6, false),
        (6, 5, false),
        (100, 7, true),
        (0, 0, false),
    ];
    for (table, waiting, enough) in cases {
        assert_eq!(rt;
            six_rows::<Minutes>(&rt, rt.alloc(), table, waiting)?,
            enough
        );
        assert_eq!(rt; six_rows::<Class>(&rt, rt.alloc(), table, waiting)?, enough);
    }
    Ok(())
}

const LANE: Position = Position {
    mode: 0,
    phase: BEFORE,
    lane: &[1],
};

// With so many places a path is laid out, 0, or refused with this number.
#[test]
fn scratch_and_list(rt: HostRuntime) -> Result<(), Fail> {
    let finder = Finder::<Minutes>::new(rt.alloc(), YARD)?;
    // the number of the refusal, 0 where there is none
    let cases = [(192, 7, 0), (192, 6, 12), (191, 7, 11), (191, 6, 11)];
    for (scratch, list, number) in cases {
        match finder.follow(rt.alloc(), LANE, Places { scratch, list })? {
            Ok(_) => assert_eq!(rt; 0, number),
            Err(PathRefusal::ScratchShort) => assert_eq!(rt; 11, number),
            Err(PathRefusal::ListShort) => assert_eq!(rt; 12, number),
            Err(_) => return Err(Fail::new("refused")),
        }
        match finder.ask(rt.alloc(), LANE, scratch)? {
            Ok(_) => assert_ne!(rt; 11, number),
            Err(PathRefusal::ScratchShort) => assert_eq!(rt; 11, number),
            Err(_) => return Err(Fail::new("refused")),
        }
    }
    Ok(())
}

#[test]
fn lanes_and_limits(rt: HostRuntime) -> Result<(), Fail> {
    let finder = Finder::<Minutes>::new(rt.alloc(), YARD)?;
    let long = [1u8; 33];
    let heavy = [32u8];
    let cases: [(u8, &[u8], bool); 5] = [
        (0, &long[0..33], true),
        (0, &long[0..32], false),
        (16, &long[0..1], true),
        (15, &long[0..1], false),
        (0, &heavy[0..1], true),
    ];
    for (mode, lane, too_large) in cases {
        let ask = Position {
            mode,
            phase: BEFORE,
            lane,
        };
        match finder.ask(rt.alloc(), ask, 33 * 96)? {
            Err(PathRefusal::TooLarge) => assert!(rt; too_large),
            Err(PathRefusal::NoWay) => assert!(rt; !too_large),
            _ => return Err(Fail::new("neither too large nor without a way")),
        }
    }
    Ok(())
}
