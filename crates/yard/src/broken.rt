// Tables that no working out has filled, and lists that nothing was laid out on.
use crate::examples::{BEFORE, YARD};
use crate::finder::{AMPLE, Finder, read};
use grade::minutes::Minutes;
use paths::refusal::PathRefusal;
use phases::position::Position;
use rowtable::blank::blank_row;
use rowtable::row::{Reason, TableRow, TableState};
use std::test::*;
use unfolding::stage::{Stage, UnfoldRefusal};
use unfolding::unfold::unfold;

const LANE: Position = Position {
    mode: 0,
    phase: BEFORE,
    lane: &[1],
};

const START: Stage = Stage {
    mode: 0,
    phase: BEFORE,
    length: 1,
};

// The worked yard with each row changed.
fn changed<F: Fn(TableRow<Minutes>) -> TableRow<Minutes>>(
    rt: &HostRuntime,
    change: F,
) -> Result<Finder<Minutes>, Fail>
    requires { F.IsAlwaysCallable change }
{
    let mut finder = Finder::<Minutes>::new(rt.alloc(), YARD)?;
    for row in finder.rows.as_mut_slice() {
        *row = change(*row);
    }
    Ok(finder)
}

#[test]
fn states_that_do_not_exist(rt: HostRuntime) -> Result<(), Fail> {
    for state in [
        TableState::Node(64),
        TableState::Head(16, 0),
        TableState::Head(0, 2),
    ] {
        let finder = changed(&rt, |row| TableRow { to: state, ..row })?;
        assert!(rt;
            matches!(
                finder.ask(rt.alloc(), LANE, AMPLE.scratch)?,
                Err(PathRefusal::BrokenRow)
            )
        );
        assert!(rt;
            matches!(
                finder.follow(rt.alloc(), LANE, AMPLE)?,
                Err(PathRefusal::BrokenRow)
            )
        );
    }
    Ok(())
}

// Whether unfolding the row at place 0 is refused.
fn refused(finder: &Finder<Minutes>, rt: &HostRuntime) -> Result<bool, Fail> {
    let mut list = vec![in rt.alloc(); 0usize; 8]?;
    Ok(matches!(finder.next(&mut list, START), Err(UnfoldRefusal::BrokenRow)))
}

#[test]
fn reasons_that_name_nothing(rt: HostRuntime) -> Result<(), Fail> {
    let reasons = [
        Reason::Order(64, 0, 0),
        Reason::Order(9, 0, 0),
        Reason::Order(2, 0, 0),
        Reason::Notice(1, 0),
        Reason::Notice(255, 0),
        Reason::Order(0, 6, 1),
        Reason::Order(0, 1, usize::MAX),
    ];
    for reason in reasons {
        let finder = changed(&rt, |row| TableRow { reason, ..row })?;
        assert!(rt; refused(&finder, &rt)?);
    }
    Ok(())
}

#[test]
fn reasons_in_a_circle(rt: HostRuntime) -> Result<(), Fail> {
    let finder = changed(
        &rt,
        |row| TableRow {
            reason: Reason::Order(0, 0, 0),
            ..row
        },
    )?;
    for _ in 0..20 {
        assert!(rt; refused(&finder, &rt)?);
    }
    Ok(())
}

// A row with this reason and rank; where it leads is not read when it is unfolded.
fn row(rank: usize, reason: Reason) -> TableRow<Minutes> {
    let mut row = blank_row::<Minutes>();
    row.rank = rank;
    row.reason = reason;
    row
}

#[test]
fn reasons_that_name_other_rows(rt: HostRuntime) -> Result<(), Fail> {
    let book = read(YARD)?;
    let rows = [
        row(2, Reason::Order(0, 1, 2)),
        row(0, Reason::Order(1, 0, 0)),
        row(1, Reason::Order(3, 0, 0)),
    ];
    let mut list = [0usize; 3];
    let Ok(Some(first)) = unfold(&book, &rows, 3, &mut list, START) else {
        return Err(Fail::new("no first move"));
    };
    assert_eq!(rt;
        (first.number, first.after.mode, first.after.length),
        (0, 0, 2)
    );
    let Ok(Some(second)) = unfold(&book, &rows, 3, &mut list, first.after) else {
        return Err(Fail::new("no second move"));
    };
    assert_eq!(rt;
        (second.number, second.after.mode, second.after.length),
        (1, 1, 1)
    );
    // order 3 is not in force here
    let third = unfold(&book, &rows, 3, &mut list, second.after);
    assert!(rt; matches!(third, Err(UnfoldRefusal::BrokenRow)));
    // and there are not four rows
    let none = unfold(&book, &rows, 4, &mut list, second.after);
    assert!(rt; matches!(none, Err(UnfoldRefusal::BrokenRow)));
    Ok(())
}

#[test]
fn lists_too_short(rt: HostRuntime) -> Result<(), Fail> {
    let finder = Finder::<Minutes>::new(rt.alloc(), YARD)?;
    let mut list = vec![in rt.alloc(); 0usize; 2]?;
    let stage = Stage {
        mode: 0,
        phase: BEFORE,
        length: 3,
    };
    assert!(rt; matches!(finder.next(&mut list, stage), Err(UnfoldRefusal::BrokenRow)));
    let Ok(laid) = finder.follow(rt.alloc(), LANE, AMPLE)? else {
        return Err(Fail::new("no path"));
    };
    let (_, long) = laid;
    let mut short = vec![in rt.alloc(); long.as_slice().first().copied().unwrap_or(0); 1]?;
    assert!(rt;
        matches!(
            finder.next(&mut short, START),
            Err(UnfoldRefusal::BrokenRow)
        )
    );
    Ok(())
}
