// Every limit at the extremes of its numbers.
use super::flat::Flat;
use grade::{Cell, Class, Grade, Speed, from_rank};
use limit::{Limit, Pair};
use motion::{Ramp, Row, Step};
use slices::{RowSlice, StepSlice, are_sound, speed_allowed};
use std::test::Fail;

const M: u32 = Speed::TOP;

const SIZE: i32 = 16777216;

// A cell between 0 and the top.
fn cell<G: Grade>(value: u32) -> Result<Cell<G>, Fail> {
    Ok(Cell {
        value: from_rank(value).ok_or("no grade has this rank")?,
        cap: G::of_rank(G::highest()),
        floor: G::of_rank(0),
    })
}

// The number of an answer.
fn number<G: Grade>(answer: Option<G>) -> i64 {
    answer.map_or(-1, |grade| grade.rank() as i64)
}

// What a row allows after and before its gap, where the neighbour is at `near`.
fn beside(h: u16, row: Row, near: u32) -> Result<(i64, i64), Fail> {
    let rows = [row];
    if !are_sound(h, &rows) {
        return Err(Fail::new("the row is not sound"));
    }
    let source = RowSlice { h, rows: &rows };
    let cells = [cell(near)?, cell(near)?];
    let after = speed_allowed(&[], &[], source, &cells, 1);
    let before = speed_allowed(&[], &[], source, &cells, 0);
    Ok((number(after), number(before)))
}

// A row at gap 0.
fn row(d: i32, c: i32, g: i32, lo: i32, hi: i32) -> Row {
    Row {
        gap: 0,
        d,
        c,
        g,
        lo,
        hi,
    }
}

// What an average allows between two samples.
fn between(before: u32, after: u32, q: i32) -> Result<i64, Fail> {
    let rows = [];
    if !are_sound(1, &rows) {
        return Err(Fail::new("no rows are sound"));
    }
    let source = RowSlice { h: 1, rows: &rows };
    let cells = [cell(before)?, cell(M)?, cell(after)?];
    Ok(number(speed_allowed(&[], &[0, q, 0], source, &cells, 1)))
}

#[test]
fn averages(rt: HostRuntime) -> Result<(), Fail> {
    assert_eq!(rt; between(3, 4, 0)?, 3);
    assert_eq!(rt; between(0, 0, -1)?, -1);
    assert_eq!(rt; between(M, M, 0)?, 2147483647);
    assert_eq!(rt; between(M, M, i32::MAX)?, 2147483647);
    assert_eq!(rt; between(M, M, i32::MIN)?, 1073741823);
    assert_eq!(rt; between(0, 0, i32::MIN)?, -1);
    Ok(())
}

#[test]
fn rows_beside_slow_samples(rt: HostRuntime) -> Result<(), Fail> {
    assert_eq!(rt; beside(1, row(3, 1, 1, -3, 4), 10)?, (5, 38));
    assert_eq!(rt; beside(1, row(3, 1, 1, -3, 4), 2)?, (2, 14));
    assert_eq!(rt;
        beside(65535, row(SIZE, 128, -SIZE, -SIZE, SIZE), 0)?,
        (262140, 0)
    );
    assert_eq!(rt;
        beside(65535, row(SIZE, 128, SIZE, -SIZE, -SIZE), 0)?,
        (-1, 2147483647)
    );
    assert_eq!(rt;
        beside(65535, row(-SIZE, -128, SIZE, -SIZE, SIZE), 0)?,
        (262140, 0)
    );
    Ok(())
}

#[test]
fn rows_beside_fast_samples(rt: HostRuntime) -> Result<(), Fail> {
    assert_eq!(rt;
        beside(65535, row(SIZE, 128, -SIZE, -SIZE, SIZE), M)?,
        (294907, 2147483647)
    );
    assert_eq!(rt;
        beside(65535, row(-SIZE, -128, -SIZE, -SIZE, SIZE), M)?,
        (32767, 2147483647)
    );
    assert_eq!(rt;
        beside(65535, row(1, 0, SIZE, -SIZE, -SIZE), M)?,
        (-1, 2147483647)
    );
    assert_eq!(rt;
        beside(65535, row(-1, 0, SIZE, -SIZE, SIZE), M)?,
        (2147483647, 2147483647)
    );
    Ok(())
}

#[test]
fn rows_that_are_not_sound(rt: HostRuntime) {
    assert!(rt; !are_sound(65535, &[row(SIZE, SIZE, 0, 0, 0)]));
    assert!(rt; !are_sound(65535, &[row(-SIZE, -SIZE, 0, 0, 0)]));
    assert!(rt; !are_sound(1, &[row(SIZE, SIZE, 0, 0, 0)]));
    assert!(rt; !are_sound(1, &[row(i32::MIN, 0, 0, 0, 0)]));
    assert!(rt; !are_sound(1, &[row(0, 1, 0, 0, 0)]));
    assert!(rt; !are_sound(1, &[row(2, 1, 0, 0, 0)]));
}

// A ramp of classes beside a limit by another maker.
#[test]
fn ramp_beside_another_make(rt: HostRuntime) -> Result<(), Fail> {
    let steps = [Step { up: 1, down: M }, Step { up: M, down: 2 }];
    let cells: [Cell<Class>; 3] = [cell(2)?, cell(7)?, cell(0)?];
    let ramp = Ramp {
        steps: StepSlice { steps: &steps },
    };
    assert_eq!(rt; number::<Class>(ramp.evaluate(&cells, 0)), 7);
    assert_eq!(rt; number::<Class>(ramp.evaluate(&cells, 1)), 2);
    assert_eq!(rt; number::<Class>(ramp.evaluate(&cells, 2)), 7);
    let most = cell::<Class>(1)?.value;
    let pair = Pair {
        first: ramp,
        second: Flat { most },
    };
    assert_eq!(rt; number::<Class>(pair.evaluate(&cells, 1)), 1);
    assert_eq!(rt; number::<Class>(pair.evaluate(&cells, 3)), 7);
    Ok(())
}
