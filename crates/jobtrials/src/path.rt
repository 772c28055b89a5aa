// The path of the trials: three samples, a ramp of 1 up and any fall, an average that never binds, free classes.
use grade::{Cell, Class, Grade, Speed, from_rank};
use job::Limits;
use limit::Pair;
use motion::{Average, Ramp, Step};
use runs::{Answer, Call, Samples, Stage};
use sequence::plan;
use slices::{OffsetSlice, StepSlice};
use std::test::Fail;

pub const M: u32 = Speed::TOP;

// A cell with this cap and this floor.
pub fn cell<G: Grade>(cap: u32, floor: u32) -> Result<Cell<G>, Fail> {
    let cap = from_rank(cap).ok_or("no grade has this rank")?;
    let floor = from_rank(floor).ok_or("no grade has this rank")?;
    Ok(Cell {
        value: floor,
        cap,
        floor,
    })
}

// The cells of the worked example: caps 0, 9, 9 and floors 0.
pub fn example() -> Result<[Cell<Speed>; 3], Fail> {
    Ok([cell(0, 0)?, cell(9, 0)?, cell(9, 0)?])
}

// The stage of a job over these cells after the calls.
pub fn planned(
    classes: &mut [Cell<Class>],
    speeds: &mut [Cell<Speed>],
    calls: &[Call],
    answers: &mut [Answer],
) -> Result<Stage, Fail> {
    let free = [Step { up: 7, down: 7 }; 2];
    let steps = [Step { up: 1, down: M }; 2];
    let offsets = [0, i32::MAX, 0];
    let class_limit = Ramp {
        steps: StepSlice { steps: &free },
    };
    let speed_limit = Pair {
        first: Ramp {
            steps: StepSlice { steps: &steps },
        },
        second: Average {
            offsets: OffsetSlice { offsets: &offsets },
        },
    };
    let limits = Limits {
        classes: &class_limit,
        speeds: &speed_limit,
    };
    let job = plan(Samples::new(3)?, classes, speeds, &limits, calls, answers)?;
    Ok(job.stage())
}
