// Every call at every stage, the questions before it, and the memory beside the job.
use super::path::{cell, example, planned};
use grade::{Cell, Class, Grade};
use job::Job;
use runs::{Answer, Call, Fault, Make, Reply, Samples, Sight, Stage};
use std::process::Abort;
use std::test::Fail;

const CLASSES: Stage = Stage::Working(Make::Classes);

const SPEEDS: Stage = Stage::Working(Make::Speeds);

// Calls that bring a new job of the worked example to each stage.
const TO_CLASSES: Call = Call::Advance(0);

const TO_SPEEDS: Call = Call::Advance(3);

const TO_SETTLED: Call = Call::Advance(100);

const TO_IMPOSSIBLE: Call = Call::Lift(Make::Speeds, 1, 10);

// What the call answers at the stage that the first call leads to, and the stage after it.
fn tried(first: Call, call: Call) -> Result<(Answer, Stage), Fail> {
    let mut classes: [Cell<Class>; 3] = [cell(7, 0)?; 3];
    let mut speeds = example()?;
    let mut answers = [Ok(Reply::Done); 2];
    let stage = planned(&mut classes, &mut speeds, &[first, call], &mut answers)?;
    Ok((answers[1], stage))
}

// The stages after a call that is done at each of the first three, and refused at the last.
fn changes(
    rt: &impl Abort,
    call: Call,
    at_classes: Stage,
    at_speeds: Stage,
    at_settled: Stage,
) -> Result<(), Fail> {
    assert_eq!(rt; tried(TO_CLASSES, call)?, (Ok(Reply::Done), at_classes));
    assert_eq!(rt; tried(TO_SPEEDS, call)?, (Ok(Reply::Done), at_speeds));
    assert_eq!(rt; tried(TO_SETTLED, call)?, (Ok(Reply::Done), at_settled));
    let refused = Err(Fault::JobImpossible);
    assert_eq!(rt;
        tried(TO_IMPOSSIBLE, call)?,
        (refused, Stage::Impossible(1))
    );
    Ok(())
}

#[test]
fn cuts_that_lower_open_the_work_again(rt: HostRuntime) -> Result<(), Fail> {
    changes(
        &rt,
        Call::Cut(Make::Classes, 1, 6),
        CLASSES,
        CLASSES,
        CLASSES,
    )?;
    changes(&rt, Call::Cut(Make::Speeds, 2, 1), CLASSES, SPEEDS, SPEEDS)
}

#[test]
fn slack_cuts_and_low_lifts_change_no_stage(rt: HostRuntime) -> Result<(), Fail> {
    changes(
        &rt,
        Call::Cut(Make::Classes, 1, 7),
        CLASSES,
        SPEEDS,
        Stage::Settled,
    )?;
    changes(
        &rt,
        Call::Cut(Make::Speeds, 2, 9),
        CLASSES,
        SPEEDS,
        Stage::Settled,
    )?;
    changes(
        &rt,
        Call::Lift(Make::Classes, 1, 7),
        CLASSES,
        SPEEDS,
        Stage::Settled,
    )?;
    changes(
        &rt,
        Call::Lift(Make::Speeds, 2, 2),
        CLASSES,
        SPEEDS,
        Stage::Settled,
    )
}

#[test]
fn a_lift_above_the_value_is_impossible(rt: HostRuntime) -> Result<(), Fail> {
    let at = Stage::Impossible(2);
    changes(&rt, Call::Lift(Make::Speeds, 2, 10), at, at, at)
}

#[test]
fn advances_and_looks_at_every_stage(rt: HostRuntime) -> Result<(), Fail> {
    let refused = Err(Fault::JobImpossible);
    let failed = Stage::Impossible(1);
    assert_eq!(rt; tried(TO_CLASSES, Call::Advance(2))?.1, CLASSES);
    assert_eq!(rt; tried(TO_SPEEDS, Call::Advance(5))?.1, SPEEDS);
    assert_eq!(rt; tried(TO_SETTLED, Call::Advance(1))?.1, Stage::Settled);
    assert_eq!(rt; tried(TO_IMPOSSIBLE, Call::Advance(1))?, (refused, failed));
    assert_eq!(rt; tried(TO_CLASSES, Call::Look(2))?.1, CLASSES);
    assert_eq!(rt; tried(TO_SPEEDS, Call::Look(2))?.1, SPEEDS);
    assert_eq!(rt; tried(TO_SETTLED, Call::Look(2))?.1, Stage::Settled);
    let seen = Ok(Reply::Seen(Sight {
        stage: failed,
        class: 7,
        speed: 9,
    }));
    assert_eq!(rt; tried(TO_IMPOSSIBLE, Call::Look(2))?, (seen, failed));
    Ok(())
}

// Each number may be any of 64 bits, and the first question that fails gives its number.
#[test]
fn questions_in_their_order(rt: HostRuntime) -> Result<(), Fail> {
    let no_sample = Err(Fault::NoSample);
    let above_top = Err(Fault::AboveTop);
    let cut = Call::Cut(Make::Speeds, 3, u64::MAX);
    assert_eq!(rt; tried(TO_IMPOSSIBLE, cut)?.0, no_sample);
    let lift = Call::Lift(Make::Classes, 0, 8);
    assert_eq!(rt; tried(TO_IMPOSSIBLE, lift)?.0, above_top);
    let wide = Call::Cut(Make::Speeds, 0, 4294967296);
    assert_eq!(rt; tried(TO_SETTLED, wide)?.0, above_top);
    let far = Call::Look(4294967296);
    assert_eq!(rt; tried(TO_SETTLED, far)?.0, no_sample);
    assert_eq!(rt; Fault::NoSample.number(), 60);
    assert_eq!(rt; Fault::AboveTop.number(), 61);
    Ok(())
}

#[test]
fn counts_of_samples(rt: HostRuntime) -> Result<(), Fail> {
    assert_eq!(rt; Samples::new(1).err(), Some(Fault::BadCount));
    assert_eq!(rt; Samples::new(4097).err(), Some(Fault::BadCount));
    assert_eq!(rt; Samples::new(4096)?.count, 4096);
    Ok(())
}

// Two cells are too few for three samples, at making and beside a job.
#[test]
fn memory_is_asked_for(rt: HostRuntime) -> Result<(), Fail> {
    let mut classes: [Cell<Class>; 3] = [cell(7, 0)?; 3];
    let mut speeds = example()?;
    let mut short = [cell(9, 0)?; 2];
    let samples = Samples::new(3)?;
    let made = Job::make(&mut classes, &mut short, samples);
    assert_eq!(rt; made.err(), Some(Fault::NoSpeedMemory));
    let mut job = Job::make(&mut classes, &mut speeds, samples)?;
    let cut = job.speed_cut(&classes, &mut short, 0, 0);
    assert_eq!(rt; cut.err(), Some(Fault::NoSpeedMemory));
    assert!(rt; short.len() == 2);
    assert_eq!(rt; short[0].cap.rank(), 9);
    assert_eq!(rt; job.sufficient_allowance(&classes, &speeds)?, 126);
    Ok(())
}

// The second call has no place for its answer.
#[test]
fn calls_without_a_place_are_not_made(rt: HostRuntime) -> Result<(), Fail> {
    let mut classes: [Cell<Class>; 3] = [cell(7, 0)?; 3];
    let mut speeds = example()?;
    let mut answers = [Ok(Reply::Done)];
    let calls = [Call::Look(0), Call::Advance(126)];
    let stage = planned(&mut classes, &mut speeds, &calls, &mut answers)?;
    assert_eq!(rt; stage, CLASSES);
    Ok(())
}
