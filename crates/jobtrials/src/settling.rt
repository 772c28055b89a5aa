// How jobs end: settled, or impossible at a sample.
use super::path::{M, cell, example, planned};
use grade::{Cell, Class};
use runs::{Answer, Call, Make, Progress, Reply, Sight, Stage};
use std::test::Fail;

// An answer of an advance.
fn advanced(stage: Stage, evaluations: u64, lowerings: u64) -> Answer {
    Ok(Reply::Advanced(Progress {
        stage,
        evaluations,
        lowerings,
    }))
}

fn seen(stage: Stage, class: u32, speed: u32) -> Answer {
    Ok(Reply::Seen(Sight {
        stage,
        class,
        speed,
    }))
}

#[test]
fn three_samples_settle(rt: HostRuntime) -> Result<(), Fail> {
    let mut classes: [Cell<Class>; 3] = [cell(7, 0)?; 3];
    let mut speeds = example()?;
    let calls = [
        Call::Advance(100),
        Call::Look(0),
        Call::Look(1),
        Call::Look(2),
    ];
    let mut answers = [Ok(Reply::Done); 4];
    planned(&mut classes, &mut speeds, &calls, &mut answers)?;
    assert_eq!(rt; answers[0], advanced(Stage::Settled, 9, 2));
    assert_eq!(rt; answers[1], seen(Stage::Settled, 7, 0));
    assert_eq!(rt; answers[2], seen(Stage::Settled, 7, 1));
    assert_eq!(rt; answers[3], seen(Stage::Settled, 7, 2));
    Ok(())
}

// The last sample of the class sweep is visited by the third evaluation, which also pours.
#[test]
fn a_small_allowance_reaches_the_speeds(rt: HostRuntime) -> Result<(), Fail> {
    let mut classes: [Cell<Class>; 3] = [cell(7, 0)?; 3];
    let mut speeds = example()?;
    let calls = [Call::Advance(3), Call::Advance(0), Call::Advance(100)];
    let mut answers = [Ok(Reply::Done); 3];
    planned(&mut classes, &mut speeds, &calls, &mut answers)?;
    assert_eq!(rt; answers[0], advanced(Stage::Working(Make::Speeds), 3, 0));
    assert_eq!(rt; answers[1], advanced(Stage::Working(Make::Speeds), 0, 0));
    assert_eq!(rt; answers[2], advanced(Stage::Settled, 6, 2));
    Ok(())
}

// The first sample is visited when a cut lowers it, so the running sweep of two more visits is followed by another.
#[test]
fn a_cut_behind_the_sweep_makes_one_more(rt: HostRuntime) -> Result<(), Fail> {
    let mut classes: [Cell<Class>; 3] = [cell(7, 0)?; 3];
    let mut speeds = [cell(9, 0)?; 3];
    let calls = [
        Call::Advance(4),
        Call::Cut(Make::Speeds, 0, 8),
        Call::Advance(100),
    ];
    let mut answers = [Ok(Reply::Done); 3];
    planned(&mut classes, &mut speeds, &calls, &mut answers)?;
    assert_eq!(rt; answers[0], advanced(Stage::Working(Make::Speeds), 4, 0));
    assert_eq!(rt; answers[1], Ok(Reply::Done));
    assert_eq!(rt; answers[2], advanced(Stage::Settled, 5, 0));
    Ok(())
}

// Class 1 grants 4096, class 0 nothing: the second sample's floor stops the pour, the first speed has fallen by then.
#[test]
fn an_impossible_pour_keeps_what_it_lowered(rt: HostRuntime) -> Result<(), Fail> {
    let mut classes: [Cell<Class>; 3] = [cell(1, 0)?, cell(0, 0)?, cell(1, 0)?];
    let mut speeds = [cell(M, 0)?, cell(M, 5)?, cell(M, 0)?];
    let calls = [
        Call::Advance(100),
        Call::Look(0),
        Call::Look(1),
        Call::Look(2),
    ];
    let mut answers = [Ok(Reply::Done); 4];
    planned(&mut classes, &mut speeds, &calls, &mut answers)?;
    assert_eq!(rt; answers[0], advanced(Stage::Impossible(1), 3, 0));
    assert_eq!(rt; answers[1], seen(Stage::Impossible(1), 1, 4096));
    assert_eq!(rt; answers[2], seen(Stage::Impossible(1), 0, M));
    assert_eq!(rt; answers[3], seen(Stage::Impossible(1), 1, M));
    Ok(())
}

// Class floors are looked at before speed floors.
#[test]
fn floors_above_caps_are_found_at_making(rt: HostRuntime) -> Result<(), Fail> {
    let mut classes: [Cell<Class>; 3] = [cell(7, 0)?, cell(7, 0)?, cell(3, 4)?];
    let mut speeds = [cell(1, 2)?, cell(9, 0)?, cell(9, 0)?];
    let stage = planned(&mut classes, &mut speeds, &[], &mut [])?;
    assert_eq!(rt; stage, Stage::Impossible(2));
    Ok(())
}

// A ramp bounds a sample below its floor.
#[test]
fn a_limit_below_a_floor_is_impossible(rt: HostRuntime) -> Result<(), Fail> {
    let mut classes: [Cell<Class>; 3] = [cell(7, 0)?; 3];
    let mut speeds = [cell(0, 0)?, cell(9, 2)?, cell(9, 0)?];
    let mut answers = [Ok(Reply::Done)];
    planned(
        &mut classes,
        &mut speeds,
        &[Call::Advance(100)],
        &mut answers,
    )?;
    assert_eq!(rt; answers[0], advanced(Stage::Impossible(1), 5, 0));
    Ok(())
}
