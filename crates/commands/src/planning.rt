// `furqyzet plan`: a frame's job made and advanced in cycles until its work ends, and the table it settles on, or why
// there is none.
use super::bounds::ClashText;
use super::counts::Count;
use super::cycles::{Totals, Work, first_piece, progress_of};
use super::live::Live;
use super::options::PlanOptions;
use super::table::print_table;
use anyhow::anyhow;
use binding::clash;
use console::{Stop, accept, cells, load, refuse, store};
use frame::PathFrame;
use grade::{Cell, Class, Speed};
use planner::{make_or_refuse, plan};
use runs::{Progress, Reply, Stage};
use setpoint::{ask_release, release};
use std::io;

pub fn plan_file(rt: &HostRuntime, options: PlanOptions<'_>) -> Result<(), Stop> {
    let bytes = load(rt, options.frame)?;
    let bytes = bytes.as_slice();
    let frame = accept(rt, bytes)?;
    plan_frame(rt, options, bytes, frame)
}

// Plans an accepted frame in memory for its samples, up to the first piece of the first cycle, and goes on from there.
fn plan_frame(
    rt: &HostRuntime,
    options: PlanOptions<'_>,
    bytes: &[u8],
    frame: PathFrame<'_>,
) -> Result<(), Stop> {
    let samples = frame.header().samples as u64;
    let mut classes: Vec<Cell<Class>> = cells(rt.alloc(), samples)?;
    let mut speeds: Vec<Cell<Speed>> = cells(rt.alloc(), samples)?;
    let allowance = options.allowance.unwrap_or_else(|| sufficient(
        bytes,
        classes.as_mut_slice(),
        speeds.as_mut_slice(),
    ));
    let mut answers = [Ok(Reply::Done)];
    let job = plan(
        bytes,
        classes.as_mut_slice(),
        speeds.as_mut_slice(),
        &[first_piece(allowance)],
        &mut answers,
    )
    .map_err(|fault| refuse(rt, fault.refusal(), fault))?;
    let first = progress_of(answers[0], job.stage());
    let work = Work {
        live: Live {
            frame,
            job,
            classes,
            speeds,
        },
        allowance,
        quiet: options.quiet,
    };
    settle(rt, work, first, options.setpoints)
}

// As many evaluations as the frame's job can need; of a refused making any number, since the plan that follows refuses it in
// words.
fn sufficient(bytes: &[u8], classes: &mut [Cell<Class>], speeds: &mut [Cell<Speed>]) -> u64 {
    let Ok(job) = make_or_refuse(bytes, classes, speeds) else {
        return u64::MAX;
    };
    job.sufficient_allowance(classes, speeds)
        .unwrap_or(u64::MAX)
}

// Advances a job until its work ends, and says what came of it.
fn settle(
    rt: &HostRuntime,
    mut work: Work<'_>,
    first: Progress,
    setpoints: Option<&str>,
) -> Result<(), Stop> {
    let totals = work.finish(rt, first)?;
    if let Stage::Impossible(sample) = work.live.job.stage() {
        print_impossible(rt, &work.live, sample)?;
        return Err(Stop::Reported);
    }
    if !work.quiet {
        print_table(rt, &work.live)?;
    }
    print_totals(rt, work.live.job.samples().count, totals)?;
    match setpoints {
        Some(file) => write_setpoints(rt, work.live, file),
        None => Ok(()),
    }
}

fn print_totals(rt: &HostRuntime, samples: usize, totals: Totals) -> io::Result<()> {
    let samples = Count(samples as u64, "sample");
    let evaluations = Count(totals.evaluations, "evaluation");
    let lowerings = Count(totals.lowerings, "lowering");
    let cycles = Count(totals.cycles, "cycle");
    println!(rt; "settled: {samples}, {evaluations}, {lowerings}, {cycles}")
}

// Where a job was found impossible, and the bound and the floor that clash there.
fn print_impossible(rt: &HostRuntime, live: &Live<'_>, sample: usize) -> io::Result<()> {
    println!(rt;
        "impossible: no table keeps every limit and every floor; found at sample {sample}"
    )?;
    let classes = live.of_samples(live.classes.as_slice());
    let speeds = live.of_samples(live.speeds.as_slice());
    match clash(live.frame, classes, speeds, sample) {
        Some(found) => println!(rt; "there {}", ClashText(found)),
        None => Ok(()),
    }
}

// Releases a settled job and writes its setpoint frame to a file.
fn write_setpoints(rt: &HostRuntime, live: Live<'_>, file: &str) -> Result<(), Stop> {
    let Live {
        job,
        classes,
        speeds,
        frame: _,
    } = live;
    if ask_release(&job, classes.len(), speeds.len()).is_err() {
        return Err(anyhow!("the job is not settled").into());
    }
    let released = release(job, classes.as_slice(), speeds.as_slice());
    let mut memory = vec![in rt.alloc(); 0u8; released.frame_size()]?;
    if released.write_setpoints(memory.as_mut_slice()).is_err() {
        return Err(anyhow!("too little memory for the setpoint frame").into());
    }
    store(rt, file, memory.as_slice())?;
    let bytes = Count(memory.len() as u64, "byte");
    println!(rt; "setpoints: {bytes} written to {file}")?;
    Ok(())
}
