// The calls of a script at each time: before there is a job, on a job that is at hand, and on one that is released and spent.
use super::answering::{print_answer, print_cells};
use super::live::Live;
use super::made::Made;
use super::replaying::{Handler, Next, Script, lend, only_made};
use super::script::JobLine;
use console::{Stop, complain, print_refused, print_written};
use frame::PathFrame;
use setpoint::{Released, ask_release, release};
use std::convert::Infallible;
use std::ops::ControlFlow;

// There is no job yet. A handler is the only one of its time, and is never compared.
#[derive(Drop)]
pub struct NoJob;

impl Handler for NoJob {
    type Parting = Infallible;

    fn answer(
        &mut self,
        rt: &HostRuntime,
        _line: JobLine,
    ) -> Result<ControlFlow<Infallible>, Stop> {
        Err(complain(rt, "there is no job: make one from the frame"))
    }
}

// The job said yes to its release: a word to its caller, never compared.
#[derive(Clone, Copy)]
pub struct Releasing;

impl Handler for Live<'_> {
    type Parting = Releasing;

    fn answer(&mut self, rt: &HostRuntime, line: JobLine) -> Result<ControlFlow<Releasing>, Stop> {
        match line {
            JobLine::Call(call) => print_answer(rt, self.call(call), self.job.stage())?,
            JobLine::Cells => {
                let classes = self.of_samples(self.classes.as_slice());
                let speeds = self.of_samples(self.speeds.as_slice());
                print_cells(rt, classes, speeds)?;
            }
            JobLine::Release => {
                match ask_release(&self.job, self.classes.len(), self.speeds.len()) {
                    Ok(()) => return Ok(ControlFlow::Break(Releasing)),
                    Err(fault) => print_refused(rt, fault.number())?,
                }
            }
            JobLine::Setpoints(_) => {
                return Err(complain(rt, "the job is not released: release it first"));
            }
        }
        Ok(ControlFlow::Continue(()))
    }
}

// The job was released and is spent.
impl Handler for Released<'_> {
    type Parting = Infallible;

    fn answer(&mut self, rt: &HostRuntime, line: JobLine) -> Result<ControlFlow<Infallible>, Stop> {
        let JobLine::Setpoints(length) = line else {
            return Err(complain(
                rt,
                "the job is released and spent: make a new job from the frame",
            ));
        };
        let mut memory = lend(rt, length)?;
        match self.write_setpoints(memory.as_mut_slice()) {
            Ok(size) => print_written(rt, size, memory.as_slice())?,
            Err(fault) => print_refused(rt, fault.number())?,
        }
        Ok(ControlFlow::Continue(()))
    }
}

// The lines from the making of a job on, up to that of another: calls on it, and after its release those on a spent one.
pub fn with_job(
    rt: &HostRuntime,
    script: &mut Script<'_>,
    made: Made,
) -> Result<Option<Made>, Stop> {
    let Made {
        frame,
        classes,
        speeds,
        job,
    } = made;
    let mut live = Live {
        frame: PathFrame::over(frame.as_slice()),
        job,
        classes,
        speeds,
    };
    match script.run(rt, &mut live)? {
        None => Ok(None),
        Some(Next::Made(made)) => Ok(Some(made)),
        Some(Next::Parted(Releasing)) => after_release(rt, script, live),
    }
}

// The lines from the release of a job on; its handler has asked already, and asks again here for what the release needs.
fn after_release(
    rt: &HostRuntime,
    script: &mut Script<'_>,
    live: Live<'_>,
) -> Result<Option<Made>, Stop> {
    let Live {
        job,
        classes,
        speeds,
        frame: _,
    } = live;
    if let Err(fault) = ask_release(&job, classes.len(), speeds.len()) {
        print_refused(rt, fault.number())?;
        return Err(Stop::Reported);
    }
    println!(rt; "released")?;
    let mut spent = release(job, classes.as_slice(), speeds.as_slice());
    Ok(only_made(script.run(rt, &mut spent)?))
}
