// `furqyzet replay`: the calls of a script, one to a line, and one answer to a line.
//
// At each time there is no job, a job at hand or a spent one. Lines about the frame and `make` mean the same at all
// times; what a call on the job means is for the handler of that time to say. A done `make` throws away the job before it.
ghost use Rattle.std.specs.Prelude.{◌≡◌, Some, None, replicate, IfOk};
ghost use Rattle.commands.specs.declared.made.Made.{Made};
ghost use Rattle.commands.specs.declared.replaying.Next.TheVariants as ended;

use super::answering::print_made;
use super::handlers::{NoJob, with_job};
use super::made::Made;
use super::script::{JobLine, Line, LineFault, line_of};
use console::{
    Place, Stop, break_off, bytes, cells, complain, load, load_text, print_unmade, write_path,
};
use grade::{Cell, Class, Speed};
use planner::{ask, make};
use std::alloc::Global;
use std::convert::Infallible;
use std::ops::ControlFlow;
use std::str::Lines;

// No frame comes near as many bytes.
const MOST_BYTES: u64 = 1 << 30;

// What ends the lines of a handler before the script ends. It hands a job over, and is never compared.
#[derive(Drop)]
pub enum Next<P> {
    // Another job was made.
    Made(Made),
    // The handler parts from its job.
    Parted(P),
}

// Who answers the calls on a job.
pub trait Handler {
    // With what it parts from its job, if it does.
    type Parting;

    // Answers a call.
    fn answer(
        &mut self,
        rt: &HostRuntime,
        line: JobLine,
    ) -> Result<ControlFlow<Self::Parting>, Stop>;
}

// A script under way, of which there is one, never shown or compared: its file, the lines that are left, how many were read, and the frame for the lines below.
#[derive(Drop)]
pub struct Script<'a> {
    path: &'a str,
    lines: Lines<'a>,
    read: usize,
    frame: Vec<u8>,
}

pub fn replay(rt: &HostRuntime, path: &str) -> Result<(), Stop> {
    let text = load_text(rt, path)?;
    let mut script = Script::new(rt.alloc(), path, text.as_str());
    let mut made = only_made(script.run(rt, &mut NoJob)?);
    // A count and no `while let`: its measure would be the lines that are left, carried through `with_job` and `run` for nothing
    // but this loop, where a count that is never used up says as much.
    for _ in 0..u64::MAX {
        let Some(job) = made else {
            break;
        };
        made = with_job(rt, &mut script, job)?;
    }
    Ok(())
}

// The job that was made, of a handler that never parts from its own.
pub fn only_made(next: Option<Next<Infallible>>) -> Option<Made>
    ensures made { (job : Made) → next ≡ Some (ended.Made job) → result ≡ Some job }
    ensures none { next ≡ None → result ≡ None }
{
    match next? {
        Next::Made(made) => Some(made),
        Next::Parted(never) => match never {},
    }
}

impl<'a> Script<'a> {
    fn new(heap: Global, path: &'a str, text: &'a str) -> Script<'a> {
        Script {
            path,
            lines: text.lines(),
            read: 0,
            frame: Vec::new(heap),
        }
    }

    // Reads lines and has a handler answer the calls on a job, until something else is to come, or the script ends.
    pub fn run<H: Handler>(
        &mut self,
        rt: &HostRuntime,
        handler: &mut H,
    ) -> Result<Option<Next<H::Parting>>, Stop> {
        for line in &mut self.lines {
            let index = self.read;
            self.read = index.saturating_add(1);
            let said = line_of(line);
            // Apart from the others, since there may be very many.
            if let Ok(Line::Empty) = said {
                continue;
            }
            match step(rt, &mut self.frame, handler, said) {
                Ok(ControlFlow::Continue(())) => {}
                Ok(ControlFlow::Break(next)) => return Ok(Some(next)),
                Err(stop) => {
                    let path = self.path;
                    return Err(break_off(rt, Place { path, index, line }, stop));
                }
            }
        }
        Ok(None)
    }
}

// What a line of a script asks for.
fn step<H: Handler>(
    rt: &HostRuntime,
    frame: &mut Vec<u8>,
    handler: &mut H,
    said: Result<Line<'_>, LineFault>,
) -> Result<ControlFlow<Next<H::Parting>>, Stop> {
    match said {
        Err(fault) => return Err(complain(rt, fault)),
        Ok(Line::Empty) => {}
        Ok(Line::Frame(file)) => *frame = take_frame(rt, file)?,
        Ok(Line::WritePath(length)) => {
            let mut memory = lend(rt, length)?;
            write_path(rt, frame.as_slice(), memory.as_mut_slice())?;
        }
        Ok(Line::Make(classes, speeds)) => {
            if let Some(made) = make_job(rt, frame.as_slice(), classes, speeds)? {
                return Ok(ControlFlow::Break(Next::Made(made)));
            }
        }
        Ok(Line::Job(line)) => {
            if let ControlFlow::Break(parting) = handler.answer(rt, line)? {
                return Ok(ControlFlow::Break(Next::Parted(parting)));
            }
        }
    }
    Ok(ControlFlow::Continue(()))
}

fn take_frame(rt: &HostRuntime, file: &str) -> Result<Vec<u8>, Stop> {
    match load(rt, file) {
        Ok(bytes) => {
            println!(rt; "ok")?;
            Ok(bytes)
        }
        Err(Stop::Reported) => Err(complain(rt, "the frame is not there")),
        Err(error) => Err(error),
    }
}

// Memory for bytes, as a script asks for it.
pub fn lend(rt: &HostRuntime, length: u64) -> Result<Vec<u8>, Stop>
    ensures { IfOk result (λ memory. memory.items ≡ replicate length 165) }
{
    if length > MOST_BYTES {
        return Err(complain(rt, "a script's memory has at most 1073741824 bytes"));
    }
    Ok(bytes(rt.alloc(), length as usize)?)
}

// The frame's job in new memories, or nothing where a question refuses it.
fn make_job(
    rt: &HostRuntime,
    frame: &[u8],
    classes: u64,
    speeds: u64,
) -> Result<Option<Made>, Stop> {
    let mut classes: Vec<Cell<Class>> = cells(rt.alloc(), classes)?;
    let mut speeds: Vec<Cell<Speed>> = cells(rt.alloc(), speeds)?;
    if let Err(fault) = ask(frame, classes.as_slice(), speeds.as_slice()) {
        print_unmade(rt, fault.refusal())?;
        return Ok(None);
    }
    let job = make(frame, classes.as_mut_slice(), speeds.as_mut_slice());
    print_made(rt, job.stage())?;
    Ok(Some(Made {
        frame: frame.to_vec(rt.alloc())?,
        classes,
        speeds,
        job,
    }))
}
