// Answers of a script's calls on a job, one to a line. What is wrapped here is only printed, and derives no comparison.
use console::print_refused;
use grade::{Cell, Class, Grade, Speed};
use runs::{Answer, Make, Progress, Reply, Sight, Stage};
use std::{fmt, io};

// Where a job stands, in one word.
#[derive(Clone, Copy)]
pub struct State(pub Stage);

impl fmt::Display for State {
    fn fmt<W: fmt::Write>(&self, f: &mut fmt::Formatter<W>) -> fmt::Result {
        f.write_str(match self.0 {
            Stage::Working(Make::Classes) => "classes",
            Stage::Working(Make::Speeds) => "speeds",
            Stage::Settled => "settled",
            Stage::Impossible(_) => "impossible",
        })
    }
}

// The sample where a job was found impossible, with a space before it; nothing of any other job.
#[derive(Clone, Copy)]
struct Found(Stage);

impl fmt::Display for Found {
    fn fmt<W: fmt::Write>(&self, f: &mut fmt::Formatter<W>) -> fmt::Result {
        match self.0 {
            Stage::Impossible(sample) => write!(f, " {sample}"),
            Stage::Working(_) | Stage::Settled => Ok(()),
        }
    }
}

// A sheet's cells, each after a space: value, cap and floor.
#[derive(Clone, Copy)]
struct Cells<'a, G>(&'a [Cell<G>]);

impl<G: Grade> fmt::Display for Cells<'_, G> {
    fn fmt<W: fmt::Write>(&self, f: &mut fmt::Formatter<W>) -> fmt::Result {
        for cell in self.0 {
            write!(
                f,
                " {}/{}/{}",
                cell.value.rank(),
                cell.cap.rank(),
                cell.floor.rank()
            )?;
        }
        Ok(())
    }
}

pub fn print_made(rt: &HostRuntime, stage: Stage) -> io::Result<()> {
    println!(rt; "made {}{}", State(stage), Found(stage))
}

// The answer of a call, after which the job stands at a stage.
pub fn print_answer(rt: &HostRuntime, answer: Answer, after: Stage) -> io::Result<()> {
    match answer {
        Ok(
            Reply::Advanced(
                Progress {
                    stage,
                    evaluations,
                    lowerings,
                },
            ),
        ) => println!(rt; "{} {evaluations} {lowerings}", State(stage)),
        Ok(Reply::Done) => println!(rt; "done {}", State(after)),
        Ok(
            Reply::Seen(
                Sight {
                    stage,
                    class,
                    speed,
                },
            ),
        ) => println!(rt; "{} {class} {speed}{}", State(stage), Found(stage)),
        Err(fault) => print_refused(rt, fault.number()),
    }
}

// Value, cap and floor of each class, then of each squared speed.
pub fn print_cells(
    rt: &HostRuntime,
    classes: &[Cell<Class>],
    speeds: &[Cell<Speed>],
) -> io::Result<()> {
    println!(rt; "classes{} speeds{}", Cells(classes), Cells(speeds))
}
