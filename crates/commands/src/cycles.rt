// A job advanced cycle by cycle until its work ends, with a line for each cycle.
ghost use Rattle.std.specs.Prelude.{◌≡◌, ◌↔◌, ◌⊎◌, ◌+◌, ◌≤◌, min, max, IsTrue};
ghost use Rattle.runs.specs.declared.call.Call.TheVariants.{Advance};
ghost use Rattle.runs.specs.declared.reply.Progress.{Progress};
ghost use Rattle.runs.specs.declared.reply.Reply.TheVariants.{Advanced};

use super::answering::State;
use super::counts::Count;
use super::live::Live;
use runs::{Answer, Call, Progress, Reply, Stage};
use std::io;

// What all cycles came to.
#[derive(Clone, Copy, Debug, PartialEq, Eq)]
pub struct Totals {
    pub cycles: u64,
    pub evaluations: u64,
    pub lowerings: u64,
}

impl Totals {
    const NONE: Totals = Totals {
        cycles: 0,
        evaluations: 0,
        lowerings: 0,
    };

    // With one cycle more.
    fn and(self, cycle: Progress) -> Totals
        ensures cycles { result.cycles ≡ min (self.cycles + 1) u64.MAX }
        ensures evaluations { result.evaluations ≡ min (self.evaluations + cycle.evaluations) u64.MAX }
        ensures lowerings { result.lowerings ≡ min (self.lowerings + cycle.lowerings) u64.MAX }
    {
        Totals {
            cycles: self.cycles.saturating_add(1),
            evaluations: self.evaluations.saturating_add(cycle.evaluations),
            lowerings: self.lowerings.saturating_add(cycle.lowerings),
        }
    }
}

// So many cycles have a line each. From there on a line stands for as many cycles as came before it, so that long work
// shows some dozens of lines and not thousands.
const TOLD_ONE_BY_ONE: u64 = 10;

// The evaluations after which a cycle that goes on says so; from there on it says so each time it has made as many again.
const PIECE: u64 = 1 << 26;

// The first advance of a cycle with this allowance.
pub fn first_piece(allowance: u64) -> Call
    ensures { result ≡ Advance (min allowance PIECE) }
{
    next_piece(allowance, 0)
}

// The next advance of a cycle, with so much of its allowance left after so many evaluations.
fn next_piece(left: u64, made: u64) -> Call
    ensures { result ≡ Advance (min left (max PIECE made)) }
{
    Call::Advance(left.min(PIECE.max(made)))
}

// What an advance came to, from its answer; a refused one came to nothing at the stage that the job stands at, which says why.
pub fn progress_of(answer: Answer, stage: Stage) -> Progress
    ensures { (p : Progress) → answer ≡ Ok (Advanced p) → result ≡ p }
{
    match answer {
        Ok(Reply::Advanced(progress)) => progress,
        Ok(Reply::Done | Reply::Seen(_)) | Err(_) => idle(stage),
    }
}

fn idle(stage: Stage) -> Progress
    ensures { result ≡ record { stage = stage; evaluations = 0; lowerings = 0 } }
{
    Progress {
        stage,
        evaluations: 0,
        lowerings: 0,
    }
}

// An advance and the next one as one.
fn joined(came: Progress, piece: Progress) -> Progress
    ensures stage { result.stage ≡ piece.stage }
    ensures evaluations { result.evaluations ≡ min (came.evaluations + piece.evaluations) u64.MAX }
    ensures lowerings { result.lowerings ≡ min (came.lowerings + piece.lowerings) u64.MAX }
{
    Progress {
        stage: piece.stage,
        evaluations: came.evaluations.saturating_add(piece.evaluations),
        lowerings: came.lowerings.saturating_add(piece.lowerings),
    }
}

fn is_over(stage: Stage) -> bool {
    !matches!(stage, Stage::Working(_))
}

// Is it time for a line about the last so many of all cycles?
fn is_due(all: u64, untold: u64) -> bool
    ensures { IsTrue result ↔ ((all ≤ TOLD_ONE_BY_ONE) ⊎ (all ≤ untold + untold)) }
{
    all <= TOLD_ONE_BY_ONE || untold >= all.saturating_sub(untold)
}

// A job at work, with the allowance of evaluations for each of its cycles, at least 1. There is one at a time, and it is never
// compared.
#[derive(Drop)]
pub struct Work<'a> {
    pub live: Live<'a>,
    pub allowance: u64,
    // Says nothing of its cycles.
    pub quiet: bool,
}

impl Work<'_> {
    // Advances the job cycle by cycle until its work ends; the first cycle has begun already.
    pub fn finish(&mut self, rt: &HostRuntime, first: Progress) -> io::Result<Totals> {
        let mut totals = Totals::NONE;
        let mut untold = Totals::NONE;
        let mut begun = first;
        // Counts and no `while`, here and below: its measure would be the law's bound on evaluations, carried through `Live` and
        // `cycle` for nothing but these loops, where a count that is never used up says as much.
        for _ in 0..u64::MAX {
            if begun.evaluations == 0 && is_over(begun.stage) {
                break;
            }
            let came = self.cycle(rt, begun)?;
            totals = totals.and(came);
            untold = untold.and(came);
            if !self.quiet && (is_over(came.stage) || is_due(totals.cycles, untold.cycles)) {
                print_cycles(rt, came.stage, totals.cycles, untold)?;
                untold = Totals::NONE;
            }
            begun = idle(came.stage);
        }
        Ok(totals)
    }

    // One cycle, from where it has begun: the allowance is used in pieces, with a word in between where it goes on for long.
    fn cycle(&mut self, rt: &HostRuntime, begun: Progress) -> io::Result<Progress> {
        let mut came = begun;
        for _ in 0..u64::MAX {
            if is_over(came.stage) || came.evaluations >= self.allowance {
                break;
            }
            if !self.quiet && came.evaluations > 0 {
                print_working(rt, came)?;
            }
            let left = self.allowance.saturating_sub(came.evaluations);
            let answer = self.live.call(next_piece(left, came.evaluations));
            came = joined(came, progress_of(answer, self.live.job.stage()));
        }
        Ok(came)
    }
}

// How far a long cycle is.
fn print_working(rt: &HostRuntime, came: Progress) -> io::Result<()> {
    let state = State(came.stage);
    let evaluations = Count(came.evaluations, "evaluation");
    let lowerings = Count(came.lowerings, "lowering");
    eprintln!(rt; "working on {state}: {evaluations}, {lowerings} so far")
}

// A line about the last so many of all cycles.
fn print_cycles(rt: &HostRuntime, stage: Stage, all: u64, told: Totals) -> io::Result<()> {
    let state = State(stage);
    let evaluations = Count(told.evaluations, "evaluation");
    let lowerings = Count(told.lowerings, "lowering");
    if told.cycles == 1 {
        println!(rt; "cycle {all}: {state}, {evaluations}, {lowerings}")
    } else {
        let first = all.saturating_sub(told.cycles).saturating_add(1);
        println!(rt; "cycles {first} to {all}: {state}, {evaluations}, {lowerings}")
    }
}
