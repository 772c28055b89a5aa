// A job in the words that C keeps, and the job that such words are.
ghost use Rattle.std.specs.Prelude.{◌≡◌};
ghost use Rattle.furqyzet_c.specs.Jobs.{state_of, found_of, falling_of, words_of, stage_in, direction_in, mark_in, parts_in, Reads};

use job::{Job, Parts};
use runs::{Direction, Make, Stage, Sweep};

#[derive(Clone, Copy, Debug, PartialEq, Eq)]
#[repr(C)]
pub struct JobWords {
    // How many samples.
    pub samples: u64,
    // The sample at which the job was found impossible; else 0.
    pub found: u64,
    // How many samples the sweep has visited.
    pub visited: u64,
    pub state: u8,
    // 1 where the sweep goes from the last sample to the first, else 0.
    pub falling: u8,
    // 1 where a value fell since the sweep began, else 0.
    pub marked: u8,
    // Always 0.
    pub spare: u8,
}

// The words of no job.
pub(crate) const NO_WORDS: JobWords = JobWords {
    samples: 0,
    found: 0,
    visited: 0,
    state: 0,
    falling: 0,
    marked: 0,
    spare: 0,
};

pub(crate) fn state_of(stage: Stage) -> u8
    ensures { result ≡ state_of stage }
{
    match stage {
        Stage::Working(Make::Classes) => 0,
        Stage::Working(Make::Speeds) => 1,
        Stage::Settled => 2,
        Stage::Impossible(_) => 3,
    }
}

pub(crate) fn found_of(stage: Stage) -> u64
    ensures { result ≡ found_of stage }
{
    match stage {
        Stage::Working(_) | Stage::Settled => 0,
        Stage::Impossible(at) => at as u64,
    }
}

fn falling_of(direction: Direction) -> u8
    ensures { result ≡ falling_of direction }
{
    match direction {
        Direction::Rising => 0,
        Direction::Falling => 1,
    }
}

// The stage of a state and the sample that it found.
fn stage_in(state: u8, found: u64) -> Option<Stage>
    ensures { result ≡ stage_in state found }
{
    match state {
        3 => Some(Stage::Impossible(found as usize)),
        _ if found != 0 => None,
        0 => Some(Stage::Working(Make::Classes)),
        1 => Some(Stage::Working(Make::Speeds)),
        2 => Some(Stage::Settled),
        _ => None,
    }
}

fn direction_in(falling: u8) -> Option<Direction>
    ensures { result ≡ direction_in falling }
{
    match falling {
        0 => Some(Direction::Rising),
        1 => Some(Direction::Falling),
        _ => None,
    }
}

fn mark_in(marked: u8) -> Option<bool>
    ensures { result ≡ mark_in marked }
{
    match marked {
        0 => Some(false),
        1 => Some(true),
        _ => None,
    }
}

impl JobWords {
    pub(crate) fn of(job: &Job) -> JobWords
        ensures { result ≡ words_of job.now }
    {
        let parts = job.parts();
        JobWords {
            samples: parts.samples,
            found: found_of(parts.stage),
            visited: parts.sweep.visited as u64,
            state: state_of(parts.stage),
            falling: falling_of(parts.sweep.direction),
            marked: parts.sweep.marked as u8,
            spare: 0,
        }
    }

    // The parts that they stand for, or nothing.
    fn parts(self) -> Option<Parts>
        ensures { result ≡ parts_in self }
    {
        if self.spare != 0 {
            return None;
        }
        Some(Parts {
            samples: self.samples,
            stage: stage_in(self.state, self.found)?,
            sweep: Sweep {
                direction: direction_in(self.falling)?,
                visited: self.visited as usize,
                marked: mark_in(self.marked)?,
            },
        })
    }

    // The job whose words they are, or nothing.
    pub(crate) fn job(self) -> Option<Job>
        ensures { Reads self result }
    {
        unsafe { Job::from_parts(self.parts()?) }
    }
}
