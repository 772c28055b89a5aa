// An answer in the words that C reads.
ghost use Rattle.std.specs.Prelude.{◌≡◌};
ghost use Rattle.furqyzet_c.specs.Answers.{of_number, of_no_job, answer_words};

use super::job_words::{JobWords, found_of, state_of};
use super::refusal_words::NO_JOB;
use runs::{Answer, Reply, Stage};

#[derive(Clone, Copy, Debug, PartialEq, Eq)]
#[repr(C)]
pub struct AnswerWords {
    pub evaluations: u64,
    pub lowerings: u64,
    // The sample at which the job was found impossible; else 0.
    pub found: u64,
    // The question that refused the call; else 0.
    pub number: u32,
    pub class: u32,
    pub speed: u32,
    pub state: u32,
}

// The number of the question whether words are a call's.
pub(crate) const NO_CALL: u8 = 254;

impl AnswerWords {
    // Refused by a question, beside a job at a stage; where the number is 0, done.
    pub(crate) fn of_number(number: u8, stage: Stage) -> AnswerWords
        ensures { result ≡ of_number number stage }
    {
        AnswerWords {
            evaluations: 0,
            lowerings: 0,
            found: found_of(stage),
            number: number as u32,
            class: 0,
            speed: 0,
            state: state_of(stage) as u32,
        }
    }

    // Refused beside words that are no job.
    pub(crate) fn of_no_job(words: JobWords) -> AnswerWords
        ensures { result ≡ of_no_job words }
    {
        AnswerWords {
            evaluations: 0,
            lowerings: 0,
            found: words.found,
            number: NO_JOB as u32,
            class: 0,
            speed: 0,
            state: words.state as u32,
        }
    }

    // What a call answered that left a job at a stage.
    pub(crate) fn of(answer: Answer, stage: Stage) -> AnswerWords
        ensures { result ≡ answer_words answer stage }
    {
        match answer {
            Ok(Reply::Advanced(progress)) => AnswerWords {
                evaluations: progress.evaluations,
                lowerings: progress.lowerings,
                ..AnswerWords::of_number(0, stage)
            },
            Ok(Reply::Done) => AnswerWords::of_number(0, stage),
            Ok(Reply::Seen(sight)) => AnswerWords {
                class: sight.class,
                speed: sight.speed,
                ..AnswerWords::of_number(0, stage)
            },
            Err(fault) => AnswerWords::of_number(fault.number(), stage),
        }
    }
}
