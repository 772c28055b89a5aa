// The lines of a script.
use runs::{Call, Make};
use thiserror::Error;

// What a line says.
#[derive(Clone, Copy, Debug, PartialEq, Eq)]
pub enum Line<'a> {
    // No call at all.
    Empty,
    // The bytes for the lines below.
    Frame(&'a str),
    // The frame's records, written into memory of so many bytes.
    WritePath(u64),
    // The frame's job, made in memories of so many class cells and speed cells.
    Make(u64, u64),
    // A call on the job that there is.
    Job(JobLine),
}

#[derive(Clone, Copy, Debug, PartialEq, Eq)]
pub enum JobLine {
    Call(Call),
    // Every cell of the job's samples.
    Cells,
    Release,
    // The setpoint frame, written into memory of so many bytes.
    Setpoints(u64),
}

// Why a line's words make no call.
#[derive(Clone, Copy, Debug, PartialEq, Eq, Error)]
pub enum LineFault {
    #[error("too few words, too many, or no number where one belongs")]
    Broken,
    #[error("there is no such call")]
    Unknown,
}

// The verbs of all calls, to tell a call with other words from none: `call_of` gives nothing of either.
const VERBS: [&str; 12] = [
    "frame",
    "write-path",
    "make",
    "advance",
    "look",
    "cells",
    "release",
    "setpoints",
    "class-cut",
    "speed-cut",
    "class-lift",
    "speed-lift",
];

// A number from 0 to 2^64 − 1, in decimal digits alone.
pub fn number(word: &str) -> Option<u64> {
    if word.starts_with('+') {
        return None;
    }
    word.parse().ok()
}

// What a line says. No more of its words are looked at than tell a call from one with too many, so that a line needs no memory.
pub fn line_of(line: &str) -> Result<Line<'_>, LineFault> {
    let mut words = line.split_whitespace();
    let Some(verb) = words.next() else {
        return Ok(Line::Empty);
    };
    let behind = [words.next(), words.next(), words.next()];
    call_of(verb, behind).ok_or_else(|| fault_of(verb))
}

// Why a verb makes no call of the words behind it.
fn fault_of(verb: &str) -> LineFault {
    if VERBS.contains(&verb) {
        LineFault::Broken
    } else {
        LineFault::Unknown
    }
}

// The call of a verb with the words behind it, of which none has three, or nothing where they don't fit.
fn call_of<'a>(verb: &str, behind: [Option<&'a str>; 3]) -> Option<Line<'a>> {
    let call = match (verb, behind) {
        ("frame", [Some(file), None, None]) => return Some(Line::Frame(file)),
        ("write-path", [Some(length), None, None]) => return Some(Line::WritePath(number(length)?)),
        ("make", [Some(classes), Some(speeds), None]) => {
            return Some(Line::Make(number(classes)?, number(speeds)?));
        }
        ("cells", [None, None, None]) => return Some(Line::Job(JobLine::Cells)),
        ("release", [None, None, None]) => return Some(Line::Job(JobLine::Release)),
        ("setpoints", [Some(length), None, None]) => return Some(Line::Job(JobLine::Setpoints(
            number(length)?,
        ))),
        ("advance", [Some(allowance), None, None]) => Call::Advance(number(allowance)?),
        ("look", [Some(sample), None, None]) => Call::Look(number(sample)?),
        ("class-cut", [Some(sample), Some(value), None]) => Call::Cut(
            Make::Classes,
            number(sample)?,
            number(value)?,
        ),
        ("speed-cut", [Some(sample), Some(value), None]) => Call::Cut(
            Make::Speeds,
            number(sample)?,
            number(value)?,
        ),
        ("class-lift", [Some(sample), Some(value), None]) => Call::Lift(
            Make::Classes,
            number(sample)?,
            number(value)?,
        ),
        ("speed-lift", [Some(sample), Some(value), None]) => Call::Lift(
            Make::Speeds,
            number(sample)?,
            number(value)?,
        ),
        _ => return None,
    };
    Some(Line::Job(JobLine::Call(call)))
}
