// A cap clause: what bounds the squared speed of a sample from above.
ghost use Rattle.std.specs.Prelude.{◌≡◌, ◌==◌, Ok};
ghost use Rattle.clause.specs.Asking.{ask};
ghost use Rattle.clause.specs.Clauses.{speed_read, clause_read, clause_words, Legal, ClauseCap};

use super::bits::{is_finite, is_negative, number, pattern};
use super::kind::ClauseKind;
use caps::{MOST, bend_cap, speed_cap};
use thiserror::Error;

// A bend: a top speed in m/s and a signed curvature in 1/m.
#[derive(Clone, Copy, Debug, PartialEq)]
pub struct Bend {
    pub top_speed: f32,
    pub curvature: f32,
}

#[derive(Clone, Copy, Debug, PartialEq)]
pub enum CapClause {
    // No bound but the greatest squared speed.
    Free,
    // A top speed in m/s.
    Straight(f32),
    Bend(Bend),
    // The squared speed itself, in units of 1/65536 m²/s².
    Fixed(u32),
}

// A clause as it lies in a sample: its kind and two numbers.
#[derive(Clone, Copy, Debug, PartialEq, Eq)]
pub struct ClauseWords {
    // The byte that lies there, which may be no kind's number.
    pub kind: u8,
    pub first: u32,
    pub second: u32,
}

// A number that does not fit the clause's kind. All are faults of one question, which asks this.
#[derive(Clone, Copy, Debug, PartialEq, Eq, Error)]
#[error("the two numbers must fit the kind: a top speed finite and not below zero, a curvature finite, a fixed cap at most 2147483647, an unused number zero")]
pub enum ClauseFault {
    TopSpeedNotFinite,
    TopSpeedNegative,
    CurvatureNotFinite,
    FixedTooGreat,
    FirstNotZero,
    SecondNotZero,
}

// The top speed of a pattern.
fn top_speed(bits: u32) -> Result<f32, ClauseFault>
    ensures { result ≡ speed_read bits }
{
    if !is_finite(bits) {
        return Err(ClauseFault::TopSpeedNotFinite);
    }
    if is_negative(bits) {
        return Err(ClauseFault::TopSpeedNegative);
    }
    Ok(number(bits))
}

// Asks whether an unused number is zero.
fn ask_zero(number: u32, fault: ClauseFault) -> Result<(), ClauseFault>
    ensures { result ≡ ask (number == 0) fault (Ok tt) }
{
    if number == 0 { Ok(()) } else { Err(fault) }
}

impl TryFrom<ClauseWords> for CapClause {
    type Error = ClauseFault;

    ghost try_from_gives = { λ words r. r ≡ clause_read words };

    // The clause of a kind and its two numbers, or the first number that does not fit. A number that is no kind's is refused
    // before; here it passes for a fixed cap's.
    fn try_from(words: ClauseWords) -> Result<CapClause, ClauseFault> {
        match ClauseKind::try_from(words.kind).unwrap_or(ClauseKind::Fixed) {
            ClauseKind::Free => {
                ask_zero(words.first, ClauseFault::FirstNotZero)?;
                ask_zero(words.second, ClauseFault::SecondNotZero)?;
                Ok(CapClause::Free)
            }
            ClauseKind::Straight => {
                let speed = top_speed(words.first)?;
                ask_zero(words.second, ClauseFault::SecondNotZero)?;
                Ok(CapClause::Straight(speed))
            }
            ClauseKind::Bend => {
                let speed = top_speed(words.first)?;
                if !is_finite(words.second) {
                    return Err(ClauseFault::CurvatureNotFinite);
                }
                Ok(CapClause::Bend(Bend {
                    top_speed: speed,
                    curvature: number(words.second),
                }))
            }
            ClauseKind::Fixed => {
                if words.first > MOST {
                    return Err(ClauseFault::FixedTooGreat);
                }
                ask_zero(words.second, ClauseFault::SecondNotZero)?;
                Ok(CapClause::Fixed(words.first))
            }
        }
    }
}

impl CapClause {
    // The clause as it lies in a sample. No `From`, since only a legal clause has words.
    pub fn words(self) -> ClauseWords
        requires { Legal self }
        ensures { result ≡ clause_words self }
    {
        match self {
            CapClause::Free => ClauseWords {
                kind: ClauseKind::Free.into(),
                first: 0,
                second: 0,
            },
            CapClause::Straight(speed) => ClauseWords {
                kind: ClauseKind::Straight.into(),
                first: pattern(speed),
                second: 0,
            },
            CapClause::Bend(bend) => ClauseWords {
                kind: ClauseKind::Bend.into(),
                first: pattern(bend.top_speed),
                second: pattern(bend.curvature),
            },
            CapClause::Fixed(number) => ClauseWords {
                kind: ClauseKind::Fixed.into(),
                first: number,
                second: 0,
            },
        }
    }

    // The greatest squared speed that the clause allows, at the lateral number a in 1/65536 m/s².
    pub fn speed_cap(self, a: u32) -> u32
        requires { Legal self }
        ensures { ClauseCap self a result }
    {
        match self {
            CapClause::Free => MOST,
            CapClause::Straight(speed) => speed_cap(speed),
            CapClause::Bend(bend) => { speed_cap(bend.top_speed).min(bend_cap(bend.curvature, a)) }
            CapClause::Fixed(number) => number,
        }
    }
}
