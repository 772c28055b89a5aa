// The cap of a clause.
ghost use Rattle.furqyzet_c.specs.Capping.{clause_in, CapIn, Capped};

use clause::{CapClause, ClauseKind, ClauseWords};

// The greatest lateral number.
const MOST_LATERAL: u32 = 2147483647;

// The cap that a clause gives at a lateral number, or nothing where either is refused.
#[tactic(auto, using(clause::proofs::ClauseTrips::clause_legal))]
fn cap_in(kind: u8, first: u32, second: u32, lateral: u32) -> Option<u32>
    ensures { CapIn (clause_in (record { kind = kind; first = first; second = second }) lateral) lateral result }
{
    ClauseKind::try_from(kind).ok()?;
    let words = ClauseWords {
        kind,
        first,
        second,
    };
    let clause = CapClause::try_from(words).ok()?;
    if lateral > MOST_LATERAL {
        return None;
    }
    Some(clause.speed_cap(lateral))
}

// What stands for no cap.
const NO_CAP: i64 = -1;

#[unsafe(no_mangle)]
pub extern "C" fn furqyzet_cap(kind: u8, first: u32, second: u32, lateral: u32) -> i64
    ensures { Capped (clause_in (record { kind = kind; first = first; second = second }) lateral) lateral result }
{
    match cap_in(kind, first, second, lateral) {
        Some(cap) => cap as i64,
        None => NO_CAP,
    }
}
