// Clauses in words.
use super::clause::CapClause;
use std::fmt;

impl fmt::Display for CapClause {
    fn fmt<W: fmt::Write>(&self, f: &mut fmt::Formatter<W>) -> fmt::Result {
        match *self {
            CapClause::Free => write!(f, "free"),
            CapClause::Straight(speed) => write!(f, "straight, at most {speed} m/s"),
            CapClause::Bend(bend) => {
                let speed = bend.top_speed;
                let curvature = bend.curvature;
                write!(f, "bend, at most {speed} m/s, curvature {curvature} 1/m")
            }
            CapClause::Fixed(number) => write!(f, "fixed at {number}"),
        }
    }
}
