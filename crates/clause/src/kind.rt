// The kinds of cap clause.
ghost use Rattle.std.specs.Prelude.{◌≡◌};
ghost use Rattle.clause.specs.Kinds.{Decodes, number_of};

use thiserror::Error;

/// A kind of cap clause. Frames number the kinds from 0, in this order.
#[derive(Clone, Copy, Debug, PartialEq, Eq)]
pub enum ClauseKind {
    Free,
    Straight,
    Bend,
    Fixed,
}

/// A number that is no kind's.
#[derive(Clone, Copy, Debug, PartialEq, Eq, Error)]
#[error("no kind of cap clause has the number {0}")]
pub struct UnknownKind(pub u8);

impl TryFrom<u8> for ClauseKind {
    type Error = UnknownKind;

    ghost try_from_gives = { Decodes };

    fn try_from(number: u8) -> Result<ClauseKind, UnknownKind> {
        match number {
            0 => Ok(ClauseKind::Free),
            1 => Ok(ClauseKind::Straight),
            2 => Ok(ClauseKind::Bend),
            3 => Ok(ClauseKind::Fixed),
            _ => Err(UnknownKind(number)),
        }
    }
}

impl From<ClauseKind> for u8 {
    ghost from_gives = { λ kind number. number ≡ number_of kind };

    fn from(kind: ClauseKind) -> u8 {
        match kind {
            ClauseKind::Free => 0,
            ClauseKind::Straight => 1,
            ClauseKind::Bend => 2,
            ClauseKind::Fixed => 3,
        }
    }
}
