// Grades from numbers, for callers who don't know yet that a number is within the top.
ghost use Rattle.std.specs.Prelude.{◌≡◌};
ghost use Rattle.grade.specs.Ranks.{rank_in, up_to};

use super::grade::Grade;

// The grade whose rank is `number`, or nothing where that is above the top. No `TryFrom`, which each make would write for
// itself: one text serves every make.
pub fn from_rank<G: Grade>(number: u32) -> Option<G>
    ensures { rank_in G.Grade.rank result ≡ up_to G.Grade.top number }
{
    (number <= G::highest()).then(|| G::of_rank(number))
}
