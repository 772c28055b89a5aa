// What is asked of the number that a bound allows.
ghost use Rattle.std.specs.Prelude.{◌≡◌, true, false, ℤ, ◌≤ℤ◌};
ghost use Rattle.grade.specs.Ranks.{rank_in};
ghost use Rattle.limit.specs.Numbers.{number_of};
ghost use Rattle.binding.specs.Questions.{says, judged};

use super::bound::{Bound, Found};
use grade::Grade;

// An enum and no closure: a question is asked in two ways, of a number and of all numbers from one on.
#[derive(Clone, Copy, Debug, PartialEq, Eq)]
pub(crate) enum Question {
    // Is it this value?
    Reaches(u32),
    // Is it below this floor?
    FallsShort(u32),
}

impl Question {
    fn says(self, most: Option<u32>) -> bool
        ensures { result ≡ says self (number_of (λ n. n) most) }
    {
        match self {
            Question::Reaches(value) => most.is_some_and(|most| most == value),
            Question::FallsShort(floor) => most.is_none_or(|most| most < floor),
        }
    }

    // Whether the answer is no at every number from `least` on.
    pub(crate) fn is_past(self, least: Option<u32>) -> bool
        ensures { result ≡ true → (z : ℤ) → number_of (λ n. n) least ≤ℤ z → says self z ≡ false }
    {
        least.is_some_and(|least| match self {
            Question::Reaches(value) => value < least,
            Question::FallsShort(floor) => floor <= least,
        })
    }
}

// The rank of a grade that may be missing.
pub(crate) fn rank_of<G: Grade>(grade: Option<G>) -> Option<u32>
    ensures { result ≡ rank_in G.Grade.rank grade }
{
    grade.map(|grade| grade.rank())
}

// The bound with what it allows, where the answer is yes.
pub(crate) fn judge<G: Grade>(question: Question, bound: Bound, most: Option<G>) -> Option<Found>
    ensures { result ≡ judged question bound (number_of G.Grade.rank most) }
{
    let most = rank_of(most);
    question.says(most).then_some(Found { bound, most })
}
