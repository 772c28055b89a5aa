// What a limit allows a sample as far as some number.
ghost use Rattle.std.specs.Prelude.{◌≡◌};
ghost use Rattle.limit.specs.Numbers.{number_of};

use grade::Grade;

#[derive(Clone, Copy, Debug, PartialEq, Eq)]
pub struct Allowed {
    // The rank of a grade, or a number below 0 where nothing fits.
    pub number: i64,
    // Where the limit found what bounds the sample.
    pub near: usize,
}

// The number where nothing fits.
pub const NOTHING: i64 = -1;

// The number of an answer.
pub(crate) fn number_of<G: Grade>(answer: Option<G>) -> i64
    ensures { result ≡ number_of G.Grade.rank answer }
{
    match answer {
        Some(grade) => grade.rank() as i64,
        None => NOTHING,
    }
}
